// A job at the low ends of its prices, and whether its parts' lines have a `low` line.
// Kept with the counts m and n and their limits where parts are handed over without their job, whose counts they are; and by value where a part or the parts are handed back changed.
#![tactic(auto)]

ghost use Rattle.std.specs.Prelude.{◌≡◌, List, map, ℕ, ◌≤◌, length, take};
ghost use Rattle.model.specs.Limits.{most_openings, most_parts};
ghost use Rattle.jobs.specs.Views.{part_of_lem, job_of};
ghost use Rattle.jobs.specs.declared.Part as code;
ghost use Rattle.quotes.specs.Views.{quotes_of, low_of, lows_of};
ghost use Rattle.price_rules.specs.Grammar.{banded_prices};
ghost use Rattle.part_lines.specs.Grammar.{meant_part, low_part_lem, any_banded};
ghost use Rattle.part_lines.specs.Views.{prices_told, part_lines_lem, parts_lines};
ghost use Rattle.low_ends.specs.Marks.{one_of};
ghost use Rattle.low_ends.specs.Lows.{lines_in, LowJob, Long};

use jobs::{Accepted, Job, Part};
use model::{OPENINGS, PARTS};
use part_lines::each_part;
use part_lines::said::PartSaid;

// The first n prices at their low ends: of a single one that is the price itself.
// Kept as a loop over places: the two arrays and what is filled meet at one place, and zipped they would be a pair in a pair.
fn low_prices(lows: [Option<u32>; OPENINGS], highs: [u32; OPENINGS], n: usize) -> [u32; OPENINGS]
    requires { n ≤ most_openings }
    ensures { take n result ≡ lows_of lows (take n highs) }
{
    let mut ends = [0; OPENINGS];
    for k in 0..n {
        ends[k] = lows[k].unwrap_or(highs[k]);
    }
    ends
}

// A part at the low ends of its prices at n openings; a rule gives single prices only.
fn low_part(said: PartSaid, part: Part, n: usize) -> Part
    requires { (n ≤ most_openings) × (meant_part n (part_lines_lem said (part_of_lem n part)) ≡ part_of_lem n part) }
    ensures { part_of_lem n result ≡ low_part_lem n (part_lines_lem said (part_of_lem n part)) }
{
    match said.rule {
        Some(_) => part,
        None => Part {
            prices: low_prices(said.lows, part.prices, n),
            ..part
        },
    }
}

// The first m parts at the low ends of their prices at n openings.
fn low_parts(said: [PartSaid; PARTS], parts: [Part; PARTS], m: usize, n: usize) -> [Part; PARTS]
    requires { (m ≤ most_parts) × (n ≤ most_openings) × (map (meant_part n) (parts_lines (take m said) (map (part_of_lem n) (take m parts))) ≡ map (part_of_lem n) (take m parts)) }
    ensures { map (part_of_lem n) (take m result) ≡ map (low_part_lem n) (parts_lines (take m said) (map (part_of_lem n) (take m parts))) }
{
    each_part(said, parts, m, |said, part| low_part(said, part, n))
}

// The job at the low ends of its prices, where these lines say its parts.
pub fn low_job(said: &[PartSaid; PARTS], job: &Job) -> Job
    requires { map (meant_part (length (job_of job.now).openings)) (lines_in said.now job.now) ≡ (job_of job.now).parts }
    ensures { LowJob said.now job.now result }
{
    let mut low = *job;
    low.parts = low_parts(*said, job.parts, job.part_count, job.opening_count);
    low
}

// One of the prices is a pair, by their low ends.
fn one_paired(lows: &[Option<u32>]) -> bool
    ensures { result ≡ one_of lows.now }
{
    lows.iter().any(Option::is_some)
}

// Whether a part's lines have a `low` line among its prices at n openings.
fn is_part_banded(said: PartSaid, n: usize) -> bool
    requires { n ≤ most_openings }
    ensures { (highs : List ℕ) → length highs ≡ n → result ≡ banded_prices (prices_told said.rule (quotes_of said.lows highs)) }
{
    match said.rule {
        Some(_) => false,
        None => one_paired(&said.lows[..n]),
    }
}

// Whether the lines of the first m parts have a `low` line, with n openings.
fn one_banded(said: [PartSaid; PARTS], m: usize, n: usize) -> bool
    requires { (m ≤ most_parts) × (n ≤ most_openings) }
    ensures { (parts : List code.Part) → Long m n parts → result ≡ any_banded (parts_lines (take m said) (map (part_of_lem n) (take m parts))) }
{
    said[..m].iter().any(|said| is_part_banded(*said, n))
}

// Whether the lines of a job's parts have a `low` line.
pub fn is_banded(said: &[PartSaid; PARTS], job: &Accepted) -> bool
    ensures { result ≡ any_banded (lines_in said.now job.now.job) }
{
    let job = &job.job;
    one_banded(*said, job.part_count, job.opening_count)
}
