// A part's lines: what they say and the part that they mean, read from a text.
#![tactic(auto)]

pub mod said;

ghost use Rattle.std.specs.Prelude.{◌≡◌, cond, ℕ, ◌≤◌, ◌<◌, get_or};
ghost use Rattle.lines.specs.Parser.{row, checked, up_to};
ghost use Rattle.lines.specs.Reads.{Reads, seen};
ghost use Rattle.model.specs.Limits.{longest_life, most_openings, most_parts};
ghost use Rattle.jobs.specs.Views.{blank_part_lem, part_of_lem};
ghost use Rattle.price_rules.specs.Grammar.{prices};
ghost use Rattle.part_lines.specs.Bare.{Bare};
ghost use Rattle.part_lines.specs.Grammar.{part};
ghost use Rattle.part_lines.specs.Views.{prices_read, part_told, Unsaid, blank_said, priced, Changed, Tabled};

use covers::{Cover, read_cover};
use jobs::Part;
use lines::fault::{Fault, FaultKind};
use lines::rows::Lines;
use model::{OPENINGS, PARTS};
use price_rules::{Rule, read_rule, rule_prices};
use quotes::{Quotes, read_quotes};
use said::{PartRead, PartSaid};

impl PartSaid {
    // What stands where no part is read.
    // Kept as lines that say nothing, and not an Option: no heap, and the places of an array past its count hold something.
    pub fn nothing() -> PartSaid
        ensures { Unsaid result }
    {
        PartSaid {
            covered: false,
            rule: None,
            lows: [None; OPENINGS],
        }
    }
}

// A part's prices read: their rule, where they stand by one, else those that are listed.
#[derive(Clone, Copy)]
struct PriceLines {
    rule: Option<Rule>,
    quotes: Quotes,
}

// What is left of a part's first life: no more than its life, else fault 5.
fn read_left(lines: &mut Lines, life: u32) -> Result<u32, Fault>
    ensures { Reads (checked 5 (up_to life) (row "left=" 0 longest_life)) lines.old lines.new result }
{
    lines.checked(
        b"left=",
        Part::MIN_LEFT,
        Part::MAX_LEFT,
        FaultKind::Left,
        |left| left <= life,
    )
}

// How many prices are listed: one for each of n openings, and none where there is a rule.
// Kept with a flag: it picks a number, and not one of two bodies.
pub fn list_length(ruled: bool, n: usize) -> usize
    ensures { result ≡ cond ruled 0 n }
{
    if ruled { 0 } else { n }
}

// A part's prices: a rule where its lines stand, else n listed ones.
// Kept with the limit of n in the clause, here and below: a part is read before the job is made that counts its openings.
fn read_price_lines(lines: &mut Lines, n: usize) -> Result<PriceLines, Fault>
    requires { n ≤ most_openings }
    ensures { Reads (prices n) lines.old lines.new (seen (prices_read n) result) }
{
    let rule = read_rule(lines)?;
    let quotes = read_quotes(lines, list_length(rule.is_some(), n))?;
    Ok(PriceLines { rule, quotes })
}

// What stands where no part is read: removal 0 and no holders, which no line says.
// Kept as a part of zeros, and not an Option: no heap, and the places of an array past its count hold something.
pub fn blank_part() -> Part
    ensures { Bare result }
{
    let Cover { removal, holders } = Cover::none();
    Part {
        life: 0,
        left: 0,
        removal,
        holders,
        prices: [0; OPENINGS],
    }
}

// Part k of m, with a price for each of n openings: its life and what is left of it, the lines of removal, where they stand, and a rule or n prices.
pub fn read_part(lines: &mut Lines, m: u32, n: usize, k: u32) -> Result<PartRead, Fault>
    requires { n ≤ most_openings }
    ensures { Reads (part m n k) lines.old lines.new (seen (part_told n) result) }
{
    let life = lines.field(b"life=", Part::MIN_LIFE, Part::MAX_LIFE)?;
    let left = read_left(lines, life)?;
    let there = read_cover(lines, m, k)?;
    let PriceLines { rule, quotes } = read_price_lines(lines, n)?;
    let Quotes { lows, highs } = quotes;
    let Cover { removal, holders } = there.unwrap_or(Cover::none());
    Ok(PartRead {
        said: PartSaid {
            covered: there.is_some(),
            rule,
            lows,
        },
        part: Part {
            life,
            left,
            removal,
            holders,
            prices: highs,
        },
    })
}

// A part with the prices of its rule at n openings, where it has one.
// Kept by value: the part is handed back with its prices written, and a reference would be copied first.
fn with_rule(said: PartSaid, part: Part, n: usize) -> Part
    requires { n ≤ most_openings }
    ensures { part_of_lem n result ≡ priced n said (part_of_lem n part) }
{
    match said.rule {
        Some(rule) => Part {
            prices: rule_prices(rule, n),
            ..part
        },
        None => part,
    }
}

// Each of the first m parts changed, by what its lines say; the others stay.
// Kept with both arrays and m: what the lines say stands beside the job's parts, which hold no lines, and as many count as the job has.
pub fn each_part<F: Fn(PartSaid, Part) -> Part>(
    said: [PartSaid; PARTS],
    parts: [Part; PARTS],
    m: usize,
    changed: F,
) -> [Part; PARTS]
    requires few { m ≤ most_parts }
    requires asked { (q : ℕ) → q < m → F.pre changed (get_or said q blank_said) (get_or parts q blank_part_lem) }
    ensures { Changed m (λ s p r. F.post changed s p r) said parts result }
{
    let mut table = parts;
    for (q, part) in table[..m].iter_mut().enumerate() {
        *part = changed(said[q], *part);
    }
    table
}

// The generator: of the first m parts, those with a rule get its prices at n openings.
pub fn put_rule_prices(
    said: [PartSaid; PARTS],
    parts: [Part; PARTS],
    m: usize,
    n: usize,
) -> [Part; PARTS]
    requires { (m ≤ most_parts) × (n ≤ most_openings) }
    ensures { Tabled m n said parts result }
{
    each_part(said, parts, m, |said, part| with_rule(said, part, n))
}
