// The numbers of a job laid out in arrays, as the searches take them.
#![tactic(auto)]

ghost use Rattle.std.specs.Prelude.{◌≡◌, map, ℕ, ◌+◌, ◌≤◌, ◌<◌, length, get_or, take};
ghost use Rattle.model.specs.Limits.{dearest, most_parts};
ghost use Rattle.model.specs.Model.{fee_of};
ghost use Rattle.jobs.specs.Views.{job_of};
ghost use Rattle.base.specs.Filled.{FilledBy};
ghost use Rattle.job_numbers.specs.Laid.{life_of_lem, left_of, Laid, prices_with, Charged, Numbered};

use clock::{Positions, positions_of};
use jobs::{Accepted, Job};
use model::{OPENINGS, PARTS, PRICES, STRIDE};
use part_records::{left_of, life_of, part_at};
use search_tables::flat::FlatJob;

// The fees of the openings.
fn fees_of(job: &Job) -> [u32; OPENINGS]
    ensures { take job.now.opening_count result ≡ map fee_of (job_of job.now).openings }
{
    job.openings.map(|o| o.fee)
}

// The lives of the parts.
// Kept as a loop over places: a rule of the project, that the numbers of a record are read by thin functions over the slice that is lent.
fn lives_of(job: &Job) -> [u32; PARTS]
    ensures { take job.now.part_count result ≡ map life_of_lem (job_of job.now).parts }
{
    let parts = &job.parts[..job.part_count];
    let mut lives = [0u32; PARTS];
    for q in 0..parts.len() {
        lives[q] = life_of(parts, q);
    }
    lives
}

// What is left of the first life of each part.
// Kept as a loop over places: a rule of the project, that the numbers of a record are read by thin functions over the slice that is lent.
fn lefts_of(job: &Job) -> [u32; PARTS]
    ensures { take job.now.part_count result ≡ map left_of (job_of job.now).parts }
{
    let parts = &job.parts[..job.part_count];
    let mut lefts = [0u32; PARTS];
    for q in 0..parts.len() {
        lefts[q] = left_of(parts, q);
    }
    lefts
}

// What a job says of time, its openings' fees, and its parts' lives and first lives.
// Kept as arrays side by side: a search takes each as a slice of numbers, and reads one at a time.
#[derive(Drop)]
pub struct Numbers {
    pub placed: Positions,
    pub fees: [u32; OPENINGS],
    pub lives: [u32; PARTS],
    pub lefts: [u32; PARTS],
}

// The positions, fees and lives of a job.
pub fn numbers_of(job: &Accepted) -> Numbers
    ensures { Numbered (job_of job.now.job) job.now.job.opening_count job.now.job.part_count result }
{
    Numbers {
        placed: positions_of(job),
        fees: fees_of(&job.job),
        lives: lives_of(&job.job),
        lefts: lefts_of(&job.job),
    }
}

impl Numbers {
    // The job in arrays, at these prices.
    pub fn flat<'a>(&'a self, job: &Accepted, prices: &'a [u32]) -> FlatJob<'a>
        requires numbered { Numbered (job_of job.now.job) job.now.job.opening_count job.now.job.part_count self.now }
        requires charged { Charged job.now.job prices.now }
        ensures ends { result.end ≡ self.now.placed.end }
        ensures places { result.positions.now ≡ take job.now.job.opening_count self.now.placed.at }
        ensures fees { result.fees.now ≡ take job.now.job.opening_count self.now.fees }
        ensures lives { result.lives.now ≡ take job.now.job.part_count self.now.lives }
        ensures lefts { result.lefts.now ≡ take job.now.job.part_count self.now.lefts }
        ensures prices { result.prices.now ≡ prices.now }
    {
        let n = job.job.opening_count;
        let m = job.job.part_count;
        FlatJob {
            end: self.placed.end,
            positions: &self.placed.at[..n],
            fees: &self.fees[..n],
            lives: &self.lives[..m],
            lefts: &self.lefts[..m],
            prices,
        }
    }
}

// One part's prices with this much added to each, from `at` on.
// Kept with a place to write at: zipped with the part of `flat` from there on, the proof has no slice in the loop of which to say what was written, but an iterator with what it has left.
fn put_prices(prices: &[u32], added: u32, at: usize, flat: &mut [u32])
    requires { (at + length prices.now ≤ length flat.old) × ((i : ℕ) → get_or prices.now i 0 ≤ dearest) × (added ≤ dearest) }
    ensures { FilledBy (λ (i : ℕ). at + i) (λ (i : ℕ). get_or prices.now i 0 + added) (length prices.now) flat.old flat.new }
{
    for (i, price) in prices.iter().enumerate() {
        flat[at + i] = *price + added;
    }
}

// The prices of the parts, one part after the other, with what is added to each part's.
// Kept as a loop over the parts' places: a part's prices are written from a place on that is counted from its own.
pub fn prices_of(job: &Accepted, added: &[u32; PARTS]) -> [u32; PRICES]
    requires { (q : ℕ) → q < most_parts → get_or added.now q 0 ≤ dearest }
    ensures { Laid job.now.job.part_count (prices_with (job_of job.now.job) added.now) result }
{
    let job = &job.job;
    let n = job.opening_count;
    let mut flat = [0u32; PRICES];
    for q in 0..job.part_count {
        let part = part_at(&job.parts, q);
        put_prices(&part.prices[..n], added[q], q * STRIDE, &mut flat);
    }
    flat
}
