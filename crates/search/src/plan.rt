// The plan of the incumbent: its stops from the mask, and each part's changes within them.
ghost use denote.Ref.{MutBor};
ghost use Rattle.std.specs.Prelude.{◌≡◌, ℕ, Bool, List, false, ◌++◌, ◌-◌, ◌<◌, ◌≤◌, length, replicate};
ghost use Rattle.least.specs.Suffix.{table_size};
ghost use Rattle.lane_rows.specs.Layout.{lane_count_lem};
ghost use Rattle.search_state.specs.State.{bits};
ghost use Rattle.search.specs.Plan.{row_of, Rows, Chooses};
ghost use Rattle.model.specs.Limits.{most_openings, most_parts};

use jobs::Changes;
use model::{OPENINGS, PARTS, STRIDE};
use search_tables::flat::FlatJob;

// Kept with the limits of n, q and m in the clauses, here and below: no job stands beside a count that would bound it, or a part's number is a plain one, and a type of bounded numbers would be taken apart at each index.

// The decisions of a mask, the latest in its lowest bit; no stop past the last opening.
// Kept as a range that counts down: the latest decision is the last that is written, and of an iterator that writes from behind the library doesn't say what it wrote.
pub fn stops_of(mask: u64, n: usize) -> [bool; OPENINGS]
    requires { n ≤ most_openings }
    ensures { result ≡ bits n mask ++ replicate (most_openings - n) false }
{
    let mut out = [false; OPENINGS];
    let mut m = mask;
    for k in (0..n).rev() {
        out[k] = m % 2 == 1;
        m /= 2;
    }
    out
}

// Part q's changes within the stops.
// Kept as a slice with its room in the clause, here and below: `changes` may be lent more room than a part's own table takes, and an array type would ask its callers for just so much.
fn part_changes(job: &FlatJob<'_>, q: usize, stops: &[bool], tab: &mut [u64]) -> [bool; OPENINGS]
    requires { (table_size ≤ length tab.old) × (q < lane_count_lem) × (length stops.now ≡ length job.now.positions.now) }
    ensures { result ≡ row_of job.now stops.now q }
{
    let at = q * STRIDE;
    let prices = &job.prices[at..at + job.positions.len()];
    job.offers(q, prices, stops).choice(tab)
}

// The changes of the first m parts: of each what `at` says, which is lent room to work in.
pub fn changes_of<F: Fn(usize, &mut [u64]) -> [bool; OPENINGS]>(
    m: usize,
    tab: &mut [u64],
    at: F,
) -> [Changes; PARTS]
    requires few { m ≤ most_parts }
    requires room { table_size ≤ length tab.old }
    requires asked { (q : ℕ) (p : MutBor (List ℕ)) → q < m → table_size ≤ length p.now → F.pre at q p }
    ensures { (f : ℕ → List Bool) → ((q : ℕ) (p s : MutBor (List ℕ)) (r : List Bool) → q < m → F.post at q p r s → r ≡ f q) → Rows f result m }
{
    let mut rows = [Changes {
        at: [false; OPENINGS],
    }; PARTS];
    for (q, row) in rows[..m].iter_mut().enumerate() {
        *row = Changes { at: at(q, tab) };
    }
    rows
}

// Each part's changes within the stops.
pub fn changes(job: &FlatJob<'_>, stops: &[bool], tab: &mut [u64]) -> [Changes; PARTS]
    requires { (table_size ≤ length tab.old) × (length stops.now ≡ length job.now.positions.now) }
    ensures { Chooses job.now.end job.now.positions.now job.now.lives.now job.now.lefts.now job.now.prices.now stops.now result (length job.now.lives.now) }
{
    changes_of(
        job.lives.len(),
        tab,
        |q, tab|
            requires { (table_size ≤ length tab.old) × (q < lane_count_lem) × (length stops.now ≡ length job.now.positions.now) }
            ensures { result ≡ row_of job.entry.now stops.entry.now q }
        { part_changes(job, q, stops, tab) },
    )
}
