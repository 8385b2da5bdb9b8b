// The terms by classes: for each number of decided openings, each mark and each class, the largest over its parts of the least fee of what is undecided.
ghost use Rattle.std.specs.Prelude.{◌≡◌, ℕ, ◌+◌, ◌≤◌, length, get_or};
ghost use Rattle.base.specs.Filled.{FilledBy};
ghost use Rattle.least.specs.Suffix.{table_size};
ghost use Rattle.lane_rows.specs.Layout.{lane_count_lem};
ghost use Rattle.search_tables.specs.Flat.{sheet_in};
ghost use Rattle.held_lanes.specs.Places.{most_to, class_place, top_place};
ghost use Rattle.held_tables.specs.Sheet.{lanes_of};
ghost use Rattle.held_tables.specs.Fill.{Terms};
ghost use Rattle.model.specs.Limits.{most_openings};

use crate::numbers::HeldNumbers;
use held_lanes::{HELD, TOPS};
use lane_rows::{LANES, row_of};
use part_classes::classes::Classes;
use search_tables::rows::clear;

// The terms of the job in the arrays, by the classes of its parts.
// Kept as a slice with its room in the clause: `fill_held`, which hands it on, may be lent more room than a part's own table takes.
pub fn put_terms(numbers: &HeldNumbers, classes: &Classes, tab: &mut [u64], u: &mut [u32; HELD])
    requires { table_size ≤ length tab.old }
    ensures { Terms (sheet_in numbers.now.job)
        (lanes_of numbers.now.job.positions.now numbers.now.job.lives.now numbers.now.job.lefts.now numbers.now.job.prices.now classes.now.lanes) u.new (length numbers.now.job.lives.now) }
{
    clear(u, 0, TOPS);
    for (q, class) in classes.lanes[..numbers.job.lives.len()].iter().enumerate() {
        numbers.job.raise_part(q, *class, LANES, tab, u);
    }
}

// The largest of the first n classes' terms where j openings are decided and the last is every class's mark.
// Kept with the limits of j and n in the clause: both are plain counts, and a type of bounded numbers would be taken apart at the index.
fn top_of(u: &[u32; HELD], j: usize, n: usize) -> u32
    requires { (j ≤ most_openings) × (n ≤ lane_count_lem) }
    ensures { result ≡ most_to (λ (c : ℕ). get_or u.now (class_place j j c) 0) n }
{
    let at = row_of(j) * LANES + j * LANES;
    u[at..at + n].iter().max().copied().unwrap_or(0)
}

// The largest terms of the classes are put down for each number of openings from none to all.
// Kept as a range: where the terms of a level stand is computed from its number, and they are read from the table that is written to.
pub fn put_tops(numbers: &HeldNumbers, classes: &Classes, u: &mut [u32; HELD])
    ensures { FilledBy top_place (λ (j : ℕ). most_to (λ (c : ℕ). get_or u.old (class_place j j c) 0) classes.now.count) (length numbers.now.job.positions.now + 1) u.old u.new }
{
    for j in 0..numbers.job.positions.len() + 1 {
        u[TOPS + j] = top_of(u, j, classes.count);
    }
}
