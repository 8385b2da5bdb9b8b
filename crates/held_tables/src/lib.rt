// The tables of the walk of a job with holders: the terms by classes of parts, and who needs whom.
#![tactic(auto)]

mod needs;
pub mod numbers;
mod terms;

ghost use Rattle.std.specs.Prelude.{◌≡◌, ℕ, ◌+◌, ◌<◌, ◌≤◌, length, get_or, set};
ghost use Rattle.base.specs.Filled.{FilledBy};
ghost use Rattle.least.specs.Suffix.{table_size};
ghost use Rattle.lane_rows.specs.Layout.{lane_count_lem};
ghost use Rattle.held_lanes.specs.Places.{mask_of, mask_base, lead_place, classes_place, holds_place};
ghost use Rattle.held_lanes.specs.Tables.{Masks, HeldTables};
ghost use Rattle.part_classes.specs.Grouped.{grouping, Grouped};
ghost use Rattle.held_tables.specs.Numbers.{sheet_with};
ghost use Rattle.held_tables.specs.Fill.{Before, Closed};

use held_lanes::{CLASSES, FOUR_SETS, HELD, HOLDS, LEADS, MASKS};
use lane_rows::INF;
use needs::put_needs;
use numbers::HeldNumbers;
use part_classes::classes::Classes;
use search_tables::rows::put_at;
use terms::{put_terms, put_tops};

// What stands for the first lane of a set.
fn mask(set: usize) -> u32
    ensures { result ≡ mask_of set 0 }
{
    if set % 2 == 1 { INF } else { 0 }
}

// The four masks of a set, the first lane's first.
fn masks_of(set: usize) -> [u32; 4]
    ensures { (length result ≡ 4) × ((i : ℕ) → i < 4 → get_or result i 0 ≡ mask_of set i) }
{
    let half = set / 2;
    let quarter = half / 2;
    [mask(set), mask(half), mask(quarter), mask(quarter / 2)]
}

// The masks of all sets of four lanes.
// Kept as a range: a set is a number, and its bits say which lanes it has.
fn put_masks(u: &mut [u32; HELD])
    ensures { Masks u.new × Before mask_base u.old u.new }
{
    for set in 0..FOUR_SETS {
        put_at(u, MASKS + set * 4, &masks_of(set));
    }
}

// Kept as `as`, here and below: the library has no `From` of a usize into a u32, and each number is at most 16.

// The lead of each class.
fn put_leads(classes: &Classes, u: &mut [u32; HELD])
    ensures { FilledBy lead_place (λ (c : ℕ). get_or classes.now.leads c 0) classes.now.count u.old u.new }
{
    for (c, place) in u[LEADS..LEADS + classes.count].iter_mut().enumerate() {
        *place = classes.leads[c] as u32;
    }
}

// How many classes there are, and how many holding parts.
fn put_counts(numbers: &HeldNumbers, classes: &Classes, u: &mut [u32; HELD])
    ensures { u.new ≡ set (set u.old classes_place classes.now.count) holds_place (length numbers.now.removals.now) }
{
    u[CLASSES] = classes.count as u32;
    u[HOLDS] = numbers.removals.len() as u32;
}

// The masks, the leads and the numbers of classes and of holding parts.
fn put_rest(numbers: &HeldNumbers, classes: &Classes, u: &mut [u32; HELD])
    ensures { Closed classes.now (length numbers.now.removals.now) u.old u.new }
{
    put_masks(u);
    put_leads(classes, u);
    put_counts(numbers, classes, u);
}

// The tables for holders of the job in the arrays, by the classes of its parts.
// Kept as four parameters, here and where it is called: `tab` is room to work in, of which more may be lent, `u` what is filled, and a job's classes are found for its tables alone.
pub fn fill_held(numbers: &HeldNumbers, classes: &Classes, tab: &mut [u64], u: &mut [u32; HELD])
    requires room { table_size ≤ length tab.old }
    requires grouped { Grouped numbers.now.needs.now (length numbers.now.removals.now) (length numbers.now.job.lives.now) (grouping classes.now) }
    ensures { HeldTables (sheet_with numbers.now classes.now) u.new }
{
    put_terms(numbers, classes, tab, u);
    put_tops(numbers, classes, u);
    put_needs(numbers, classes, u);
    put_rest(numbers, classes, u);
}
