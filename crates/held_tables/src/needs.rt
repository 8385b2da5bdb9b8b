// Who needs each holding part: its lanes as a set, and its classes as a list; and what its removal costs.
ghost use Rattle.std.specs.Prelude.{◌≡◌, ◌<◌};
ghost use Rattle.base.specs.Filled.{Filled};
ghost use Rattle.lane_rows.specs.Layout.{lane_count_lem};
ghost use Rattle.held_lanes.specs.Places.{need_lanes_place};
ghost use Rattle.part_classes.specs.Grouped.{need_at};
ghost use Rattle.held_tables.specs.Fill.{LaneSet, Listed, Lists, Needed};

use crate::numbers::HeldNumbers;
use held_lanes::{HELD, NEED_CLASSES, NEED_COUNTS, NEED_LANES, REMOVALS};
use held_places::needs::Needs;
use lane_rows::LANES;
use model::PARTS;
use part_classes::classes::Classes;
use search_tables::rows::put_at;

// Part q needs the holding part b.
// Kept with the limits of q and b in the clause, here and below: a part's number is a plain one, and a type of bounded numbers would be taken apart at each index.
fn needs_part(needs: &Needs, q: usize, b: usize) -> bool
    requires { (q < lane_count_lem) × (b < lane_count_lem) }
    ensures { result ≡ need_at needs.now.marks.now q b }
{
    needs.marks[q * PARTS + b]
}

// The lanes that need the holding part b: the last lane is the highest bit.
// Kept as a range that counts down: of an iterator that is run from behind a loop knows what it handed out, and the set is gathered by the number of the lane.
fn lane_set(needs: &Needs, classes: &Classes, b: usize) -> u32
    requires { b < lane_count_lem }
    ensures { LaneSet needs.now.marks.now classes.now b result }
{
    let mut set = 0;
    for q in (0..LANES).rev() {
        set = set * 2 + u32::from(needs_part(needs, classes.leads[classes.lanes[q]], b));
    }
    set
}

// Kept as parameters, here and below: a job's classes are found for its tables alone, and its needs are the job's.

// The lanes that need each of the holding parts.
fn put_lanes(needs: &Needs, classes: &Classes, u: &mut [u32; HELD])
    ensures { Filled need_lanes_place (LaneSet needs.now.marks.now classes.now) needs.now.holding u.old u.new }
{
    for (b, set) in u[NEED_LANES..NEED_LANES + needs.holding]
        .iter_mut()
        .enumerate()
    {
        *set = lane_set(needs, classes, b);
    }
}

// The list of the classes that need the holding part b; and how many there are.
// Kept with an index into the table: how many numbers are written is known only at the end.
// Kept as `as`, here and below: the library has no `From` of a usize into a u32, and each number is at most 16.
fn put_list(needs: &Needs, classes: &Classes, b: usize, u: &mut [u32; HELD]) -> usize
    requires { b < lane_count_lem }
    ensures { Listed needs.now.marks.now classes.now b result u.old u.new }
{
    let mut n: usize = 0;
    for (c, lead) in classes.leads[..classes.count].iter().enumerate() {
        if needs_part(needs, *lead, b) {
            u[NEED_CLASSES + (b * LANES + n)] = c as u32;
            n += 1;
        }
    }
    n
}

// The lists of the holding parts.
// Kept with an index: two regions of one table are written in each turn, the list and how long it is.
fn put_lists(needs: &Needs, classes: &Classes, u: &mut [u32; HELD])
    ensures { Lists needs.now.marks.now classes.now needs.now.holding u.old u.new }
{
    for b in 0..needs.holding {
        let n = put_list(needs, classes, b, u);
        u[NEED_COUNTS + b] = n as u32;
    }
}

// The removals and the needs of the holding parts.
pub fn put_needs(numbers: &HeldNumbers, classes: &Classes, u: &mut [u32; HELD])
    ensures { Needed numbers.now.needs.now numbers.now.removals.now classes.now u.old u.new }
{
    let needs = numbers.needs();
    put_at(u, REMOVALS, numbers.removals);
    put_lanes(&needs, classes, u);
    put_lists(&needs, classes, u);
}
