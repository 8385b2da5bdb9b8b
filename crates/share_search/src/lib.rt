// The cheapest plan of a job, by walks with fair shares and lifts from cutoffs below: the tables, the lifts, the walks, and the plan of the name that they find.
// Kept with the limit of a walk in the clauses: it is a plain number, and a type of numbers below 2 to the 63rd would be made and taken apart once in each call.
// Kept as slices with their room in the clauses: an array would ask for just so much.
#![tactic(auto)]

ghost use Rattle.std.specs.Prelude.{◌≡◌, ◌<◌, ◌≤◌, ◌^◌, Ok, Some, length, take};
ghost use Rattle.model.specs.Model.{Job};
ghost use Rattle.shares.specs.Certificate.{NoneUnder};
ghost use Rattle.least.specs.Suffix.{table_size};
ghost use Rattle.lane_rows.specs.Layout.{inf};
ghost use Rattle.held_tables.specs.Numbers.{Holds};
ghost use Rattle.cutoffs.specs.declared.found.Undercut.{Undercut};
ghost use Rattle.share_search.specs.Sought.{found_of_lem, Rises, Sought};

use branch::Bound;
use cutoffs::{LAST_CUTOFF, Risen, rise};
use held_search::plan_of;
use held_tables::numbers::HeldNumbers;
use jobs::Plan;
use lane_rows::{STACK, TABLES};
use least::TABLE;
use level_lifts::lift_levels;
use search::Found;
use share_rows::SHARES;
use share_tables::prepare;
use share_walk::{NAMES, lift_of};

// Each walk that looks for a lift tries for one part in so many of what the shares are worth beyond the last one.
const LIFT_STEP_PARTS: u64 = 512;

// The cutoff wished for is above what the shares are worth, and the first level's lift, by one part in so many.
const WISH_PARTS: u64 = 256;

// What each walk that looks for a lift tries for beyond the last one: a part of what the shares are worth.
fn step_of(value: u64) -> u32
    ensures { result ≤ inf }
{
    // Kept as a cast: it is no more than the number for a missing price.
    (value / LIFT_STEP_PARTS).max(1).min(LAST_CUTOFF) as u32
}

// Where the walks of a job end. The tables stand on the stack of this call; the name that is found is the first part of `best`.
fn walked(
    numbers: &HeldNumbers,
    floor: u64,
    in_hand: Option<u64>,
    limit: u64,
    tab: &mut [u64],
    best: &mut [bool; NAMES],
) -> Risen
    requires { ((job : Job) × Holds job numbers.now) × (table_size ≤ length tab.old) × (limit < 2 ^ 63) }
    ensures { (job : Job) → Holds job numbers.now → NoneUnder job floor → Rises job floor in_hand limit best.new result }
{
    let mut t = [0; TABLES];
    let mut x = [0; SHARES];
    let mut w = [0; STACK];
    let mut name = [false; NAMES];
    let value = prepare(numbers, tab, &mut t, &mut x);
    let lifts = lift_levels(&t, &x, &mut w, &mut name, best, step_of(value));
    let wish = value + value / WISH_PARTS + lift_of(&lifts, 0);
    rise(
        &t, &x, &lifts, &mut w, &mut name, best, wish, floor, in_hand, limit,
    )
}

// The name that the walks found, in the buffer that they wrote it to; it is empty where they found none.
fn name_in(risen: Risen, best: &[bool; NAMES]) -> &[bool]
    ensures { (u : Undercut) → risen.found ≡ Ok (Some u) → result.now ≡ take u.size best.now }
{
    match risen.found {
        Ok(Some(plan)) => &best[..plan.size],
        _ => &best[..0],
    }
}

// What the walks found, with the plan of the name.
fn found_of(risen: Risen, plan: Plan) -> Found
    ensures { result ≡ found_of_lem risen plan }
{
    Found {
        count: 0,
        over: risen.found.is_err(),
        cost: risen.found.ok().flatten().map(|plan| plan.cost),
        floor: Bound::Sum(risen.floor),
        plan,
    }
}

// The search of a job by shares, each walk of the job with at most `limit` nodes, those for its lifts with limits of their own. No plan costs less than `floor`; `in_hand` is what a plan in hand costs, if there is one.
pub fn search_shared(numbers: &HeldNumbers, floor: u64, in_hand: Option<u64>, limit: u64) -> Found
    requires { ((job : Job) × Holds job numbers.now) × (limit < 2 ^ 63) }
    ensures { (job : Job) → Holds job numbers.now → NoneUnder job floor → Sought job floor in_hand limit result }
{
    let mut tab = [0; TABLE];
    let mut best = [false; NAMES];
    let risen = walked(numbers, floor, in_hand, limit, &mut tab, &mut best);
    let plan = plan_of(numbers, name_in(risen, &best), &mut tab);
    found_of(risen, plan)
}
