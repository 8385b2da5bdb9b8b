// The call of the crew: no call, where each line open at the step takes a no, and a call.
#![tactic(auto)]

ghost use Rattle.std.specs.Prelude.{◌+◌, ◌<◌, length};
ghost use Rattle.hall_state.specs.Courses.{Arrays};
ghost use Rattle.hall_state.specs.Moves.{Below};
ghost use Rattle.hall_moves.specs.Asks.{AskedAt};
ghost use Rattle.hall_moves.specs.Stays.{CallStays};
ghost use Rattle.hall_calls.specs.Calls.{Passing, PassedOn};

use branch::Bound;
use hall_lines::line_test::LineTest;
use hall_lines::{LineRows, line_no};
use hall_moves::own_sums;
use hall_state::{Branch, Ground, Question, Spot};
use hall_steps::{is_open, openings_before};
use search_state::{NO_COST, Search};

// The line at place d passes the step without a stop, if its own node below has a bound: the hall's estimate then.
#[inline(always)]
pub fn line_passes(
    ground: &Ground,
    rows: &mut [LineRows; 4],
    p: Spot,
    d: usize,
    total: u64,
) -> Option<u64>
    requires { (d < 4) × ((a : Arrays) × ((k : AskedAt Question.CrewCall ground.now a p) × (Passing ground.now a rows.old p.step k.calls k.cs d total) × (d < length k.cs))) }
    ensures { (a : Arrays) (k : AskedAt Question.CrewCall ground.now a p) → d < length k.cs → Passing ground.now a rows.old p.step k.calls k.cs d total
        → PassedOn k.hall ground.now a rows.new p k.name k.calls k.cs (d + 1) result }
{
    if is_open(&ground.ats.before, p.step, d) {
        let at = openings_before(&ground.ats.before, p.step, d);
        // Kept as NO_COST: the state is the whole search's, in which this number stands for no plan yet.
        let fresh = Search {
            count: 0,
            cost: NO_COST,
            mask: 0,
        };
        let test = LineTest {
            limit: 1,
            rest: total - own_sums(&rows[d], at),
            s: fresh,
        };
        return line_no(&ground.lines[d], &mut rows[d], at, test);
    }
    Some(total)
}

// Each line passes the step: the hall's estimate without a call, if it is there.
// Kept as a loop: each turn writes its line's rows, and what a closure's own rows hold after a try_fold is not known.
#[inline(always)]
pub fn no_call(ground: &Ground, rows: &mut [LineRows; 4], p: Spot) -> Option<u64>
    requires { AskedAt Question.CrewCall ground.now rows.old p }
    ensures { (k : AskedAt Question.CrewCall ground.now rows.old p) → PassedOn k.hall ground.now rows.old rows.new p k.name k.calls k.cs (length k.cs) result }
{
    let mut total = p.total;
    for d in 0..ground.ats.lines {
        total = line_passes(ground, rows, p, d, total)?;
    }
    Some(total)
}

// No call at the step; or a call: the lines open at the step are asked, from the first on.
#[inline(always)]
pub fn call_below(ground: &Ground, rows: &mut [LineRows; 4], b: Branch) -> Option<Spot>
    requires { AskedAt Question.CrewCall ground.now rows.old b.p }
    ensures below { (k : AskedAt Question.CrewCall ground.now rows.old b.p) → Below k.hall b.yes ground.now rows.old rows.new b.p result k.name k.cs b.limit b.s }
    ensures stays { CallStays b.yes rows.old rows.new }
{
    let p = b.p;
    if b.yes {
        let total = p.total + ground.ats.call;
        let Bound::Sum(_) = b.s.open(b.limit, total, Bound::Sum(0)) else {
            return None;
        };
        return Some(p.lines_from(0, total));
    }
    let total = no_call(ground, rows, p)?;
    let Bound::Sum(_) = b.s.open(b.limit, total, Bound::Sum(0)) else {
        return None;
    };
    Some(p.next_step(total))
}
