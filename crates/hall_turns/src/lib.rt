// The walk's turns: on to the next question, with a stop settled before it; and a full node's incumbent.
#![tactic(auto)]

ghost use Rattle.std.specs.Prelude.{◌≡◌, List, ℕ, ◌+◌, ◌<◌, ◌≤◌};
ghost use Rattle.model.specs.Limits.{most_openings};
ghost use Rattle.hall_lines.specs.declared.LineTables.{LineTables};
ghost use Rattle.hall_steps.specs.Steps.{level_in};
ghost use Rattle.hall_state.specs.Courses.{Arrays};
ghost use Rattle.hall_state.specs.Spots.{line_spot, inner_at};
ghost use Rattle.hall_state.specs.Moves.{Arrived};
ghost use Rattle.hall_turns.specs.Turns.{ground_of, StoodAt, KeptLines};

use hall_lines::{LineRows, Stop, settle_line};
use hall_state::{Ground, Question, Spot};
use hall_steps::{CrewSteps, next_open, openings_before};
use held_lanes::{HOLDS, number};
use held_nodes::keep;

// The next line from this place on that is open at the step, or the next step.
#[inline(always)]
pub fn onto(ats: &CrewSteps, p: Spot, line: usize) -> Spot
    requires { (t : List LineTables) × ((a : Arrays) × StoodAt (ground_of t ats.now) a (line_spot p line p.total)) }
    ensures { (t : List LineTables) (a : Arrays) (k : StoodAt (ground_of t ats.now) a (line_spot p line p.total)) → Arrived k.hall (ground_of t ats.now) a a (line_spot p line p.total) result k.name k.calls k.cs }
{
    match next_open(&ats.before, p.step, line, ats.lines) {
        Some(d) => p.lines_from(d, p.total),
        None => p.next_step(p.total),
    }
}

// The stop whose removals are decided is settled, and on with the next line.
#[inline(always)]
pub fn settled(ground: &Ground, rows: &mut [LineRows; 4], p: Spot, stop: Stop) -> Spot
    requires { ((k : StoodAt ground.now rows.old p) × (inner_at k.hall.jobs p.line ≤ stop.next)) × (p.asks ≡ Question.PartRemoval stop) }
    ensures { (k : StoodAt ground.now rows.old p) → inner_at k.hall.jobs p.line ≤ stop.next → Arrived k.hall ground.now rows.old rows.new p result k.name k.calls k.cs }
{
    let d = p.line;
    let at = openings_before(&ground.ats.before, p.step, d);
    settle_line(&ground.lines[d], &mut rows[d], at, stop);
    onto(&ground.ats, p, d + 1)
}

// The spot of the next question: where a call or an open removal is asked the walk is there already; a stop with no removal open is settled, and closed lines are passed over.
#[inline(always)]
pub fn arrive(ground: &Ground, rows: &mut [LineRows; 4], p: Spot) -> Spot
    requires { StoodAt ground.now rows.old p }
    ensures { (k : StoodAt ground.now rows.old p) → Arrived k.hall ground.now rows.old rows.new p result k.name k.calls k.cs }
{
    let d = p.line;
    match p.asks {
        Question::CrewCall => p,
        Question::LineStop => onto(&ground.ats, p, d),
        Question::PartRemoval(stop) => {
            if stop.next < number(&ground.lines[d].u, HOLDS) {
                return p;
            }
            settled(ground, rows, p, stop)
        }
    }
}

// A full node becomes the incumbent: each line's removals and stops are kept.
// Kept as a loop over places: two arrays are written and a third is read at each, up to as many as there are lines, and a zip of the three is no plainer.
pub fn close(ground: &Ground, rows: &mut [LineRows; 4], best: &mut [u64; 4])
    requires { (ground.now.ats.lines ≤ 4) × (ground.now.ats.steps ≤ most_openings) × ((e : ℕ) → e < ground.now.ats.lines → level_in ground.now.ats.before ground.now.ats.steps e ≤ most_openings) }
    ensures { KeptLines rows.old rows.new best.new ground.now.ats ground.now.ats.lines }
{
    for d in 0..ground.ats.lines {
        let own = &mut rows[d];
        keep(&mut own.v);
        let at = openings_before(&ground.ats.before, ground.ats.steps, d);
        best[d] = own.n[at].mask;
    }
}
