// The moves of the hall's walk at a line: the nodes below its question, and below a removal at its stop.
#![tactic(auto)]

ghost use Rattle.std.specs.Prelude.{◌≡◌, ◌+◌, ◌<◌, ◌≤◌, ◌^◌};
ghost use Rattle.model.specs.Limits.{most_openings};
ghost use Rattle.hall_lines.specs.Levels.{sums_in, term_in};
ghost use Rattle.hall_state.specs.Moves.{Below};
ghost use Rattle.hall_moves.specs.Asks.{AskedAt};
ghost use Rattle.hall_moves.specs.Stays.{LineStays, RemovalStays};

use hall_lines::line_test::LineTest;
use hall_lines::{LineRows, Stop, first_stop, line_no, line_out, line_stays, line_stop};
use hall_state::{Branch, Ground, Question, Spot};
use hall_steps::openings_before;

// A line's part sums and term at a level.
pub fn own_sums(own: &LineRows, at: usize) -> u64
    requires { (at ≤ most_openings) × (sums_in own.now.n at + term_in own.now.n at < 2 ^ 64) }
    ensures { result ≡ sums_in own.now.n at + term_in own.now.n at }
{
    let l = own.n[at];
    l.sums + l.term
}

// The line at hand does not stop, or it does.
#[inline(always)]
pub fn line_below(ground: &Ground, rows: &mut [LineRows; 4], b: Branch) -> Option<Spot>
    requires { AskedAt Question.LineStop ground.now rows.old b.p }
    ensures below { (k : AskedAt Question.LineStop ground.now rows.old b.p) → Below k.hall b.yes ground.now rows.old rows.new b.p result k.name k.cs b.limit b.s }
    ensures stays { LineStays b.yes rows.old rows.new }
{
    let p = b.p;
    let d = p.line;
    let at = openings_before(&ground.ats.before, p.step, d);
    let test = LineTest {
        limit: b.limit,
        rest: p.total - own_sums(&rows[d], at),
        s: b.s,
    };
    if b.yes {
        let total = line_stop(&ground.lines[d], &mut rows[d], at, test)?;
        let stop = first_stop(&ground.lines[d], &rows[d], at);
        return Some(p.stopping(stop, total));
    }
    let total = line_no(&ground.lines[d], &mut rows[d], at, test)?;
    Some(p.lines_from(d + 1, total))
}

// The next holding part of the line at hand is not removed at this stop, or it is.
#[inline(always)]
pub fn removal_below(
    ground: &Ground,
    rows: &mut [LineRows; 4],
    stop: Stop,
    b: Branch,
) -> Option<Spot>
    requires { AskedAt (Question.PartRemoval stop) ground.now rows.old b.p }
    ensures below { (k : AskedAt (Question.PartRemoval stop) ground.now rows.old b.p) → Below k.hall b.yes ground.now rows.old rows.new b.p result k.name k.cs b.limit b.s }
    ensures stays { RemovalStays b.yes rows.old rows.new }
{
    let p = b.p;
    let d = p.line;
    let own = stop.sums + stop.term;
    let test = LineTest {
        limit: b.limit,
        rest: p.total - own,
        s: b.s,
    };
    if b.yes {
        let r = line_out(&ground.lines[d].u, stop, test)?;
        return Some(p.stopping(r.stop, r.total));
    }
    let at = openings_before(&ground.ats.before, p.step, d);
    let r = line_stays(&ground.lines[d], &mut rows[d], at, stop, test)?;
    Some(p.stopping(r.stop, r.total))
}
