// The lines of a plan, and the whole plan text.
ghost use Rattle.std.specs.Prelude.{◌≡◌};
ghost use Rattle.lines.specs.Reads.{Reads, seen};
ghost use Rattle.jobs.specs.Views.{job_of};
ghost use Rattle.plan_grammar.specs.Grammar.{plan_lines, read_plan_lem};
ghost use Rattle.plan_text.specs.Views.{said, outcome};

use jobs::{Job, Plan};
use lines::fault::Fault;
use lines::rows::Lines;
use plan_stops::stops::read_visits;

// What a plan text says: the cost that it states, and the plan.
#[derive(Clone, Copy)]
pub struct PlanText {
    pub cost: u32,
    pub plan: Plan,
}

// The lines of a plan, wherever they begin.
// Kept as `as`: std has no `From` of a u32 for usize.
pub fn read_plan_lines(lines: &mut Lines, job: &Job) -> Result<PlanText, Fault>
    ensures { Reads (plan_lines (job_of job.now)) lines.old lines.new (seen (said job.now) result) }
{
    let cost = lines.field(b"cost=", 0, Plan::MAX_COST)?;
    let n = lines.field(b"stops=", 0, Plan::MAX_STOPS)?;
    let plan = read_visits(lines, job, n as usize)?;
    Ok(PlanText { cost, plan })
}

// The whole plan text: an empty text is the plan of no stops and cost 0, a text over the limit is fault 1, bytes after the last line are fault 2.
// A call of its own, so that what it needs of the stack is given back.
// Kept apart from the last lines of `read_log`: one function over the two readers needs a closure with a contract, and is no plainer.
#[inline(never)]
pub fn read_plan(text: &[u8], job: &Job) -> Result<PlanText, Fault>
    ensures { outcome job.now result ≡ read_plan_lem (job_of job.now) text.now }
{
    if text.is_empty() {
        let cost = 0;
        let plan = Plan::empty();
        return Ok(PlanText { cost, plan });
    }
    if Plan::MAX_BYTES < text.len() {
        return Err(Fault::TOO_LONG);
    }
    let mut lines = Lines::of(text);
    let said = read_plan_lines(&mut lines, job)?;
    lines.end()?;
    Ok(said)
}
