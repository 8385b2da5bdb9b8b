// The stops of a plan text.
ghost use Rattle.std.specs.Prelude.{◌≡◌, take};
ghost use Rattle.lines.specs.Parser.{checked, row};
ghost use Rattle.lines.specs.Reads.{Reads};
ghost use Rattle.jobs.specs.Views.{job_of};
ghost use Rattle.plan_grammar.specs.Grammar.{may_stop, parts, visit, visits};
ghost use Rattle.plan_stops.specs.Marks.{with_step, PartsRead, StopRead, StopsRead};
ghost use Rattle.model.specs.Limits.{last_step};

use jobs::{Changes, Job, Opening, Plan};
use lines::fault::{Fault, FaultKind};
use lines::rows::Lines;
use model::{OPENINGS, PARTS};

// A stop's step, which is after the step before and an opening: else fault 9.
fn read_step(lines: &mut Lines, job: &Job, before: u32) -> Result<u32, Fault>
    ensures { Reads (checked 9 (may_stop (job_of job.now) before) (row "stop=" 1 last_step)) lines.old lines.new result }
{
    lines.checked(
        b"stop=",
        Opening::MIN_STEP,
        Opening::MAX_STEP,
        FaultKind::Visit,
        |step| before < step && job.opens(step),
    )
}

// The openings set before, and those at the step.
// Kept as a loop over numbers: three arrays meet at one place, and zipped they are no plainer.
fn mark(set: [bool; OPENINGS], job: &Job, step: u32) -> [bool; OPENINGS]
    ensures { take job.now.opening_count result ≡ with_step (job_of job.now) step (take job.now.opening_count set) }
{
    let mut marks = [false; OPENINGS];
    for i in 0..job.opening_count {
        marks[i] = set[i] || step == job.openings[i].step;
    }
    marks
}

// The lines of a stop's parts, n of them: each is marked at the stop's step.
// Kept as `as`, here and in `read_visit`: proved to lose nothing, and std has no `From` between u32 and usize.
fn read_changes(
    lines: &mut Lines,
    job: &Job,
    n: usize,
    step: u32,
    changes: [Changes; PARTS],
) -> Result<[Changes; PARTS], Fault>
    ensures { PartsRead job.now lines.old lines.new n step changes result }
{
    let mut marks = changes;
    let mut before = 0;
    for _ in 0..n {
        let part = lines.rising(
            b"part=",
            Plan::MAX_PART,
            before,
            job.part_count as u32,
            FaultKind::Visit,
        )?;
        let k = (part - 1) as usize;
        marks[k] = Changes {
            at: mark(marks[k].at, job, step),
        };
        before = part;
    }
    Ok(marks)
}

// A stop and its parts, marked in the plan so far: the stop's step and the plan then.
// Kept by value: the plan is handed back with one stop more.
fn read_visit(lines: &mut Lines, job: &Job, before: u32, plan: Plan) -> Result<(u32, Plan), Fault>
    ensures { StopRead job.now lines.old lines.new before plan result }
{
    let step = read_step(lines, job, before)?;
    let n = lines.field(b"count=", 0, Plan::MAX_COUNT)?;
    let changes = read_changes(lines, job, n as usize, step, plan.changes)?;
    let stops = mark(plan.stops, job, step);
    Ok((step, Plan { stops, changes }))
}

// The stops, n of them: the plan that they make.
pub fn read_visits(lines: &mut Lines, job: &Job, n: usize) -> Result<Plan, Fault>
    ensures { StopsRead job.now lines.old lines.new n result }
{
    let mut plan = Plan::empty();
    let mut before = 0;
    for _ in 0..n {
        let (step, next) = read_visit(lines, job, before, plan)?;
        before = step;
        plan = next;
    }
    Ok(plan)
}
