// The lines of a plan, put into a lent slice.
// Kept as an output, a job and a plan in the functions that put lines: the first is written and the others are read, and a struct of the two would be made for one call.
// Kept with the limit of m in the clause where the plan alone is asked: the count is the job's.
#![tactic(auto)]

ghost use Rattle.std.specs.Prelude.{◌≡◌, ◌≤◌, ◌<◌, length};
ghost use Rattle.lines.specs.Text.{line_of, texts};
ghost use Rattle.line_writing.specs.Puts.{Puts, Room};
ghost use Rattle.jobs.specs.Views.{job_of, plan_for};
ghost use Rattle.plan_text.specs.Views.{numbers_at};
ghost use Rattle.plan_grammar.specs.Rendering.{visit_at, visit_text, visits_of, plan_lines_of};
ghost use Rattle.model.specs.Limits.{most_openings, most_parts};

use jobs::{Job, Plan};
use line_writing::output::Out;

// How many of the first m parts are changed at opening i.
fn count_parts(plan: &Plan, m: usize, i: usize) -> u64
    requires { (m ≤ most_parts) × (i < most_openings) }
    ensures { result ≡ length (numbers_at plan.now m i) }
{
    let mut n: u64 = 0;
    for part in &plan.changes[..m] {
        n += u64::from(part.at[i]);
    }
    n
}

// Puts the lines of those of the first m parts that are changed at opening i.
// Kept as `as`: the number is below 17, and std has no `From` of a usize for u64.
fn put_parts(out: &mut Out, plan: &Plan, m: usize, i: usize)
    requires m_le_most_parts { (m ≤ most_parts) × (i < most_openings) }
    requires i_in_bounds { Room out.old (texts (line_of "part=") (numbers_at plan.now m i)) }
    ensures { Puts out.old (texts (line_of "part=") (numbers_at plan.now m i)) out.new }
{
    for (k, part) in plan.changes[..m].iter().enumerate() {
        if part.at[i] {
            out.put_line(b"part=", (k + 1) as u64);
        }
    }
}

// Puts the lines of a stop at opening i.
fn put_visit(out: &mut Out, job: &Job, plan: &Plan, i: usize)
    requires sized { i < job.now.opening_count }
    requires i_in_bounds { Room out.old (visit_text (visit_at (job_of job.now) (plan_for job.now plan.now) i)) }
    ensures { Puts out.old (visit_text (visit_at (job_of job.now) (plan_for job.now plan.now) i)) out.new }
{
    out.put_line(b"stop=", u64::from(job.openings[i].step));
    let m = job.part_count;
    out.put_line(b"count=", count_parts(plan, m, i));
    put_parts(out, plan, m, i);
}

// How many stops a plan has.
fn count_stops(job: &Job, plan: &Plan) -> u64
    ensures { result ≡ length (visits_of (job_of job.now) (plan_for job.now plan.now)) }
{
    let mut count: u64 = 0;
    for stop in &plan.stops[..job.opening_count] {
        count += u64::from(*stop);
    }
    count
}

// Puts the lines of the stops.
fn put_stops(out: &mut Out, job: &Job, plan: &Plan)
    requires { Room out.old (texts visit_text (visits_of (job_of job.now) (plan_for job.now plan.now))) }
    ensures { Puts out.old (texts visit_text (visits_of (job_of job.now) (plan_for job.now plan.now))) out.new }
{
    for (i, stop) in plan.stops[..job.opening_count].iter().enumerate() {
        if *stop {
            put_visit(out, job, plan, i);
        }
    }
}

// Puts the lines of a plan with its cost.
pub fn put_plan(out: &mut Out, job: &Job, cost: u64, plan: &Plan)
    requires cost_printable { cost < 10000000000 }
    requires plan_in_bounds { Room out.old (plan_lines_of (job_of job.now) cost (plan_for job.now plan.now)) }
    ensures { Puts out.old (plan_lines_of (job_of job.now) cost (plan_for job.now plan.now)) out.new }
{
    out.put_line(b"cost=", cost);
    out.put_line(b"stops=", count_stops(job, plan));
    put_stops(out, job, plan);
}
