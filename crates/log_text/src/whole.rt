// The lines of a log, and the whole log.
ghost use Rattle.std.specs.Prelude.{◌≡◌, ◌≤◌};
ghost use Rattle.lines.specs.Reads.{Reads, seen};
ghost use Rattle.jobs.specs.Views.{job_of};
ghost use Rattle.log_grammar.specs.Grammar.{log_lines, read_log};
ghost use Rattle.log_text.specs.Views.{said, outcome};

use crate::past::{past_count, past_job};
use jobs::{Job, Plan};
use lines::fault::Fault;
use lines::rows::Lines;
use plan_text::whole::read_plan_lines;

// What a log says: its step, the cost that it states, and the plan over the openings that are past by the step.
#[derive(Clone, Copy)]
pub struct LogText {
    pub step: u32,
    pub cost: u32,
    pub plan: Plan,
}

// The lines of a log, wherever they begin.
pub fn read_log_lines(lines: &mut Lines, job: &Job) -> Result<LogText, Fault>
    requires { 2 ≤ job.now.horizon }
    ensures { Reads (log_lines (job_of job.now)) lines.old lines.new (seen (said job.now) result) }
{
    let last = job.horizon - 2;
    let step = lines.field(b"step=", 1, last)?;
    let past = past_job(job, past_count(job, step));
    let stated = read_plan_lines(lines, &past)?;
    Ok(LogText {
        step,
        cost: stated.cost,
        plan: stated.plan,
    })
}

// The whole log: a text over the limit is fault 1, bytes after the last line are fault 2. An empty text lacks its first line.
pub fn read_log(text: &[u8], job: &Job) -> Result<LogText, Fault>
    requires { 2 ≤ job.now.horizon }
    ensures { outcome job.now result ≡ read_log (job_of job.now) text.now }
{
    if Plan::MAX_BYTES < text.len() {
        return Err(Fault::TOO_LONG);
    }
    let mut lines = Lines::of(text);
    let said = read_log_lines(&mut lines, job)?;
    lines.end()?;
    Ok(said)
}
