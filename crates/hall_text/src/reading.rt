// The lines of a hall, and its whole text.
ghost use Rattle.std.specs.Prelude.{◌≡◌, ◌+◌, ◌-◌, ◌≤◌, ◌<◌, IfOk, length};
ghost use Rattle.lines.specs.Parser.{finish, whole};
ghost use Rattle.lines.specs.Reads.{Reads, seen, outcome};
ghost use Rattle.job_grammar.specs.Grammar.{job_lines};
ghost use Rattle.hall_model.specs.Limits.{most_lines, dearest_call};
ghost use Rattle.job_grammar.specs.Reading.{meant_job};
ghost use Rattle.hall_grammar.specs.Reading.{through, line_behind, lines_behind, no_lines, hall_rows, read_hall_lem};
ghost use Rattle.hall_jobs.specs.Hall.{line_of_lem};
ghost use Rattle.hall_jobs.specs.Views.{jobs_of, hall_of};
ghost use Rattle.hall_text.specs.SoFar.{hall_sofar};

use crate::sofar::SoFar;
use hall_jobs::HallJobs;
use job_text::whole::read_job_lines;
use jobs::Accepted;
use lines::fault::{Fault, FaultKind};
use lines::rows::Lines;

// R14, E14.10. The number of a job that doesn't join the hall's lines, said of the job's first line.
const UNLIKE: u32 = 14;

// Reads the lines of a job, for what they mean: its `walk` line is set aside.
fn read_line(lines: &mut Lines) -> Result<Accepted, Fault>
    ensures { Reads (through meant_job job_lines) lines.old lines.new (seen line_of_lem result) }
{
    let read = read_job_lines(lines)?;
    Ok(Accepted::of(read.job))
}

// Reads the first job of a hall, with the price of a call.
fn read_first(lines: &mut Lines, call: u32) -> Result<SoFar, Fault>
    requires { call ≤ dearest_call }
    ensures reads { Reads (line_behind (no_lines call)) lines.old lines.new (seen hall_sofar result) }
    ensures one { IfOk result (λ s. length (jobs_of s.hall) ≡ 1) }
{
    let job = read_line(lines)?;
    Ok(SoFar::first(&job, call))
}

// Reads a job behind the lines of a hall: after the job's own faults 14 on its first line, where it doesn't join them.
fn read_next(lines: &mut Lines, sofar: SoFar) -> Result<SoFar, Fault>
    requires { length (jobs_of sofar.hall) < most_lines }
    ensures reads { Reads (line_behind (hall_of sofar.hall)) lines.old lines.new (seen hall_sofar result) }
    ensures longer { IfOk result (λ s. length (jobs_of s.hall) ≡ length (jobs_of sofar.hall) + 1) }
{
    let broken = lines.fault(FaultKind::Other(UNLIKE));
    let next = read_line(lines)?;
    if sofar.admits(&next.job) {
        Ok(sofar.joined(&next))
    } else {
        Err(broken)
    }
}

// Reads the jobs behind the first one, of n in all.
fn read_more(lines: &mut Lines, first: SoFar, n: u32) -> Result<HallJobs, Fault>
    requires { (length (jobs_of first.hall) ≡ 1) × (1 ≤ n) × (n ≤ most_lines) }
    ensures { Reads (lines_behind (n - 1) (hall_of first.hall)) lines.old lines.new (seen hall_of result) }
{
    let mut sofar = first;
    for _ in 1..n {
        sofar = read_next(lines, sofar)?;
    }
    Ok(sofar.hall)
}

// Reads n jobs, each behind those before it.
fn read_lines(lines: &mut Lines, n: u32, call: u32) -> Result<HallJobs, Fault>
    requires { (1 ≤ n) × (n ≤ most_lines) × (call ≤ dearest_call) }
    ensures { Reads (lines_behind n (no_lines call)) lines.old lines.new (seen hall_of result) }
{
    let first = read_first(lines, call)?;
    read_more(lines, first, n)
}

// Reads the lines of a hall.
fn read_hall_lines(lines: &mut Lines) -> Result<HallJobs, Fault>
    ensures { Reads hall_rows lines.old lines.new (seen hall_of result) }
{
    let n = lines.field(b"machines=", HallJobs::MIN_LINES, HallJobs::MAX_LINES)?;
    let call = lines.field(b"call=", HallJobs::MIN_CALL, HallJobs::MAX_CALL)?;
    read_lines(lines, n, call)
}

// Reads the lines of a hall and nothing behind them, however long the text is.
fn read_all(text: &[u8]) -> Result<HallJobs, Fault>
    ensures { outcome (seen hall_of result) ≡ finish (whole hall_rows text.now 1) }
{
    let mut lines = Lines::of(text);
    let hall = read_hall_lines(&mut lines)?;
    lines.end()?;
    Ok(hall)
}

// Reads the whole hall text: a text over the limit is fault 1. A call of its own, so that what it needs of the stack is given back before a search.
#[inline(never)]
pub fn read_hall(text: &[u8]) -> Result<HallJobs, Fault>
    ensures { outcome (seen hall_of result) ≡ read_hall_lem text.now }
{
    if HallJobs::MAX_BYTES < text.len() {
        return Err(Fault::TOO_LONG);
    }
    read_all(text)
}
