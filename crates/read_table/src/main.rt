// Reads a table of job and plan texts and writes, for each pair, its first fault and the line at fault, or that there is none.
// A pair stands in the input as `job=N`, N bytes, `plan=N`, N bytes.
#![tactic(auto)]

ghost use Rattle.std.specs.Prelude.{◌≤◌, length};

use answers::{JOB, PLAN};
use fault_lines::fault::fault_line;
use job_text::whole::read_job;
use lines::fault::Fault;
use plan_text::whole::read_plan;
use std::io;
use std::io::Read;
use table_text::{MOST, each_row, piece_at};

// Writes bytes on standard output. What can't be written is passed over: the run's output then lacks it.
// Kept in each program that writes a table: a public function needs a contract on its outcome, and of bytes that can't be written none can be said.
fn write(rt: &impl Print, bytes: &[u8]) {
    let _ = rt.write_all(bytes);
}

// Writes a fault's lines, and the line at fault, of the text of this number.
// Kept as a number: the C interface hands out this number of the text.
fn report(rt: &impl Print, text: &[u8], which: u32, fault: Fault) {
    let line = fault.line;
    if 4294967295 < line {
        return;
    }
    let mut out = [0u8; 16384];
    let a = answers::refuse(text, which, fault, 16384, &mut out);
    let m = a.length;
    write(rt, &out[..m]);
    write(rt, fault_line(text, line));
    write(rt, b"\n");
}

// The first fault of a pair, the job text before the plan text.
fn judge_pair(rt: &impl Print, job: &[u8], plan: &[u8]) {
    match read_job(job) {
        Err(fault) => report(rt, job, JOB, fault),
        Ok(text) => match read_plan(plan, &text.job.job) {
            Err(fault) => report(rt, plan, PLAN, fault),
            Ok(_) => write(rt, b"accepted\n"),
        },
    }
}

// The pair at a place, and the place behind it.
// Kept as parameters: the printer and the table are lent to each row anew, and a struct of two would be made for one call.
fn pair_at(rt: &impl Print, buf: &[u8], at: usize) -> usize
    ensures { result ≤ length buf.now }
{
    let job = piece_at(buf, at, b"job=");
    let job_start = job.start;
    let job_end = job_start + job.length;
    let plan = piece_at(buf, job_end, b"plan=");
    let plan_start = plan.start;
    let plan_end = plan_start + plan.length;
    judge_pair(rt, &buf[job_start..job_end], &buf[plan_start..plan_end]);
    plan_end
}

// Reads the table and writes what is said of its pairs.
fn main(rt: HostRuntime) -> io::Result<()> {
    let mut input = Vec::new(rt.alloc());
    rt.reader().take(MOST).read_to_end(&mut input)?;
    let table = input.as_slice();
    each_row(table.len(), |at| pair_at(&rt, table, at));
    Ok(())
}
