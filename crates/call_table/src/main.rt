// Runs the planner, the judge, the call that carries on and the hall planner on a table of texts and writes, for each case, what the call hands over: the bytes written, its numbers,
// the line at fault, and whether the bytes past the written length kept their values.
// A case stands in the input as `call=N` with the call's number and `room=N`; behind them the planner's (1) has `walk=N`, `job=N` and N bytes,
// the judge's (2) `job=N`, N bytes, `plan=N`, N bytes, those of carrying on (3) the same with the log in the plan's place, and the hall planner's (4) the planner's with the hall's text in the job's place. Other bytes stand behind the last case.
#![tactic(auto)]

ghost use Rattle.std.specs.Prelude.{◌≤◌, length};

use answers::{Answer, PLAN};
use fault_lines::fault::fault_line;
use std::io;
use std::io::Read;
use table_text::{MOST, each_row, head_at, piece_at};

// What an output is filled with before a call.
const FILL: u8 = 170;

// Writes bytes on standard output. What can't be written is passed over: the run's output then lacks it.
// Kept in each program that writes a table: a public function needs a contract on its outcome, and of bytes that can't be written none can be said.
fn write(rt: &impl Print, bytes: &[u8]) {
    let _ = rt.write_all(bytes);
}

// Writes a number on a line of its own.
fn write_number(rt: &impl Print, key: &[u8], n: u64) {
    write(rt, key);
    let _ = rt.print(n);
    write(rt, b"\n");
}

// Whether every byte from a place on is the fill.
fn kept(out: &[u8], from: usize) -> bool {
    out.iter().skip(from).all(|b| *b == FILL)
}

// Writes the line at fault of a text.
fn write_fault(rt: &impl Print, text: &[u8], line: u32) {
    // Kept as a cast: std has no `From<u32>` for a usize, and a `try_from` would have an arm that nothing reaches.
    write(rt, fault_line(text, line as usize));
    write(rt, b"\n");
}

// Writes what a call handed over.
fn report(rt: &impl Print, a: Answer, out: &[u8], job: &[u8], plan: &[u8]) {
    let m = a.length;
    if m <= out.len() {
        write(rt, &out[0..m]);
    }
    write_number(rt, b"= result ", u64::from(a.result));
    write_number(rt, b"= line ", u64::from(a.line));
    // Kept as a cast: std has no `From<usize>` for a u64, and a `try_from` would have an arm that nothing reaches.
    write_number(rt, b"= length ", m as u64);
    if a.text == PLAN {
        write_fault(rt, plan, a.line);
    } else {
        write_fault(rt, job, a.line);
    }
    if kept(out, m) {
        write(rt, b"kept\n");
    } else {
        write(rt, b"changed\n");
    }
}

// One case: an output is filled, a call writes into it, and what it handed over is written.
fn run<F: FnOnce(&mut [u8]) -> Answer>(
    rt: &impl Print,
    job: &[u8],
    plan: &[u8],
    out: &mut [u8],
    call: F,
)
    requires { F.IsAlwaysCallable call }
{
    out.fill(FILL);
    let a = call(out);
    report(rt, a, out, job, plan);
}

// The case of a call on one text and a walk number whose room is told at a place, and the place behind it.
// Kept as a row of parameters: the printer and the table are read and the space is written, so a struct of them would be taken apart in each call.
fn walked_at<F: FnOnce(&[u8], u64, &mut [u8]) -> Answer>(
    rt: &impl Print,
    buf: &[u8],
    at: usize,
    space: &mut [u8],
    call: F,
) -> usize
    requires { F.IsAlwaysCallable call }
    ensures { result ≤ length buf.now }
{
    let room = head_at(buf, at, b"room=");
    let walk = head_at(buf, room.behind, b"walk=");
    let job = piece_at(buf, walk.behind, b"job=");
    let start = job.start;
    let end = start + job.length;
    let lent = room.number;
    if space.len() < lent {
        return buf.len();
    }
    let text = &buf[start..end];
    run(rt, text, b"", &mut space[0..lent], |out: &mut [u8]| {
        // Kept as a cast: std has no `From<usize>` for a u64, and a `try_from` would have an arm that nothing reaches.
        call(text, walk.number as u64, out)
    });
    end
}

// The case of a call on a job text and a second text whose room is told at a place, and the place behind it.
// Kept as a row of parameters, as above.
fn second_at<F: FnOnce(&[u8], &[u8], &mut [u8]) -> Answer>(
    rt: &impl Print,
    buf: &[u8],
    at: usize,
    space: &mut [u8],
    call: F,
) -> usize
    requires { F.IsAlwaysCallable call }
    ensures { result ≤ length buf.now }
{
    let room = head_at(buf, at, b"room=");
    let job = piece_at(buf, room.behind, b"job=");
    let start = job.start;
    let end = start + job.length;
    let plan = piece_at(buf, end, b"plan=");
    let plan_start = plan.start;
    let plan_end = plan_start + plan.length;
    let lent = room.number;
    if space.len() < lent {
        return buf.len();
    }
    let text = &buf[start..end];
    let second = &buf[plan_start..plan_end];
    run(rt, text, second, &mut space[0..lent], |out: &mut [u8]| {
        call(text, second, out)
    });
    plan_end
}

// The case at a place, by its call's number, and the place behind it; where no call is told, the table's end.
fn case_at(rt: &impl Print, buf: &[u8], at: usize, space: &mut [u8]) -> usize
    ensures { result ≤ length buf.now }
{
    let call = head_at(buf, at, b"call=");
    // Kept as numbers: the table's text tells the call so.
    match call.number {
        1 => walked_at(rt, buf, call.behind, space, planning::plan),
        2 => second_at(rt, buf, call.behind, space, judging::judge),
        3 => second_at(rt, buf, call.behind, space, carrying::carry),
        4 => walked_at(rt, buf, call.behind, space, hall_planning::hall),
        _ => buf.len(),
    }
}

// Reads the table and runs its cases.
fn main(rt: HostRuntime) -> io::Result<()> {
    let mut input = Vec::new(rt.alloc());
    rt.reader().take(MOST).read_to_end(&mut input)?;
    let mut space = [0u8; 40976];
    let table = input.as_slice();
    each_row(table.len(), |at| case_at(&rt, table, at, &mut space));
    Ok(())
}
