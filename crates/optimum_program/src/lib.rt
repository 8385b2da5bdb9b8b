// The optimum's program: a job is read, planned by fair shares with the largest walk number, and the answer printed.
#![tactic(auto)]

ghost use Rattle.optimum_program.specs.Printed.{Printed};

use answer_output::print_answer;
use jobs::Job;
use std::io::Read;
use text_program::Done;
use whole_input::{Text, read_whole};

// Reads a job text from an input, and prints the optimum on standard output (`Printed`). No input is what an open answers for a file that can't be opened.
// Kept in each program: a shared body would take the call as a closure over a text and an output, and say of it what the call's own contract says.
pub fn optimum_input<R: Print + Eprint + AllocGlobal, I: Read + Drop>(
    rt: &R,
    input: Option<I>,
) -> Done
    ensures { Printed I.remaining input result }
{
    // One byte more than a job text may have, so that a longer one is told.
    let mut job = [0u8; Job::MAX_BYTES + 1];
    let read = read_whole(input, Text::Job, &mut job);
    let mut out = [0u8; planning::ROOM];
    let a = optimizing::optimum(&job[..read.count], u64::from(Job::MAX_WALK), &mut out);
    let printout = print_answer(rt, a, &out, b"optimum: the answer can't be written");
    Done {
        printout,
        failed: read.failed,
    }
}
