// The hall planner's program: a hall is read, planned with the largest walk number, and the answer printed.
#![tactic(auto)]

ghost use Rattle.hall_program.specs.Printed.{Printed};

use answer_output::print_answer;
use hall_jobs::HallJobs;
use jobs::Job;
use std::io::Read;
use text_program::Done;
use whole_input::{Text, read_whole};

// Reads a hall text from an input, and prints the hall planner's answer on standard output (`Printed`). No input is what an open answers for a file that can't be opened.
pub fn hall_input<R: Print + Eprint + AllocGlobal, I: Read + Drop>(rt: &R, input: Option<I>) -> Done
    ensures { Printed I.remaining input result }
{
    // One byte more than a hall text may have, so that a longer one is told.
    let mut text = [0u8; HallJobs::MAX_BYTES + 1];
    let read = read_whole(input, Text::Hall, &mut text);
    let mut out = [0u8; planning::ROOM];
    let a = hall_planning::hall(&text[..read.count], u64::from(Job::MAX_WALK), &mut out);
    let printout = print_answer(rt, a, &out, b"hall: the answer can't be written");
    Done {
        printout,
        failed: read.failed,
    }
}
