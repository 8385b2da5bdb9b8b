// The judge's program: a job and a plan are read from files, the plan is weighed, and the answer printed.
#![tactic(auto)]

ghost use Rattle.std.specs.Prelude.{◌≡◌, Option};
ghost use Rattle.judge_program.specs.Printed.{Printed, Judged};

use answer_output::{Printout, print_answer};
use jobs::{Job, Plan};
use std::io::Read;
use std::rt::Files;
use std::str::from_utf8;
use std::{fs, io};
use whole_input::{Text, read_whole};

// What the judge's program has done: what it printed, and the errors of the reads that ended the job and the plan, if any failed.
#[derive(Drop)]
pub struct Done {
    pub printout: Printout,
    pub job_failed: Option<io::Error>,
    pub plan_failed: Option<io::Error>,
}

// Reads a job text from an input and a plan text from one that is opened when the job's has been read and is closed, and prints the judge's answer on standard output (`Printed`).
fn judge_in_turn<R: Print + Eprint + AllocGlobal, I: Read + Drop, F: FnOnce() -> Option<I>>(
    rt: &R,
    job_input: Option<I>,
    open_plan: F,
) -> Done
    requires { F.IsAlwaysCallable open_plan }
    ensures { (plan_input : Option I) × F.post open_plan plan_input × Printed I.remaining job_input plan_input result }
{
    // One byte more than a text may have, so that a longer one is told.
    let mut job = [0u8; Job::MAX_BYTES + 1];
    let job_read = read_whole(job_input, Text::Job, &mut job);
    let mut plan = [0u8; Plan::MAX_BYTES + 1];
    let plan_input = open_plan();
    let plan_read = read_whole(plan_input, Text::Plan, &mut plan);
    let mut out = [0u8; judging::ROOM];
    let a = judging::judge(&job[..job_read.count], &plan[..plan_read.count], &mut out);
    let printout = print_answer(rt, a, &out, b"judge: the answer can't be written");
    Done {
        printout,
        job_failed: job_read.failed,
        plan_failed: plan_read.failed,
    }
}

// Reads a job text and a plan text from two inputs, and prints the judge's answer on standard output (`Printed`). No input is what an open answers for a file that can't be opened.
pub fn judge_inputs<R: Print + Eprint + AllocGlobal, I: Read + Drop>(
    rt: &R,
    job_input: Option<I>,
    plan_input: Option<I>,
) -> Done
    ensures { Printed I.remaining job_input plan_input result }
{
    judge_in_turn(
        rt,
        job_input,
        ||
            ensures { result ≡ plan_input }
        { plan_input },
    )
}

// Opens a file by its name. A name that is no UTF-8 names no file that the standard library can open.
fn opened<F: Files>(files: &F, path: &[u8]) -> Option<F::File> {
    let name = from_utf8(path).ok()?;
    fs::open(files, name).ok()
}

// Reads a job text and a plan text from the files of these names, one after the other, and prints the judge's answer.
pub fn judge_files<R: Files + Print + Eprint + AllocGlobal>(
    rt: &R,
    job_path: &[u8],
    plan_path: &[u8],
) -> Done
    ensures { Judged result }
{
    judge_in_turn(rt, opened(rt, job_path), || opened(rt, plan_path))
}
