// Carrying on from the work log: replays what was done, and writes the job that is left.
#![tactic(auto)]

ghost use Rattle.std.specs.Prelude.{◌≡◌, ◌≤◌, List, ℕ, length};
ghost use Rattle.lines.specs.Parser.{accepted};
ghost use Rattle.jobs.specs.Views.{job_of};
ghost use Rattle.job_grammar.specs.Grammar.{read_job_text};
ghost use Rattle.job_grammar.specs.Rendering.{job_text_lem};
ghost use Rattle.job_text.specs.Views.{text_in};
ghost use Rattle.answers.specs.Said.{plainly, lent, Replied};
ghost use Rattle.carry.specs.Carry.{passed};
ghost use Rattle.log_grammar.specs.Grammar.{past_job_lem, read_log};
ghost use Rattle.log_text.specs.Views.{said};
ghost use Rattle.carried_writing.specs.Left.{text_left};
ghost use Rattle.carrying.specs.Carry.{carried_on_lem, on_log, carry_said, carry_room};
ghost use Rattle.carrying.specs.Promise.{CarryPromise};
ghost use Rattle.carrying.specs.Texts.{BothRead};

use answers::{Answer, JOB, PLAN, refuse, reply};
use carried_writing::put_carried;
use job_text::accepted::AcceptedText;
use job_text::whole::read_job;
use jobs::{Accepted, Job};
use judging::answer_judgement;
use log_lives::{judgement_to, lefts_at};
use log_text::past::{past_count, past_job};
use log_text::whole::{LogText, read_log};
use model::PARTS;
use verdict::Judgement;

// The room that the call's output must have: as much as a text may have bytes.
pub const ROOM: usize = Job::MAX_BYTES;

// The number by which an answer names the log, which stands where a plan text would.
const LOG: u32 = PLAN;

// The job with its openings up to the step alone.
fn job_to(job: &Accepted, step: u32) -> Accepted
    ensures job { job_of result.job ≡ past_job_lem (job_of job.now.job) step }
    ensures openings { result.job.opening_count ≡ passed (job_of job.now.job) step }
    ensures parts { result.job.part_count ≡ job.now.job.part_count }
{
    let past = past_job(&job.job, past_count(&job.job, step));
    Accepted::of(past)
}

// Answers the call with the text of the job that is left behind a step.
fn write(text: &AcceptedText, step: u32, lefts: &[u32; PARTS], out: &mut [u8]) -> Answer
    requires step_low { step ≤ text.now.job.job.horizon }
    requires short { length (job_text_lem (text_left (text_in text.now) step lefts.now)) ≤ carry_room }
    ensures { Replied carry_room (plainly 0 (job_text_lem (text_left (text_in text.now) step lefts.now))) out.old out.new result }
{
    reply(0, ROOM, out, |lines| put_carried(lines, text, step, lefts))
}

// Answers the call for an accepted job text and a log that is stated: 10 or 11 as the judge says them, else with the new job's text.
// Kept with what is known of both as a condition, here and below: it is about both structs together, and says of what text they are read, which neither holds.
fn carry_on(text: &AcceptedText, done: &LogText, out: &mut [u8]) -> Answer
    requires { BothRead text.now done.now }
    ensures { Replied carry_room (carried_on_lem (text_in text.now) (said text.now.job.job done.now)) out.old out.new result }
{
    let past = job_to(&text.job, done.step);
    let judged = judgement_to(&past, done.step, done.cost, &done.plan);
    match judged {
        Judgement::Accepts(_) => {
            let lefts = lefts_at(&past, done.step, &done.plan);
            write(text, done.step, &lefts, out)
        }
        Judgement::Unkept { .. } | Judgement::WrongCost(_) => answer_judgement(judged, ROOM, out),
    }
}

// Answers the call for an accepted job text: by what the log reads as against it.
fn carry_log(text: &AcceptedText, log: &[u8], out: &mut [u8]) -> Answer
    requires { (job : List ℕ) × (read_job_text job ≡ accepted (text_in text.now)) }
    ensures { Replied carry_room (on_log log.now (text_in text.now) (read_log (job_of text.now.job.job) log.now)) out.old out.new result }
{
    match read_log(log, &text.job.job) {
        Ok(done) => carry_on(text, &done, out),
        Err(fault) => refuse(log, LOG, fault, ROOM, out),
    }
}

// Carries on from a job text by a log of what was done: every number that is handed over and every byte of the output are the defined ones (`Replied`).
// The answer is 0 exactly if both texts are accepted, no part had used more than its life and the log's cost is true; the text that is then written reads
// back as the job that is left, and plans that begin with the log are worth what their rest is worth of it (`CarryPromise`).
pub fn carry(job: &[u8], log: &[u8], out: &mut [u8]) -> Answer
    ensures replied { Replied carry_room (carry_said job.now log.now) out.old out.new result }
    ensures carry_promise { CarryPromise job.now log.now (length out.old)
        (lent carry_room (length out.old) (carry_said job.now log.now)) }
{
    // Kept in each call: the arm for a fault is one call of `refuse`, and one function for all calls would take the rest of each as a closure over the text and the output.
    match read_job(job) {
        Ok(text) => carry_log(&text, log, out),
        Err(fault) => refuse(job, JOB, fault, ROOM, out),
    }
}
