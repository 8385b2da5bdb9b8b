// The judge: weighs a plan text against a job text.
#![tactic(auto)]

ghost use Rattle.std.specs.Prelude.{◌≡◌, ◌≤◌, length};
ghost use Rattle.line_writing.specs.Puts.{Puts, Room};
ghost use Rattle.model.specs.Verdict.{number_of};
ghost use Rattle.jobs.specs.Views.{job_of};
ghost use Rattle.plan_grammar.specs.Grammar.{read_plan_lem};
ghost use Rattle.verdict.specs.Views.{model_judgement};
ghost use Rattle.verdict.specs.Ranges.{RangedJudgement};
ghost use Rattle.answers.specs.Said.{longest_refusal, lent, Replied};
ghost use Rattle.judging.specs.Judge.{judge_lines, judge_reply, on_plan, judge_said, judge_room};
ghost use Rattle.judging.specs.Promise.{JudgePromise};

use answers::{Answer, JOB, PLAN, put_three, put_two, refuse, reply};
use job_text::whole::read_job;
use jobs::Accepted;
use line_writing::output::Out;
use plan_text::whole::read_plan;
use verdict::{Judgement, judgement_of};

// The room that the judge's output must have.
pub const ROOM: usize = 16384;

// The result number of a judgement.
fn number_of(j: Judgement) -> u32
    ensures { result ≡ number_of (model_judgement j) }
{
    match j {
        Judgement::Accepts(_) => 0,
        Judgement::Unkept { .. } => 10,
        Judgement::WrongCost(_) => 11,
    }
}

// Puts the lines of a judgement.
fn put_judgement(out: &mut Out, j: Judgement)
    requires { RangedJudgement (model_judgement j) × Room out.old (judge_lines (model_judgement j)) }
    ensures { Puts out.old (judge_lines (model_judgement j)) out.new }
{
    let number = number_of(j);
    match j {
        Judgement::Accepts(cost) => put_two(out, number, b"cost=", cost),
        Judgement::Unkept { part, due } => {
            let part = u64::from(part);
            let due = u64::from(due);
            put_three(out, number, b"part=", part, b"due=", due)
        }
        Judgement::WrongCost(cost) => put_two(out, number, b"cost=", cost),
    }
}

// Answers a call that needs so much room by a judgement.
pub fn answer_judgement(j: Judgement, need: usize, out: &mut [u8]) -> Answer
    requires { RangedJudgement (model_judgement j) × (longest_refusal ≤ need) }
    ensures { Replied need (judge_reply (model_judgement j)) out.old out.new result }
{
    reply(number_of(j), need, out, |lines| put_judgement(lines, j))
}

// Answers the judge's call for an accepted job: by what the plan text reads as against it.
fn judge_plan(job: &Accepted, plan: &[u8], out: &mut [u8]) -> Answer
    ensures { Replied judge_room (on_plan plan.now (job_of job.now.job) (read_plan_lem (job_of job.now.job) plan.now)) out.old out.new result }
{
    match read_plan(plan, &job.job) {
        Ok(stated) => answer_judgement(judgement_of(job, stated.cost, &stated.plan), ROOM, out),
        Err(fault) => refuse(plan, PLAN, fault, ROOM, out),
    }
}

// Weighs a plan text against a job text: every number that is handed over and every byte of the output are the defined ones (`Replied`),
// and the answer is 0 exactly if the job is accepted, the plan text has no fault, and the plan keeps every life and states its true cost (`JudgePromise`).
// Kept as two texts and an output, here and in `serving`: the C interface hands them over so.
pub fn judge(job: &[u8], plan: &[u8], out: &mut [u8]) -> Answer
    ensures replied { Replied judge_room (judge_said job.now plan.now) out.old out.new result }
    ensures judge_promise { JudgePromise job.now plan.now (length out.old)
        (lent judge_room (length out.old) (judge_said job.now plan.now)) }
{
    // Kept in each call: the arm for a fault is one call of `refuse`, and one function for all calls would take the rest of each as a closure over the text and the output.
    match read_job(job) {
        Ok(text) => judge_plan(&text.job, plan, out),
        Err(fault) => refuse(job, JOB, fault, ROOM, out),
    }
}
