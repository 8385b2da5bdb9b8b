// The latest-time habit: changes each part at the last of given stops that still serves.
// Kept as an output, a text and a plan in the functions that put lines: the first is written and the others are read, and a struct of the two would be made for one call.
#![tactic(auto)]

ghost use Rattle.std.specs.Prelude.{◌≡◌, Bool, List, length};
ghost use Rattle.line_writing.specs.Puts.{Puts, Room};
ghost use Rattle.model.specs.Model as model;
ghost use Rattle.jobs.specs.Views.{job_of, plan_for};
ghost use Rattle.job_text.specs.Views.{given_in};
ghost use Rattle.plan_grammar.specs.Grammar.{read_plan_lem};
ghost use Rattle.answers.specs.Said.{lent, Replied};
ghost use Rattle.latest.specs.Latest.{latest_number, latest_plan_of, latest_answer_of};
ghost use Rattle.serving.specs.Serve.{latest_lines, latest_reply, on_plan, latest_said, latest_room};
ghost use Rattle.serving.specs.Serving.{served_answer, PrintableServed};
ghost use Rattle.serving.specs.Promise.{ServePromise};

use answers::{Answer, JOB, PLAN, refuse, reply};
use job_text::accepted::AcceptedText;
use job_text::whole::read_job;
use jobs::{Accepted, Plan};
use latest_changes::latest_plan;
use line_writing::output::Out;
use plan_costs::costs::cost_of;
use plan_lives::lives::verdict_of;
use plan_printing::put_printed;
use plan_text::whole::read_plan;

// The room that the call's output must have.
pub const ROOM: usize = 16384;

// What the plan with the latest changes says of its stops: they serve if it keeps every part, and then its cost is there.
fn serving_of(job: &Accepted, plan: &Plan) -> Option<u64>
    ensures { (stops : List Bool) → plan_for job.now.job plan.now ≡ latest_plan_of (job_of job.now.job) stops → served_answer (plan_for job.now.job plan.now) result ≡ latest_answer_of (job_of job.now.job) stops }
{
    verdict_of(job, plan).ok()?;
    Some(cost_of(job, plan))
}

// The result number: 0 where the stops serve, else 6.
fn number_of(s: Option<u64>) -> u32
    ensures { (plan : model.Plan) → result ≡ latest_number (served_answer plan s) }
{
    match s {
        Some(_) => 0,
        None => 6,
    }
}

// Puts the lines of what is found and of its plan.
fn put_serving(out: &mut Out, s: Option<u64>, text: &AcceptedText, plan: &Plan)
    requires { PrintableServed s × Room out.old (latest_lines (given_in text.now) (served_answer (plan_for text.now.job.job plan.now) s)) }
    ensures { Puts out.old (latest_lines (given_in text.now) (served_answer (plan_for text.now.job.job plan.now) s)) out.new }
{
    let number = u64::from(number_of(s));
    match s {
        Some(cost) => {
            out.put_line(b"result=", number);
            put_printed(out, text, cost, plan);
        }
        None => out.put_line(b"result=", number),
    }
}

// Answers the call by what is found, with its plan.
fn answer(s: Option<u64>, text: &AcceptedText, plan: &Plan, out: &mut [u8]) -> Answer
    requires { PrintableServed s }
    ensures { Replied latest_room (latest_reply (given_in text.now) (served_answer (plan_for text.now.job.job plan.now) s)) out.old out.new result }
{
    reply(
        number_of(s),
        ROOM,
        out,
        |lines| put_serving(lines, s, text, plan),
    )
}

// Answers the call for an accepted job text and a plan that is stated: only its stops count.
fn serve(text: &AcceptedText, stated: &Plan, out: &mut [u8]) -> Answer
    ensures { Replied latest_room (latest_reply (given_in text.now) (latest_answer_of (job_of text.now.job.job) (plan_for text.now.job.job stated.now).stops)) out.old out.new result }
{
    let plan = latest_plan(&text.job, stated.stops);
    answer(serving_of(&text.job, &plan), text, &plan, out)
}

// Answers the call for an accepted job text: by what the plan text reads as against it.
fn serve_plan(text: &AcceptedText, plan: &[u8], out: &mut [u8]) -> Answer
    ensures { Replied latest_room (on_plan plan.now (given_in text.now) (read_plan_lem (job_of text.now.job.job) plan.now)) out.old out.new result }
{
    match read_plan(plan, &text.job.job) {
        Ok(stated) => serve(text, &stated.plan, out),
        Err(fault) => refuse(plan, PLAN, fault, ROOM, out),
    }
}

// Changes each part at the last stop of a plan text that still serves: every number that is handed over and every byte of the output are the defined ones
// (`Replied`). The answer is 6 exactly if no changes at these stops keep every part; with 0 the plan printed has these stops, keeps every life, states
// its true cost, and each of its changes was forced by the next stop, or the end of the lives, being too late (`ServePromise`).
pub fn latest(job: &[u8], plan: &[u8], out: &mut [u8]) -> Answer
    ensures replied { Replied latest_room (latest_said job.now plan.now) out.old out.new result }
    ensures serve_promise { ServePromise job.now plan.now (length out.old)
        (lent latest_room (length out.old) (latest_said job.now plan.now)) }
{
    // Kept in each call: the arm for a fault is one call of `refuse`, and one function for all calls would take the rest of each as a closure over the text and the output.
    match read_job(job) {
        Ok(text) => serve_plan(&text, plan, out),
        Err(fault) => refuse(job, JOB, fault, ROOM, out),
    }
}
