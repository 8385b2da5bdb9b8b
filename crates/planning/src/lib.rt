// The planner: the cheapest plan of a job text that keeps every part's life.
// Kept as an output, a text and a plan in the functions that put lines: the first is written and the others are read, and a struct of the two would be made for one call.
#![tactic(auto)]

ghost use Rattle.std.specs.Prelude.{◌≡◌, ◌≤◌, length};
ghost use Rattle.line_writing.specs.Puts.{Puts, Room};
ghost use Rattle.model.specs.Limits.{most_walk};
ghost use Rattle.model.specs.Promise.{answer_of};
ghost use Rattle.jobs.specs.Views.{job_of, plan_for};
ghost use Rattle.job_text.specs.Views.{given_in};
ghost use Rattle.answers.specs.Said.{Printable, lent, Replied};
ghost use Rattle.findings.specs.Finding.{found_answer, PrintableAnswer};
ghost use Rattle.planning.specs.Plan.{planned_lines, planner_lines, planner_reply, walk_number_lem, plan_said, plan_room};
ghost use Rattle.planning.specs.Promise.{PlanPromise};

use answers::{Answer, JOB, put_three, refuse, reply};
use findings::{Finding, finding_of, number_of};
use job_search::search_job;
use job_text::accepted::AcceptedText;
use job_text::whole::read_job;
use jobs::{Job, Plan};
use line_writing::output::Out;
use plan_printing::put_printed;

// The room that the planner's output must have.
pub const ROOM: usize = 16384;

// Puts the lines of a search and of its plan.
fn put_planned(
    out: &mut Out,
    number: u32,
    nodes: u64,
    floor: u64,
    text: &AcceptedText,
    cost: u64,
    plan: &Plan,
)
    requires printable { Printable nodes × Printable floor × Printable cost }
    requires plan_in_bounds { Room out.old (planned_lines number nodes floor (given_in text.now) cost (plan_for text.now.job.job plan.now)) }
    ensures { Puts out.old (planned_lines number nodes floor (given_in text.now) cost (plan_for text.now.job.job plan.now)) out.new }
{
    put_three(out, number, b"nodes=", nodes, b"floor=", floor);
    put_printed(out, text, cost, plan);
}

// Puts the lines of a finding and of its plan.
fn put_finding(out: &mut Out, f: Finding, text: &AcceptedText, plan: &Plan)
    requires { PrintableAnswer (found_answer (plan_for text.now.job.job plan.now) f) × Room out.old (planner_lines (given_in text.now) (found_answer (plan_for text.now.job.job plan.now) f)) }
    ensures { Puts out.old (planner_lines (given_in text.now) (found_answer (plan_for text.now.job.job plan.now) f)) out.new }
{
    let number = number_of(f);
    match f {
        Finding::NoPlan => out.put_line(b"result=", u64::from(number)),
        Finding::Optimum { nodes, floor, cost } => {
            put_planned(out, number, nodes, floor, text, cost, plan)
        }
        Finding::Cut { nodes, floor, cost } => {
            put_planned(out, number, nodes, floor, text, cost, plan)
        }
        Finding::CutBare { nodes, floor } => {
            put_three(out, number, b"nodes=", nodes, b"floor=", floor)
        }
    }
}

// Answers the planner's call by a finding, with its plan.
fn answer(f: Finding, text: &AcceptedText, plan: &Plan, out: &mut [u8]) -> Answer
    requires { PrintableAnswer (found_answer (plan_for text.now.job.job plan.now) f) }
    ensures { Replied plan_room (planner_reply (given_in text.now) (found_answer (plan_for text.now.job.job plan.now) f)) out.old out.new result }
{
    reply(
        number_of(f),
        ROOM,
        out,
        |lines| put_finding(lines, f, text, plan),
    )
}

// The walk number of a call: above the limit it counts as the limit.
// Kept as `as`: the lesser of the two is at most the limit. With `u32::try_from` first, a number would have to stand for what is too large, which is no plainer.
pub fn walk_number(walk: u64) -> u32
    ensures { result ≡ walk_number_lem walk }
{
    walk.min(u64::from(Job::MAX_WALK)) as u32
}

// Answers the planner's call for an accepted job text: by the search of its job.
fn plan_job(text: &AcceptedText, walk: u32, out: &mut [u8]) -> Answer
    requires { walk ≤ most_walk }
    ensures { Replied plan_room (planner_reply (given_in text.now) (answer_of (job_of text.now.job.job) walk)) out.old out.new result }
{
    let found = search_job(&text.job, walk);
    let finding = finding_of(found.count, found.floor, found.cost, found.over);
    answer(finding, text, &found.plan, out)
}

// The plan of a job text, walked up to the walk number of the call: every number that is handed over and every byte of the output are the defined ones (`Replied`). The answer is 6 exactly if
// the job is accepted and has no plan, 7 exactly if it has one and its whole walk has more nodes than the walk number; with 0 the plan printed keeps
// every life, states its true cost, costs no more than any plan of the model that keeps every life, and is the tie rule's choice (`PlanPromise`).
pub fn plan(job: &[u8], walk: u64, out: &mut [u8]) -> Answer
    ensures replied { Replied plan_room (plan_said job.now walk) out.old out.new result }
    ensures plan_promise { PlanPromise job.now walk (length out.old) (lent plan_room (length out.old) (plan_said job.now walk)) }
{
    // Kept in each call: the arm for a fault is one call of `refuse`, and one function for all calls would take the rest of each as a closure over the text and the output.
    match read_job(job) {
        Ok(text) => plan_job(&text, walk_number(walk), out),
        Err(fault) => refuse(job, JOB, fault, ROOM, out),
    }
}
