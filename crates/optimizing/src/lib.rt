// The optimum: the planner's plan of a job text, also where its counted walk is hopeless.
// Kept as an output, a text and a plan in the functions that put lines: the first is written and the others are read, and a struct of the two would be made for one call.
#![tactic(auto)]

ghost use Rattle.line_writing.specs.Puts.{Puts, Room};
ghost use Rattle.model.specs.Promise.{PlannerAnswer};
ghost use Rattle.jobs.specs.Views.{job_of, plan_for};
ghost use Rattle.job_text.specs.Views.{given_in};
ghost use Rattle.answers.specs.Said.{Replied};
ghost use Rattle.findings.specs.Finding.{found_answer};
ghost use Rattle.optimum_search.specs.Ends.{Ends};
ghost use Rattle.optimizing.specs.Optimum.{optimum_lines, optimum_reply, PrintableOptimum, optimum_room};
ghost use Rattle.optimizing.specs.Promise.{Answered};

use answers::{Answer, JOB, put_two, refuse, reply};
use findings::{Finding, finding_of, number_of};
use job_text::accepted::AcceptedText;
use job_text::whole::read_job;
use jobs::Plan;
use line_writing::output::Out;
use optimum_search::search_optimum;
use plan_printing::put_printed;
use planning::{ROOM, walk_number};

// Puts the lines of a finding and of its plan: the floor only where a walk was cut.
fn put_optimum(out: &mut Out, f: Finding, text: &AcceptedText, plan: &Plan)
    requires { PrintableOptimum (found_answer (plan_for text.now.job.job plan.now) f) × Room out.old (optimum_lines (given_in text.now) (found_answer (plan_for text.now.job.job plan.now) f)) }
    ensures { Puts out.old (optimum_lines (given_in text.now) (found_answer (plan_for text.now.job.job plan.now) f)) out.new }
{
    let number = number_of(f);
    match f {
        Finding::NoPlan => out.put_line(b"result=", u64::from(number)),
        Finding::Optimum { cost, .. } => {
            out.put_line(b"result=", u64::from(number));
            put_printed(out, text, cost, plan);
        }
        Finding::Cut { floor, cost, .. } => {
            put_two(out, number, b"floor=", floor);
            put_printed(out, text, cost, plan);
        }
        Finding::CutBare { floor, .. } => put_two(out, number, b"floor=", floor),
    }
}

// Answers the call by a finding, with its plan.
fn answer(f: Finding, text: &AcceptedText, plan: &Plan, out: &mut [u8]) -> Answer
    requires { PrintableOptimum (found_answer (plan_for text.now.job.job plan.now) f) }
    ensures { Replied optimum_room (optimum_reply (given_in text.now) (found_answer (plan_for text.now.job.job plan.now) f)) out.old out.new result }
{
    reply(
        number_of(f),
        ROOM,
        out,
        |lines| put_optimum(lines, f, text, plan),
    )
}

// Answers the call for an accepted job text: by the search of its job.
fn search_text(text: &AcceptedText, walk: u32, out: &mut [u8]) -> Answer
    ensures { (a : PlannerAnswer) × Ends (job_of text.now.job.job) walk a × Replied optimum_room (optimum_reply (given_in text.now) a) out.old out.new result }
{
    let found = search_optimum(&text.job, walk);
    let finding = finding_of(found.count, found.floor, found.cost, found.over);
    answer(finding, text, &found.plan, out)
}

// The optimum of a job text, each walk with at most as many nodes as the walk number. 6 exactly if the job is accepted and has no plan. With 0 the plan printed is the best of all, the planner's to the byte;
// with 7 neither the planner's walk nor one by shares ends within the nodes that it may have, no plan costs less than the floor, and the plan printed is the best of the planner's first nodes, if one of these is a plan (`OptimumPromise`).
// What is handed over, and every byte of the output, is that of such an answer (`Answered`).
pub fn optimum(job: &[u8], walk: u64, out: &mut [u8]) -> Answer
    ensures { Answered job.now walk out.old out.new result }
{
    // Kept in each call: the arm for a fault is one call of `refuse`, and one function for all calls would take the rest of each as a closure over the text and the output.
    match read_job(job) {
        Ok(text) => search_text(&text, walk_number(walk), out),
        Err(fault) => refuse(job, JOB, fault, ROOM, out),
    }
}
