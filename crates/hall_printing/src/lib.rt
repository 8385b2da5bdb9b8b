// What is printed of a hall: the search's numbers, what the plans cost with calls included, and each line's plan.
// Kept as an output, a hall and plans in the functions that put lines: the first is written and the others are read, and a struct of the two would be made for one call.
#![tactic(auto)]

ghost use Rattle.std.specs.Prelude.{◌<◌};
ghost use Rattle.lines.specs.Text.{texts};
ghost use Rattle.line_writing.specs.Puts.{Puts, Room};
ghost use Rattle.model.specs.Limits.{answer_room};
ghost use Rattle.answers.specs.Said.{Printable, Replied};
ghost use Rattle.findings.specs.Finding.{found_answer, PrintableAnswer};
ghost use Rattle.hall_jobs.specs.Views.{hall_of, jobs_of};
ghost use Rattle.hall_printing.specs.Lines.{own_lines, line_plans, plans_lines, hall_planned_lines, hall_lines, hall_reply};
ghost use Rattle.hall_search.specs.Found.{plans_held};
ghost use Rattle.hall_printing.specs.Finding.{line_held};

use answers::{Answer, put_three, reply};
use findings::{Finding, number_of};
use hall_jobs::HallJobs;
use jobs::{Accepted, Plan};
use line_writing::output::Out;
use plan_costs::costs::cost_of;
use plan_writing::put_plan;
use planning::ROOM;

// Puts the lines of one line's plan, with what it costs without calls.
fn put_own(out: &mut Out, job: &Accepted, plan: &Plan)
    requires { Room out.old (own_lines (line_held job.now plan.now)) }
    ensures { Puts out.old (own_lines (line_held job.now plan.now)) out.new }
{
    put_plan(out, &job.job, cost_of(job, plan), plan);
}

// Puts the lines of each line's plan, in order.
fn put_lines(out: &mut Out, hall: &HallJobs, plans: &[Plan; 4])
    requires { Room out.old (texts own_lines (line_plans (jobs_of hall.now) (plans_held hall.now plans.now))) }
    ensures { Puts out.old (texts own_lines (line_plans (jobs_of hall.now) (plans_held hall.now plans.now))) out.new }
{
    for (job, plan) in hall.jobs[..hall.count].iter().zip(plans.iter()) {
        put_own(out, job, plan);
    }
}

// Puts what the plans cost with calls included, and the lines of each.
fn put_plans(out: &mut Out, cost: u64, hall: &HallJobs, plans: &[Plan; 4])
    requires { Printable cost × Room out.old (plans_lines (jobs_of hall.now) cost (plans_held hall.now plans.now)) }
    ensures { Puts out.old (plans_lines (jobs_of hall.now) cost (plans_held hall.now plans.now)) out.new }
{
    out.put_line(b"cost=", cost);
    put_lines(out, hall, plans);
}

// Puts the lines of a search and of its plans.
fn put_planned(
    out: &mut Out,
    number: u32,
    nodes: u64,
    floor: u64,
    cost: u64,
    hall: &HallJobs,
    plans: &[Plan; 4],
)
    requires printable { Printable nodes × Printable floor × Printable cost }
    requires plans_in_bounds { Room out.old (hall_planned_lines number nodes floor (jobs_of hall.now) cost (plans_held hall.now plans.now)) }
    ensures { Puts out.old (hall_planned_lines number nodes floor (jobs_of hall.now) cost (plans_held hall.now plans.now)) out.new }
{
    put_three(out, number, b"nodes=", nodes, b"floor=", floor);
    put_plans(out, cost, hall, plans);
}

// Puts the lines of a finding and of its plans.
fn put_hall(out: &mut Out, f: Finding, hall: &HallJobs, plans: &[Plan; 4])
    requires { PrintableAnswer (found_answer (plans_held hall.now plans.now) f) × Room out.old (hall_lines (hall_of hall.now) (found_answer (plans_held hall.now plans.now) f)) }
    ensures { Puts out.old (hall_lines (hall_of hall.now) (found_answer (plans_held hall.now plans.now) f)) out.new }
{
    let number = number_of(f);
    match f {
        Finding::NoPlan => out.put_line(b"result=", u64::from(number)),
        Finding::Optimum { nodes, floor, cost } => {
            put_planned(out, number, nodes, floor, cost, hall, plans)
        }
        Finding::Cut { nodes, floor, cost } => {
            put_planned(out, number, nodes, floor, cost, hall, plans)
        }
        Finding::CutBare { nodes, floor } => {
            put_three(out, number, b"nodes=", nodes, b"floor=", floor)
        }
    }
}

// Answers a call by a finding, with its plans.
pub fn answer_hall(f: Finding, hall: &HallJobs, plans: &[Plan; 4], out: &mut [u8]) -> Answer
    requires { PrintableAnswer (found_answer (plans_held hall.now plans.now) f) }
    ensures { Replied answer_room (hall_reply (hall_of hall.now) (found_answer (plans_held hall.now plans.now) f)) out.old out.new result }
{
    reply(
        number_of(f),
        ROOM,
        out,
        |lines| put_hall(lines, f, hall, plans),
    )
}
