// What is printed of a plan: what it costs at the low ends, where the job text has a `low` line, and its lines.
// Kept as an output, a text and a plan in the functions that put lines: the first is written and the others are read, and a struct of the two would be made for one call.
#![tactic(auto)]

ghost use Rattle.std.specs.Prelude.{◌<◌};
ghost use Rattle.line_writing.specs.Puts.{Puts, Room};
ghost use Rattle.jobs.specs.Views.{plan_for};
ghost use Rattle.job_text.specs.Views.{given_in};
ghost use Rattle.plan_printing.specs.Printed.{low_lines, printed_lines};

use job_text::accepted::AcceptedText;
use jobs::{Accepted, Plan};
use line_writing::output::Out;
use low_ends::{is_banded, low_job};
use plan_costs::costs::cost_of;
use plan_writing::put_plan;

// Puts the line of what a plan costs at the low ends, where the job text has a `low` line.
fn put_low(out: &mut Out, text: &AcceptedText, plan: &Plan)
    requires { Room out.old (low_lines (given_in text.now) (plan_for text.now.job.job plan.now)) }
    ensures { Puts out.old (low_lines (given_in text.now) (plan_for text.now.job.job plan.now)) out.new }
{
    if is_banded(&text.said, &text.job) {
        let low = Accepted::of(low_job(&text.said, &text.job.job));
        out.put_line(b"costlow=", cost_of(&low, plan));
    }
}

// Puts what is printed of a plan with its cost.
pub fn put_printed(out: &mut Out, text: &AcceptedText, cost: u64, plan: &Plan)
    requires cost_printable { cost < 10000000000 }
    requires plan_in_bounds { Room out.old (printed_lines (given_in text.now) cost (plan_for text.now.job.job plan.now)) }
    ensures { Puts out.old (printed_lines (given_in text.now) cost (plan_for text.now.job.job plan.now)) out.new }
{
    put_low(out, text, plan);
    put_plan(out, &text.job.job, cost, plan);
}
