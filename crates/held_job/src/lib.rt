// The search of any accepted job over its openings and removals: its numbers and what holders and removals add to them laid out in arrays, and the counted search over them.
#![tactic(auto)]

pub mod holders;
pub mod layout;

ghost use Rattle.std.specs.Prelude.{◌≡◌};
ghost use Rattle.model.specs.Promise.{answer_of};
ghost use Rattle.jobs.specs.Views.{job_of};
ghost use Rattle.search.specs.Found.{said_in};

use held_search::search_held;
use jobs::Accepted;
use layout::layout_of;
use search::Found;

// The search over the openings and the removals, with a limit on its nodes: the model's answer.
// A call of its own, so that what it needs of the stack does not lie beside what the search without holders needs.
#[inline(never)]
pub fn search_held_job(job: &Accepted, limit: u32) -> Found
    ensures { said_in job.now.job.opening_count job.now.job.part_count result ≡ answer_of (job_of job.now.job) limit }
{
    let layout = layout_of(job);
    search_held(&layout.held(job), u64::from(limit))
}
