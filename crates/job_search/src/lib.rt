// The search of an accepted job: where no part has a holder over its openings alone, at prices with the removals added, and else over its openings and removals.
#![tactic(auto)]

ghost use Rattle.std.specs.Prelude.{◌≡◌, false};
ghost use Rattle.model.specs.Model.{has_holder_lem};
ghost use Rattle.model.specs.Promise.{answer_of};
ghost use Rattle.jobs.specs.Views.{job_of};
ghost use Rattle.search.specs.Found.{said_in};

use coming_out::records::{has_holder, removals_of};
use held_job::search_held_job;
use job_numbers::{numbers_of, prices_of};
use jobs::Accepted;
use search::{Found, search};

// The search over the openings alone, of a job without holders.
// A call of its own, so that what it needs of the stack does not lie beside what the search with holders needs.
#[inline(never)]
fn search_plain(job: &Accepted, limit: u32) -> Found
    requires { has_holder_lem (job_of job.now.job) ≡ false }
    ensures { said_in job.now.job.opening_count job.now.job.part_count result ≡ answer_of (job_of job.now.job) limit }
{
    let numbers = numbers_of(job);
    let removals = removals_of(&job.job);
    let prices = prices_of(job, &removals);
    search(&numbers.flat(job, &prices), u64::from(limit))
}

// The search of an accepted job, with a limit on its nodes: the model's answer.
pub fn search_job(job: &Accepted, limit: u32) -> Found
    ensures { said_in job.now.job.opening_count job.now.job.part_count result ≡ answer_of (job_of job.now.job) limit }
{
    if has_holder(&job.job) {
        return search_held_job(job, limit);
    }
    search_plain(job, limit)
}
