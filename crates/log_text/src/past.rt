// The openings that are past by a step, and the job with these alone.
ghost use Rattle.std.specs.Prelude.{◌≡◌, ◌≤◌};
ghost use Rattle.jobs.specs.Views.{job_of};
ghost use Rattle.carry.specs.Carry.{passed};
ghost use Rattle.log_grammar.specs.Grammar.{job_to};

use jobs::Job;

// How many openings are past by the step: one at the step itself is.
pub fn past_count(job: &Job, step: u32) -> usize
    ensures { (result ≡ passed (job_of job.now) step) × (result ≤ job.now.opening_count) }
{
    let openings = &job.openings[..job.opening_count];
    openings
        .iter()
        .position(|o| step < o.step)
        .unwrap_or(openings.len())
}

// The job with its first n openings alone.
// Kept as a copy that is changed: a literal with `..job` is not taken of a struct with ghost fields.
pub fn past_job(job: &Job, n: usize) -> Job
    requires { n ≤ job.now.opening_count }
    ensures { (job_of result ≡ job_to n (job_of job.now)) × (result.opening_count ≡ n) × (result.part_count ≡ job.now.part_count) }
{
    let mut past = *job;
    past.opening_count = n;
    past
}
