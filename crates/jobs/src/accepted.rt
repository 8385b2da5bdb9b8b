// The type of an accepted job.
ghost use Rattle.jobs.specs.Views.{job_of};
ghost use Rattle.jobs.specs.Valid.{ValidJob};
ghost use Rattle.jobs.specs.Facts.{valid_fact};

use crate::Job;

// A job that is accepted: its counts stay within its arrays, and what it says is valid.
#[derive(Clone, Copy)]
pub struct Accepted {
    pub job: Job,
    pub ghost valid: { ValidJob (job_of job) } by { valid_fact (job_of job) },
}
