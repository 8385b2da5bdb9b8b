// How a hall comes about: from its first line, and line by line.
ghost use Rattle.std.specs.Prelude.{◌≡◌, ◌≤◌, ◌<◌, ◌++◌, ◌∷◌, []};
ghost use Rattle.jobs.specs.Views.{job_of};
ghost use Rattle.hall_model.specs.Limits.{most_lines, dearest_call};
ghost use Rattle.hall_jobs.specs.Hall.{Joins};
ghost use Rattle.hall_jobs.specs.Views.{jobs_of, hall_of};

use crate::HallJobs;
use jobs::Accepted;

impl HallJobs {
    // A hall of one line.
    pub fn first(job: &Accepted, call: u32) -> HallJobs
        requires { call ≤ dearest_call }
        ensures { hall_of result ≡ record { call = call; jobs = job_of job.now.job ∷ [] } }
    {
        HallJobs {
            jobs: [*job; 4],
            count: 1,
            call,
        }
    }

    // The hall with one line more.
    pub fn joined(self, job: &Accepted) -> HallJobs
        requires few { self.count < most_lines }
        requires joins { Joins (jobs_of self) (job_of job.now.job) }
        ensures { hall_of result ≡ record { call = self.call; jobs = jobs_of self ++ (job_of job.now.job ∷ []) } }
    {
        let mut jobs = self.jobs;
        jobs[self.count] = *job;
        HallJobs {
            jobs,
            count: self.count + 1,
            call: self.call,
        }
    }
}
