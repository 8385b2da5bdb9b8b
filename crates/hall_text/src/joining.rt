// How a hall comes about as its text is read: from its first job, and job by job.
ghost use Rattle.std.specs.Prelude.{◌≡◌, Bool, true, ◌&&◌, eqb, ◌≤◌, ◌<◌, [], length};
ghost use Rattle.jobs.specs.Views.{job_of};
ghost use Rattle.hall_model.specs.Limits.{most_lines, dearest_call};
ghost use Rattle.hall_jobs.specs.Views.{jobs_of, hall_of};
ghost use Rattle.hall_grammar.specs.Grammar.{same_numbers, room_for, joins};
ghost use Rattle.hall_text.specs.SoFar.{with_job};

use crate::sofar::SoFar;
use hall_jobs::HallJobs;
use jobs::{Accepted, Job};
use model::{OPENINGS, PARTS};

// Whether two jobs have the same horizon and idle steps.
fn are_alike(job: &Job, first: &Job) -> bool
    ensures { result ≡ (eqb (job_of job.now).horizon (job_of first.now).horizon && same_numbers (job_of job.now).idles (job_of first.now).idles) }
{
    job.horizon == first.horizon && job.idles[..job.idle_count] == first.idles[..first.idle_count]
}

impl SoFar {
    // A hall of one line.
    pub fn first(job: &Accepted, call: u32) -> SoFar
        requires { call ≤ dearest_call }
        ensures { hall_of result.hall ≡ with_job (record { call = call; jobs = [] }) (job_of job.now.job) }
    {
        SoFar {
            hall: HallJobs::first(job, call),
            parts: job.job.part_count,
            openings: job.job.opening_count,
        }
    }

    // Whether there is room for a job: it takes the hall past neither 16 parts nor 64 openings.
    fn has_room(&self, job: &Job) -> bool
        ensures { result ≡ room_for (jobs_of self.now.hall) (job_of job.now) }
    {
        self.parts + job.part_count <= PARTS && self.openings + job.opening_count <= OPENINGS
    }

    // Whether a job may stand behind the lines: it is like the first of them, and there is room for it.
    pub fn admits(&self, job: &Job) -> bool
        ensures { result ≡ joins (jobs_of self.now.hall) (job_of job.now) }
    {
        are_alike(job, &self.hall.jobs[0].job) && self.has_room(job)
    }

    // The hall with one line more, which joins the others.
    pub fn joined(self, job: &Accepted) -> SoFar
        requires few { length (jobs_of self.hall) < most_lines }
        requires joins { joins (jobs_of self.hall) (job_of job.now.job) ≡ true }
        ensures { hall_of result.hall ≡ with_job (hall_of self.hall) (job_of job.now.job) }
    {
        SoFar {
            hall: self.hall.joined(job),
            parts: self.parts + job.job.part_count,
            openings: self.openings + job.job.opening_count,
        }
    }
}
