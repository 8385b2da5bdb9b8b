// From a job that is known to be accepted to the type that says so.
ghost use Rattle.std.specs.Prelude.{◌≡◌};
ghost use Rattle.jobs.specs.Valid.{Sound};

use crate::Job;
use crate::accepted::Accepted;

impl Accepted {
    // A job that is known to be accepted.
    pub fn of(job: Job) -> Accepted
        requires { Sound job }
        ensures { result.job ≡ job }
    {
        Accepted { job }
    }
}
