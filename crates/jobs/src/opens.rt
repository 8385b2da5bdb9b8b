// The steps at which a job is open.
ghost use Rattle.std.specs.Prelude.{◌≡◌};
ghost use Rattle.model.specs.Windows.{open_at};
ghost use Rattle.jobs.specs.Views.{job_of};

use crate::Job;

impl Job {
    // Whether the step is one of the job's openings.
    pub fn opens(&self, step: u32) -> bool
        ensures { result ≡ open_at (job_of self.now) step }
    {
        self.openings[..self.opening_count]
            .iter()
            .any(|o| o.step == step)
    }
}
