// The type of a hall as far as its text is read.
ghost use Rattle.std.specs.Prelude.{◌≡◌};
ghost use Rattle.hall_model.specs.Limits.{parts_in, openings_in};
ghost use Rattle.hall_jobs.specs.Views.{jobs_of};

use hall_jobs::HallJobs;

// The lines that are read, with their parts and openings counted.
#[derive(Clone, Copy)]
pub struct SoFar {
    pub hall: HallJobs,
    pub parts: usize,
    pub openings: usize,
    ghost counts_parts: { parts ≡ parts_in (jobs_of hall) },
    ghost counts_openings: { openings ≡ openings_in (jobs_of hall) },
}
