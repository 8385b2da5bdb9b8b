// The type of the positions of a job's openings.
ghost use Rattle.std.specs.Prelude.{◌≡◌, length};
ghost use Rattle.model.specs.Limits.{most_openings};

use model::OPENINGS;

// The positions of a job's openings, and of the end of its lives, the step after the horizon.
// Kept as an array of which the job's count says how much counts: no heap, fixed memory.
#[derive(Clone, Copy)]
pub struct Positions {
    pub at: [i32; OPENINGS],
    pub end: i32,
    ghost long: { length at ≡ most_openings },
}
