// A list of numbers.
ghost use Rattle.std.specs.Prelude.{◌≤◌};
ghost use Rattle.model.specs.Limits.{most_openings};

use model::OPENINGS;

// A list of at most 64 numbers.
// Kept as an array with a count: no heap, fixed memory.
#[derive(Clone, Copy)]
pub struct Numbers {
    pub at: [u32; OPENINGS],
    pub count: usize,
    pub ghost few: { count ≤ most_openings },
}
