// Idle steps that were read.
ghost use Rattle.std.specs.Prelude.{◌≤◌};
ghost use Rattle.model.specs.Limits.{last_step};

use model::STEPS;

// Idle steps, of which the first `count` count.
// Kept as an array with a count: there is no heap.
#[derive(Clone, Copy)]
pub struct Idles {
    pub count: usize,
    pub idles: [u32; STEPS],
    ghost few: { count ≤ last_step },
}
