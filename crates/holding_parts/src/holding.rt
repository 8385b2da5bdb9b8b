// The parts of a job that are somebody's holder.
ghost use Rattle.std.specs.Prelude.{ℕ, ◌≤◌, ◌<◌, get_or};
ghost use Rattle.model.specs.Limits.{most_parts};

use model::PARTS;

// The parts that are somebody's holder: which they are, their places by rising number, and how many there are.
// Kept as an array with a count: no heap, fixed memory.
#[derive(Clone, Copy)]
pub struct Holding {
    pub marks: [bool; PARTS],
    pub places: [usize; PARTS],
    pub count: usize,
    ghost few: { count ≤ most_parts },
    ghost inside: { (b : ℕ) → b < count → get_or places b 0 < most_parts },
}
