// What a walk from a cutoff finds.

ghost use Rattle.std.specs.Prelude.{◌≤◌};
ghost use Rattle.share_walk.specs.State.{name_size};

// A plan that costs less than the cutoff: what it costs, and how long its name is.
// Kept as a length apart from the name: the name stands in a buffer of a fixed size that the caller lends, without a heap.
#[derive(Clone, Copy)]
pub struct Undercut {
    pub cost: u64,
    pub size: usize,
    ghost short: { size ≤ name_size },
}

// The walk has more nodes than the limit.
#[derive(Clone, Copy)]
pub struct Over;
