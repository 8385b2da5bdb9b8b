// The accepted jobs of a hall's lines, and what a call of its crew costs.
#![tactic(auto)]

pub mod joining;

ghost use Rattle.std.specs.Prelude.{◌≡◌, ◌≤◌, length};
ghost use Rattle.hall_model.specs.Hall.{Proper};
ghost use Rattle.hall_model.specs.Limits.{most_lines, Fits};
ghost use Rattle.hall_jobs.specs.Hall.{hall_with};
ghost use Rattle.hall_jobs.specs.Facts.{fits_fact, proper_fact};

use jobs::Accepted;

// A hall of accepted jobs: the first `count` count, in the text's order. The lines are alike, and within the hall's limits.
// Kept as an array with its count: no heap, fixed memory. What stands behind the count is any accepted job.
#[derive(Clone, Copy)]
pub struct HallJobs {
    pub jobs: [Accepted; 4],
    pub count: usize,
    pub call: u32,
    pub ghost long: { length jobs ≡ most_lines },
    pub ghost few: { count ≤ most_lines },
    pub ghost fits: { Fits (hall_with call count jobs) } by { fits_fact (hall_with call count jobs) },
    pub ghost proper: { Proper (hall_with call count jobs) } by { proper_fact (hall_with call count jobs) },
}

impl HallJobs {
    // The longest hall text, in bytes.
    pub const MAX_BYTES: usize = 65536;

    // The fewest lines.
    pub const MIN_LINES: u32 = 1;

    // The most lines.
    pub const MAX_LINES: u32 = 4;

    // The least that a call may cost.
    pub const MIN_CALL: u32 = 0;

    // The most that a call may cost.
    pub const MAX_CALL: u32 = 1000000;
}
