// The crew's steps as the hall's walk has them: for each of them how many openings each line has before it. A line is open at a step where it has one more before the next one.
#![tactic(auto)]

ghost use Rattle.std.specs.Prelude.{◌≡◌, ◌+◌, ◌-◌, ◌<◌, ◌≤◌, length};
ghost use Rattle.hall_steps.specs.Steps.{level_in, open_in, next_open_lem, place_below};

// The crew's steps: the openings that each line has before each of them, and before one behind the last; how many steps and lines there are; and what a call costs.
// Kept as an array with counts: no heap, fixed memory.
#[derive(Drop)]
pub struct CrewSteps {
    pub before: [[usize; 4]; 65],
    pub steps: usize,
    pub lines: usize,
    pub call: u64,
}

// How many openings the line at place d has before the step, in a table of any number of steps and lines.
pub fn openings_before<const N: usize>(before: &[[usize; N]], step: usize, d: usize) -> usize
    requires { (step < length before.now) × (d < N) }
    ensures { result ≡ level_in before.now step d }
{
    before[step][d]
}

// Whether the line at place d is open at the step: it has more openings before the next one.
pub fn is_open<const N: usize>(before: &[[usize; N]], step: usize, d: usize) -> bool
    requires { (step + 1 < length before.now) × (d < N) }
    ensures { result ≡ open_in before.now step d }
{
    openings_before(before, step, d) < openings_before(before, step + 1, d)
}

// The next line, from the place `line` on and below `lines`, that is open at the step, if one is.
pub fn next_open<const N: usize>(
    before: &[[usize; N]],
    step: usize,
    line: usize,
    lines: usize,
) -> Option<usize>
    requires { (step + 1 < length before.now) × (lines ≤ N) × (line ≤ lines) }
    ensures { result ≡ place_below lines (next_open_lem before.now step line (lines - line)) }
{
    (line..lines).find(
        |&d| -> bool
            requires { (step + 1 < length before.now) × (d < N) }
            ensures { result ≡ open_in before.entry.now step d }
        { is_open(before, step, d) },
    )
}
