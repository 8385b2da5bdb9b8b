// Positions: how far a step is along the lives, in running steps. Only here do steps become positions, and positions due steps.
#![tactic(auto)]

pub mod positions;

ghost use Rattle.std.specs.Prelude.{◌≡◌, ◌≤◌, pos};
ghost use Rattle.model.specs.Model.{clock, within, due_of_lem};
ghost use Rattle.jobs.specs.Views.{job_of};
ghost use Rattle.clock.specs.Placed.{Position, Begins, Flags, Clocks, Placed};
ghost use Rattle.model.specs.Limits.{last_position, longest_life};

use jobs::Accepted;
use model::OPENINGS;
pub use positions::Positions;
use reach::in_reach;

// The steps from 0 to the one after the longest horizon.
const STEPS: usize = 367;

// Which steps are idle.
// Kept as a cast: std has no From for it, and a step is at most 365.
fn idle_steps(job: &Accepted) -> [bool; STEPS]
    ensures { Flags (job_of job.now.job).idles result }
{
    let job = &job.job;
    let mut flags = [false; STEPS];
    for step in &job.idles[..job.idle_count] {
        flags[*step as usize] = true;
    }
    flags
}

// The running steps up to each step.
// Kept as a loop over the steps: step 0 is none to be counted, and behind `skip(1)` a proof has the iterator alone, and not the step at hand.
// Kept as a cast, here and where a step is a place in an array: std has no From for either, and a step is at most 366.
fn running_steps(job: &Accepted) -> [i32; STEPS]
    ensures { Clocks (job_of job.now.job) result }
{
    let idle = idle_steps(job);
    let mut clock = [0i32; STEPS];
    let mut run: u32 = 0;
    for s in 1..STEPS {
        run += u32::from(!idle[s]);
        clock[s] = run as i32;
    }
    clock
}

// The position of a step.
// Kept with the limit of the step in the clause, here and in `log_lives`: a step is a plain number, and the one behind the horizon is asked too.
// Kept as a cast, as in `running_steps`.
pub fn position_of(job: &Accepted, step: u32) -> i32
    requires { step ≤ last_position }
    ensures { (result ≡ clock (job_of job.now.job) step) × Position result }
{
    let at = running_steps(job);
    at[step as usize]
}

// The positions of an accepted job.
// Kept with a place to write at: an `iter_mut` with the places would name what is written, and ask for the opening by its place instead.
pub fn positions_of(job: &Accepted) -> Positions
    ensures { Placed (job_of job.now.job) result }
{
    let clock = running_steps(job);
    let job = &job.job;
    let mut at = [0i32; OPENINGS];
    for (i, o) in job.openings[..job.opening_count].iter().enumerate() {
        at[i] = clock[o.step as usize];
    }
    let end = clock[job.horizon as usize + 1];
    Positions { at, end }
}

// Whether a part whose change before is at `prev` is kept by its next change, or up to the end, at `next`.
// The part's life is the one number of the text that meets signed ones.
// Kept as a cast: std has no From for it, and a life is at most 1000.
// Kept as three numbers with their ranges, here and where a gap is asked for (`plan_lives`, `latest_changes`): two of them change from opening to opening, and a struct would be made anew for each question.
pub fn keeps(life: u32, prev: i32, next: i32) -> bool
    requires { (life ≤ longest_life) × Begins life prev × Position next }
    ensures { result ≡ within (pos life) prev next }
{
    in_reach(life as i32, prev, next)
}

// The last step at which a change would still have kept a part whose change before is at `prev`; 0 where there is none, as the model has it.
// Kept as a cast: std has no `From<u32>` for a usize, and a `try_from` would have an arm that nothing reaches.
pub fn due_of(job: &Accepted, life: u32, prev: i32) -> u32
    requires { (life ≤ longest_life) × Begins life prev }
    ensures { result ≡ due_of_lem (job_of job.now.job) (pos life) prev }
{
    let at = running_steps(job);
    (1..job.job.horizon + 1)
        .rev()
        .find(|s| keeps(life, prev, at[*s as usize]))
        .unwrap_or(0)
}
