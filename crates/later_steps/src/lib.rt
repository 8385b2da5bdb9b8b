// The steps after a step, renumbered: idle steps and openings of the job that is left.
#![tactic(auto)]

ghost use Rattle.std.specs.Prelude.{◌≡◌, map, ℕ, ◌-◌, ◌≤◌, length, take, drop};
ghost use Rattle.model.specs.Model.{fee_of};
ghost use Rattle.model.specs.Windows.{steps_of};
ghost use Rattle.model.specs.Limits.{last_step};
ghost use Rattle.jobs.specs.Views.{job_of};
ghost use Rattle.carry.specs.Carry.{count_to};
ghost use Rattle.carry.proofs.Later.{After};

use jobs::Job;
use model::{OPENINGS, STEPS};

// How many of some steps, in order, are not after the step.
pub fn count_to(steps: &[u32], step: u32) -> usize
    ensures { (result ≡ count_to step steps.now) × (result ≤ length steps.now) }
{
    steps.iter().position(|s| step < *s).unwrap_or(steps.len())
}

// The steps behind the first n, which are after the step, renumbered.
// Kept with a place to write at: an `iter_mut` with the places would name what is written, and ask for the step by its place instead.
pub fn renumbered(steps: &[u32], n: usize, step: u32) -> [u32; STEPS]
    requires { (length steps.now ≤ last_step) × (n ≤ length steps.now) × After step (drop n steps.now) }
    ensures { take (length steps.now - n) result ≡ map (λ (s : ℕ). s - step) (drop n steps.now) }
{
    let mut later = [0u32; STEPS];
    let behind = &steps[n..];
    for (i, s) in behind.iter().enumerate() {
        later[i] = *s - step;
    }
    later
}

// The steps of a job's openings, and their fees.
// Kept as two arrays: the steps alone are counted and renumbered, as idle steps are.
#[derive(Clone, Copy)]
pub struct OpeningLists {
    pub steps: [u32; OPENINGS],
    pub fees: [u32; OPENINGS],
}

// The openings of a job as lists.
pub fn opening_lists(job: &Job) -> OpeningLists
    ensures { (take job.now.opening_count result.steps ≡ steps_of (job_of job.now).openings) × (take job.now.opening_count result.fees ≡ map fee_of (job_of job.now).openings) }
{
    OpeningLists {
        steps: job.openings.map(|o| o.step),
        fees: job.openings.map(|o| o.fee),
    }
}
