// The lives: a part's first gap that is too long, and the lowest part that has one.
ghost use Rattle.std.specs.Prelude.{◌≡◌, ◌≤◌, take, pos};
ghost use Rattle.model.specs.Limits.{longest_life};
ghost use Rattle.model.specs.Model.{last_change_lem, positions, select};
ghost use Rattle.model.specs.Verdict.{last_of, ruled, verdict_of_lem};
ghost use Rattle.model.specs.Verdict as model;
ghost use Rattle.jobs.specs.Views.{job_of, part_of_lem, plan_for};
ghost use Rattle.jobs.specs.Valid.{ValidPart};
ghost use Rattle.clock.specs.Placed.{Position, Begins, Placed};
ghost use Rattle.plan_lives.specs.Views.{model_gaps, model_verdict};
ghost use Rattle.plan_lives.specs.Steps.{gap_of, late_to_lem, verdict_to_lem};

use clock::{Positions, due_of, keeps, positions_of};
use jobs::{Accepted, Part, Plan};
use model::OPENINGS;
use part_records::part_at;
use reach::last_change;

// A part that is not kept, by its number, and the due step at its first gap that is too long.
#[derive(Clone, Copy)]
pub struct Late {
    pub part: u32,
    pub due: u32,
}

// One gap, from the change before, at `prev`, to the next change or the end, at `next`: its due step, if it is too long.
// Kept as three numbers with their ranges, as in `clock::keeps`: two of them change from opening to opening.
fn gap(job: &Accepted, life: u32, prev: i32, next: i32) -> Option<u32>
    requires { (life ≤ longest_life) × Begins life prev × Position next }
    ensures { model_gaps result ≡ gap_of (job_of job.now.job) (pos life) prev next }
{
    if keeps(life, prev, next) {
        None
    } else {
        Some(due_of(job, life, prev))
    }
}

// What a part's changes come to up to a position: the due step at the first gap that is too long, if one is, and the last change.
#[derive(Clone, Copy)]
pub struct Followed {
    pub late: Option<u32>,
    pub last: i32,
}

// A part's changes, followed up to the position `to`. The change before begins at or below zero.
pub fn late_to(
    job: &Accepted,
    places: &Positions,
    part: &Part,
    changes: &[bool; OPENINGS],
    to: i32,
) -> Followed
    requires { Placed (job_of job.now.job) places.now × ValidPart job.now.job.opening_count (part_of_lem job.now.job.opening_count part.now) × Position to }
    ensures { (model_gaps result.late ≡ late_to_lem (job_of job.now.job) to (part_of_lem job.now.job.opening_count part.now) (take job.now.job.opening_count changes.now))
        × (result.last ≡ last_of (last_change_lem (part_of_lem job.now.job.opening_count part.now)) (select (positions (job_of job.now.job)) (take job.now.job.opening_count changes.now)))
        × Begins part.now.life result.last }
{
    let life = part.life;
    let mut prev = last_change(life, part.left);
    let mut late = None;
    for (change, next) in changes[..job.job.opening_count].iter().zip(&places.at) {
        if *change {
            late = late.or(gap(job, life, prev, *next));
            prev = *next;
        }
    }
    Followed {
        late: late.or(gap(job, life, prev, to)),
        last: prev,
    }
}

// Whether part number `part` is kept, whose first gap that is too long, if one is, has this due step.
fn kept(part: u32, late: Option<u32>) -> Result<(), Late>
    ensures { model_verdict result ≡ ruled part (model_gaps late) model.keeps }
{
    match late {
        None => Ok(()),
        Some(due) => Err(Late { part, due }),
    }
}

// Whether every part is kept up to the position `to`; otherwise the lowest that is late, and its due step.
// Kept as a loop over places: a rule of the project, that a record is taken out by a thin function over the slice that is lent. The answer tells the part's number too.
// Kept as a cast: std has no From for it, and there are at most 16 parts.
pub fn verdict_to(job: &Accepted, positions: &Positions, plan: &Plan, to: i32) -> Result<(), Late>
    requires { Placed (job_of job.now.job) positions.now × Position to }
    ensures { model_verdict result ≡ verdict_to_lem (job_of job.now.job) to (plan_for job.now.job plan.now) }
{
    let parts = &job.job.parts[..job.job.part_count];
    for k in 0..parts.len() {
        let part = part_at(parts, k);
        let followed = late_to(job, positions, &part, &plan.changes[k].at, to);
        kept(k as u32 + 1, followed.late)?;
    }
    Ok(())
}

// Whether every part is kept; otherwise the lowest that is late, and its due step.
pub fn verdict_of(job: &Accepted, plan: &Plan) -> Result<(), Late>
    ensures { model_verdict result ≡ verdict_of_lem (job_of job.now.job) (plan_for job.now.job plan.now) }
{
    let positions = positions_of(job);
    verdict_to(job, &positions, plan, positions.end)
}
