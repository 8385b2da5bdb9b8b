// What a log did, worked out on the job with the openings that are past alone: the judgement on it, and what is left of each part's life.
#![tactic(auto)]

ghost use Rattle.std.specs.Prelude.{◌≡◌, ◌≤◌, take, pos, ◌-ℤ◌};
ghost use Rattle.model.specs.Limits.{last_position, longest_life};
ghost use Rattle.jobs.specs.Views.{job_of, plan_for};
ghost use Rattle.clock.specs.Placed.{Position, Begins};
ghost use Rattle.verdict.specs.Views.{model_judgement};
ghost use Rattle.carry.specs.Carry.{natural};
ghost use Rattle.log_lives.specs.Done.{judged_to, lefts_at_lem};

use clock::{keeps, position_of, positions_of};
use jobs::{Accepted, Plan};
use model::PARTS;
use part_records::part_at;
use plan_costs::costs::cost_of;
use plan_lives::lives::{late_to, verdict_to};
use verdict::{Judgement, judged};

// The judgement on what was done up to the step, and on the cost stated with it.
// Kept with the limit of the step in the clause, as in `clock::position_of`.
pub fn judgement_to(past: &Accepted, step: u32, stated: u32, plan: &Plan) -> Judgement
    requires { step ≤ last_position }
    ensures { model_judgement result ≡ judged_to (job_of past.now.job) step stated (plan_for past.now.job plan.now) }
{
    let positions = positions_of(past);
    let to = position_of(past, step);
    let verdict = verdict_to(past, &positions, plan, to);
    let cost = cost_of(past, plan);
    let stated = u64::from(stated);
    judged(stated, cost, verdict)
}

// The life that is not used at the position `now` by a part last changed at `last`; 0 if more was used.
// Kept as three numbers with their ranges, as in `clock::keeps`.
// Kept as casts: std has no From for either, and a life is at most 1000.
fn left_at(life: u32, last: i32, now: i32) -> u32
    requires { (life ≤ longest_life) × Begins life last × Position now }
    ensures { result ≡ natural (pos life -ℤ (now -ℤ last)) }
{
    if !keeps(life, last, now) {
        return 0;
    }
    let used = now - last;
    let left = life as i32 - used;
    left as u32
}

// The life not yet used of each part at the step.
// Kept as a loop over places: a rule of the project, that a record is taken out by a thin function over the slice that is lent.
pub fn lefts_at(past: &Accepted, step: u32, plan: &Plan) -> [u32; PARTS]
    requires { step ≤ last_position }
    ensures { take past.now.job.part_count result ≡ lefts_at_lem (job_of past.now.job) step (plan_for past.now.job plan.now) }
{
    let positions = positions_of(past);
    let to = position_of(past, step);
    let mut lefts = [0u32; PARTS];
    let parts = &past.job.parts[..past.job.part_count];
    for k in 0..parts.len() {
        let part = part_at(parts, k);
        let followed = late_to(past, &positions, &part, &plan.changes[k].at, to);
        lefts[k] = left_at(part.life, followed.last, to);
    }
    lefts
}
