// The judgement on a plan: by the verdict on the lives, then by its cost.
#![tactic(auto)]

ghost use Rattle.std.specs.Prelude.{◌≡◌};
ghost use Rattle.model.specs.Verdict as model;
ghost use Rattle.model.specs.Verdict.{judged_of};
ghost use Rattle.jobs.specs.Views.{job_of, plan_for};
ghost use Rattle.plan_lives.specs.Views.{model_verdict};
ghost use Rattle.verdict.specs.Views.{model_judgement};

use jobs::{Accepted, Plan};
use plan_costs::costs::cost_of;
use plan_lives::lives::{Late, verdict_of};

// What the judge says of a plan: its true cost, the lowest part that is not kept with its due step, or the true cost where another is stated.
// Kept as an enum of its own: three answers, each with lines of its own, and none an error of another.
#[derive(Clone, Copy)]
pub enum Judgement {
    Accepts(u64),
    Unkept { part: u32, due: u32 },
    WrongCost(u64),
}

// By the verdict on the lives first, and then by the stated cost and the true one.
pub fn judged(stated: u64, cost: u64, verdict: Result<(), Late>) -> Judgement
    ensures { model_judgement result ≡ model.judged stated cost (model_verdict verdict) }
{
    match verdict {
        Err(Late { part, due }) => Judgement::Unkept { part, due },
        Ok(()) if stated == cost => Judgement::Accepts(cost),
        Ok(()) => Judgement::WrongCost(cost),
    }
}

// The judgement on a plan of an accepted job, and on the cost stated with it.
pub fn judgement_of(job: &Accepted, stated: u32, plan: &Plan) -> Judgement
    ensures { model_judgement result ≡ judged_of (job_of job.now.job) stated (plan_for job.now.job plan.now) }
{
    let verdict = verdict_of(job, plan);
    let cost = cost_of(job, plan);
    let stated = u64::from(stated);
    judged(stated, cost, verdict)
}
