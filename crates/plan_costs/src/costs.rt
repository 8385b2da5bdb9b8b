// The true cost of a plan: the fees of its stops plus the prices of its changes, and the removals.
ghost use Rattle.std.specs.Prelude.{◌≡◌, map, ◌≤◌, ◌<◌, take, get_or};
ghost use Rattle.model.specs.Model.{sum_at, fee_of, prices_of_lem, cost_of_lem};
ghost use Rattle.jobs.specs.Views.{job_of, part_of_lem, blank_changes, changes_for, plan_for};
ghost use Rattle.jobs.specs.Valid.{ValidPart};
ghost use Rattle.model.specs.Limits.{most_openings, most_parts};
ghost use Rattle.part_records.specs.Records.{record_at};

use crate::removals::removals_paid;
use crate::summing::{sum_at, sum_of};
use jobs::{Accepted, Part, Plan};
use model::OPENINGS;
use part_records::part_at;

// The fees of the stops.
fn fees_of(job: &Accepted, stops: &[bool; OPENINGS]) -> u64
    ensures { result ≡ sum_at (map fee_of (job_of job.now.job).openings) (take job.now.job.opening_count stops.now) }
{
    let job = &job.job;
    sum_of(
        job.opening_count,
        |k| if stops[k] {
            u64::from(job.openings[k].fee)
        } else {
            0
        },
    )
}

// The prices of one part's changes, at the first n openings.
// Kept with the limit of n in the clause: one part is handed over without its job, whose count of openings it is.
fn part_prices(n: usize, part: &Part, changes: &[bool; OPENINGS]) -> u64
    requires { (n ≤ most_openings) × ValidPart n (part_of_lem n part.now) }
    ensures { result ≡ sum_at (take n part.now.prices) (take n changes.now) }
{
    sum_at(n, &part.prices, changes)
}

// The prices of every part's changes.
fn prices_of(job: &Accepted, plan: &Plan) -> u64
    ensures { result ≡ prices_of_lem (job_of job.now.job).parts (changes_for job.now.job plan.now.changes) }
{
    let job = &job.job;
    let n = job.opening_count;
    sum_of(
        job.part_count,
        |k|
            requires { (k < most_parts) × (n ≤ most_openings) × ValidPart n (part_of_lem n (record_at job.now.parts k)) }
            ensures { result ≡ sum_at (take n (record_at job.entry.now.parts k).prices) (take n (get_or plan.entry.now.changes k blank_changes).at) }
        { part_prices(n, &part_at(&job.parts, k), &plan.changes[k].at) },
    )
}

// The cost of a plan: the fees of its stops plus the prices of its changes, and the removals.
pub fn cost_of(job: &Accepted, plan: &Plan) -> u64
    ensures { result ≡ cost_of_lem (job_of job.now.job) (plan_for job.now.job plan.now) }
{
    let fees = fees_of(job, &plan.stops);
    let prices = prices_of(job, plan);
    let removals = removals_paid(job, plan);
    fees + prices + removals
}
