// The removals of a plan: "each removed part costs its removal once at that stop".
ghost use Rattle.std.specs.Prelude.{◌≡◌, false, ℕ, map, ◌≤◌, ◌<◌, length, get_or, take};
ghost use Rattle.model.specs.Limits.{most_openings, most_parts};
ghost use Rattle.model.specs.Model as model;
ghost use Rattle.model.specs.Model.{table, comes_out, out_at, sum_at, removal_of_lem, removals_of_lem};
ghost use Rattle.jobs.specs.Views.{job_of, changes_of, changes_for};
ghost use Rattle.coming_out.specs.Rows.{Row, Rows, Removals};
ghost use Rattle.plan_costs.specs.Dearest.{Cheap, dearest_stop};
ghost use Rattle.jobs.specs.Views.{blank_changes};

use crate::summing::{sum_at, sum_of};
use coming_out::fill::row_of;
use coming_out::records::{holders_of, removals_of};
use coming_out::{come_out, union};
use jobs::{Accepted, Changes, Plan};
use model::{PAIRS, PARTS};

// The parts that are changed at opening k.
// Kept with the limits of plain numbers in the clauses, here and below: an opening, and how many parts and openings count, are read off a job that does not stand beside them.
fn changed_at(changes: &[Changes; PARTS], k: usize) -> [bool; PARTS]
    requires { k < most_openings }
    ensures { Row false (table (λ i. get_or (get_or changes.now i blank_changes).at k false) most_parts) result }
{
    row_of(PARTS, false, |i| changes[i].at[k])
}

// What is paid for removals at opening k, where m parts come out by these rows.
fn paid_at(
    outs: &[bool; PAIRS],
    m: usize,
    removals: &[u32; PARTS],
    changes: &[Changes; PARTS],
    k: usize,
) -> u64
    requires { (m ≤ most_parts) × (k < most_openings) × Cheap (take m removals.now) }
    ensures little { result ≤ dearest_stop }
    ensures paid { (n : ℕ) (job : model.Job) → k < n → length job.parts ≡ m → m ≤ length changes.now → Rows m (comes_out job) outs.now → Removals job removals.now
        → result ≡ sum_at (map removal_of_lem job.parts) (out_at job (changes_of n m changes.now) k) }
{
    let changed = changed_at(changes, k);
    let out = union(outs, m, [false; PARTS], changed);
    sum_at(m, removals, &out)
}

// What is paid for removals at the first n openings, where m parts come out by these rows.
pub fn removals_at(
    outs: &[bool; PAIRS],
    m: usize,
    removals: &[u32; PARTS],
    plan: &Plan,
    n: usize,
) -> u64
    requires { (m ≤ most_parts) × (n ≤ most_openings) × Cheap (take m removals.now) }
    ensures { (job : model.Job) → length job.parts ≡ m → length job.openings ≡ n → Rows m (comes_out job) outs.now → Removals job removals.now
        → result ≡ removals_of_lem job (changes_of n m plan.now.changes) }
{
    sum_of(
        n,
        |k|
            requires { (m ≤ most_parts) × (k < most_openings) × Cheap (take m removals.now) }
            ensures little { result ≤ dearest_stop }
            ensures paid { (n : ℕ) (job : model.Job) → k < n → length job.parts ≡ m → Rows m (comes_out job) outs.entry.now → Removals job removals.entry.now
                → result ≡ sum_at (map removal_of_lem job.parts) (out_at job (changes_of n m plan.entry.now.changes) k) }
        { paid_at(outs, m, removals, &plan.changes, k) },
    )
}

// What a plan pays for removals. Where every part's removal is 0 that is nothing, whatever comes out.
pub fn removals_paid(job: &Accepted, plan: &Plan) -> u64
    ensures { result ≡ removals_of_lem (job_of job.now.job) (changes_for job.now.job plan.now.changes) }
{
    let job = &job.job;
    let n = job.opening_count;
    let m = job.part_count;
    let removals = removals_of(job);
    let all = [true; PARTS];
    if sum_at(m, &removals, &all) == 0 {
        return 0;
    }
    let holders = holders_of(job);
    let outs = come_out(&holders, m);
    removals_at(&outs, m, &removals, plan, n)
}
