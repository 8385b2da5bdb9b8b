// The plans of a hall's lines at the incumbent.
ghost use Rattle.std.specs.Prelude.{◌≡◌, ◌<◌, ◌≤◌, ℕ, length};
ghost use Rattle.jobs.specs.Views.{job_of};
ghost use Rattle.hall_jobs.specs.Views.{jobs_of};
ghost use Rattle.hall_search.specs.Plans.{PlanOf, PlansOf};

use hall_jobs::HallJobs;
use hall_lines::LineRows;
use held_job::layout::layout_of;
use held_lanes::{ASIDE, NAMES};
use held_search::name::name_of;
use held_search::plan_of;
use jobs::{Accepted, Plan};
use least::TABLE;

// A line's plan at the incumbent, by its stops and what stands beside its rows.
#[inline(never)]
fn line_plan(job: &Accepted, mask: u64, v: &[u32; ASIDE], tab: &mut [u64; TABLE]) -> Plan
    ensures { PlanOf job.now.job v.now mask result }
{
    let layout = layout_of(job);
    let numbers = layout.held(job);
    let mut name = [false; NAMES];
    let n = numbers.job.positions.len();
    let size = name_of(mask, v, n, numbers.removals.len(), &mut name);
    plan_of(&numbers, &name[..size], tab)
}

// Each line's plan.
// Kept as a loop over places: a line's job, its rows and its stops meet at one place.
pub fn plans_of(hall: &HallJobs, rows: &[LineRows; 4], best: &[u64; 4]) -> [Plan; 4]
    ensures { PlansOf hall.now rows.now best.now result }
{
    let mut tab = [0; TABLE];
    let mut plans = [Plan::empty(); 4];
    for d in 0..hall.count {
        plans[d] = line_plan(&hall.jobs[d], best[d], &rows[d].v, &mut tab);
    }
    plans
}
