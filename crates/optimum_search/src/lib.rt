// The search for the cheapest plan of an accepted job, also where the planner's counted walk is hopeless: that walk with few nodes, walks with fair shares and lifts from cutoffs below, and where no plan costs less than the last cutoff the counted walk again.
#![tactic(auto)]

ghost use Rattle.shares.specs.Certificate.{NoneUnder};
ghost use Rattle.jobs.specs.Views.{job_of};
ghost use Rattle.search.specs.Found.{said_in};
ghost use Rattle.share_search.specs.Sought.{Sought};
ghost use Rattle.optimum_search.specs.Ends.{Ends};

use branch::Bound;
use held_job::layout::layout_of;
use job_search::search_job;
use jobs::Accepted;
use search::Found;
use share_search::search_shared;

// The most nodes of the first counted walk: it takes little longer than the shares do, a job whose walk ends in it needs none, and where a walk by shares is cut it has the plan in hand.
const FIRST: u32 = 131072;

// The search by shares of an accepted job, each walk of the job with at most `limit` nodes. No plan costs less than `floor`; `in_hand` is what a plan in hand costs, if there is one.
// A call of its own, so that what it needs of the stack does not lie beside what the counted walk needs.
#[inline(never)]
fn search_by_shares(job: &Accepted, floor: u64, in_hand: Option<u64>, limit: u32) -> Found
    ensures { NoneUnder (job_of job.now.job) floor → Sought (job_of job.now.job) floor in_hand limit result }
{
    let layout = layout_of(job);
    search_shared(&layout.held(job), floor, in_hand, u64::from(limit))
}

// The search of an accepted job, each walk of the job with at most `limit` nodes; the walks that find lifts have limits of their own.
pub fn search_optimum(job: &Accepted, limit: u32) -> Found
    ensures { Ends (job_of job.now.job) limit (said_in job.now.job.opening_count job.now.job.part_count result) }
{
    let first = search_job(job, limit.min(FIRST));
    let Bound::Sum(floor) = first.floor else {
        return first;
    };
    if !first.over {
        return first;
    }
    let shared = search_by_shares(job, floor, first.cost, limit);
    if let Some(cost) = shared.cost {
        return Found {
            over: false,
            cost: Some(cost),
            ..shared
        };
    }
    if shared.over {
        return Found {
            floor: shared.floor,
            ..first
        };
    }
    search_job(job, limit)
}
