// The planner's search: the counted walk over a job's tables, and the plan of its incumbent.
// Kept with the limit of a walk in the clauses: it is a plain number, and a type of numbers below the highest would be made and taken apart once in each call.
#![tactic(auto)]

pub mod plan;

ghost use Rattle.std.specs.Prelude.{◌≡◌, ◌+◌, ◌^◌, ◌<◌};
ghost use Rattle.model.specs.Model.{Job};
ghost use Rattle.walk.specs.State.{Solves};
ghost use Rattle.search_tables.specs.Flat.{sheet_in, Holds};
ghost use Rattle.search.specs.Found.{found_by_lem, Finds};

use branch::Bound;
use jobs::Plan;
use lane_rows::{STACK, TABLES};
use least::TABLE;
use plan::{changes, stops_of};
use search_state::Solved;
use search_tables::flat::FlatJob;
use walk::solve;

// The nodes walked, whether there are more, the incumbent's cost if there is one, the floor, and the incumbent's plan.
// Kept as a flag: `over` is a fact of its own, and stands beside no value.
#[derive(Drop)]
pub struct Found {
    pub count: u64,
    pub over: bool,
    pub cost: Option<u64>,
    pub floor: Bound,
    pub plan: Plan,
}

// What a walk found, with the plan of its incumbent.
pub fn found_by(solved: Solved, plan: Plan) -> Found
    ensures { result ≡ found_by_lem solved plan }
{
    Found {
        count: solved.count,
        over: solved.over,
        cost: solved.cost,
        floor: solved.floor,
        plan,
    }
}

// The floor and the walk's last state. The tables stand on the stack of this call.
fn walked(job: &FlatJob<'_>, limit: u64, tab: &mut [u64; TABLE]) -> Solved
    requires { limit + 1 < 2 ^ 64 }
    ensures { Solves (sheet_in job.now) limit result }
{
    let mut t = [0; TABLES];
    let mut w = [0; STACK];
    job.fill_rows(tab, &mut t);
    job.put_terms(tab, &mut t);
    solve(&t, &mut w, limit)
}

// The search of a job in arrays, with a limit on its nodes.
pub fn search(job: &FlatJob<'_>, limit: u64) -> Found
    requires { limit + 1 < 2 ^ 64 }
    ensures { (held : Job) → Holds held job.now → Finds held limit result }
{
    let mut tab = [0; TABLE];
    let solved = walked(job, limit, &mut tab);
    let n = job.positions.len();
    let stops = stops_of(solved.mask, n);
    let changes = changes(job, &stops[..n], &mut tab);
    found_by(solved, Plan { stops, changes })
}
