// The search of a hall: its lines' tables, the counted walk over them, and each line's plan of the incumbent.
// Kept with the limit of a walk in the clauses, as in `held_search`.
#![tactic(auto)]

pub mod found;
mod plans;

ghost use Rattle.std.specs.Prelude.{◌≡◌, ◌<◌, ◌^◌, ◌+◌, ℕ};
ghost use Rattle.branch.specs.declared.Bound.TheVariants.{Sum};
ghost use Rattle.search_state.specs.State.{open_s};
ghost use Rattle.hall_model.specs.Promise.{hall_answer};
ghost use Rattle.hall_jobs.specs.Views.{hall_of};
ghost use Rattle.hall_search.specs.Walked.{first_by, HallSearched};
ghost use Rattle.hall_search.specs.Found.{hall_said_in};

use branch::Bound;
use found::{HallFound, found_by};
use hall_crew::crew_steps;
use hall_jobs::HallJobs;
use hall_lines::{LEVELS, Level, LineRows, LineTables};
use hall_state::{Ground, Question, Spot};
use hall_tables::fill_lines;
use hall_walk::{Tally, walk};
use held_lanes::{ASIDE, HELD};
use lane_rows::{STACK, TABLES};
use plans::plans_of;
use search_state::{NO_COST, Search, Solved};

// A line's tables before they are filled.
const NO_TABLES: LineTables = LineTables {
    t: [0; TABLES],
    u: [0; HELD],
};

// A line's rows and levels before they are written.
const NO_ROWS: LineRows = LineRows {
    w: [0; STACK],
    v: [0; ASIDE],
    n: [Level {
        rows: 0,
        sums: 0,
        term: 0,
        mask: 0,
    }; LEVELS],
};

// The first call is asked, where the floor is walked on from.
fn root(floor: Bound, limit: u64, begun: Search) -> Option<Spot>
    requires { (x : ℕ) → floor ≡ Sum x → 0 + x < 2 ^ 64 }
    ensures { result ≡ first_by (open_s limit 0 floor begun) }
{
    let Bound::Sum(total) = begun.open(limit, 0, floor) else {
        return None;
    };
    Some(Spot {
        asks: Question::CrewCall,
        step: 0,
        line: 0,
        total,
    })
}

// The floor and the walk's last state. The tables stand on the stack of this call; the incumbent's stops are in `best`, and its removals in the rows.
#[inline(never)]
fn walked(hall: &HallJobs, limit: u64, rows: &mut [LineRows; 4], best: &mut [u64; 4]) -> Solved
    requires { limit < 2 ^ 63 }
    ensures { HallSearched (hall_of hall.now) limit rows.new best.new result }
{
    let mut ground = Ground {
        lines: [NO_TABLES; 4],
        ats: crew_steps(hall),
    };
    let floor = fill_lines(hall, &mut ground.lines, rows);
    let begun = Search {
        count: 0,
        cost: NO_COST,
        mask: 0,
    };
    let first = root(floor, limit, begun);
    let tally = Tally {
        count: begun.count,
        cost: begun.cost,
    };
    let end = walk(&ground, rows, best, limit, first, tally).search();
    end.solved(floor, limit)
}

// The search of a hall, with a limit on its nodes: the model's answer.
// A call of its own, so that what it needs of the stack does not lie beside what reads the hall's text.
#[inline(never)]
pub fn search_hall(hall: &HallJobs, limit: u32) -> HallFound
    ensures { hall_said_in hall.now result ≡ hall_answer (hall_of hall.now) limit }
{
    let mut rows = [NO_ROWS; 4];
    let mut best = [0; 4];
    let solved = walked(hall, u64::from(limit), &mut rows, &mut best);
    let plans = plans_of(hall, &rows, &best);
    found_by(solved, plans)
}
