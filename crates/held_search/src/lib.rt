// The planner's search of a job with holders: its tables, the counted walk over them, and the plan of its incumbent.
// Kept with the limit of a walk in the clauses: it is a plain number, and a type of numbers below 2 to the 63rd would be made and taken apart once in each call.
#![tactic(auto)]

pub mod name;
pub mod parts;

ghost use Rattle.std.specs.Prelude.{◌≡◌, ◌<◌, ◌≤◌, ◌^◌, length};
ghost use Rattle.model.specs.Model.{Job};
ghost use Rattle.model.specs.Promise.{answer_of};
ghost use Rattle.least.specs.Suffix.{table_size};
ghost use Rattle.search.specs.Found.{said_in};
ghost use Rattle.search.specs.Plan.{Rows};
ghost use Rattle.held_tables.specs.Numbers.{Holds};
ghost use Rattle.held_nodes.specs.State.{best_name};
ghost use Rattle.held_search.specs.Solved.{SolvesJob};
ghost use Rattle.held_search.specs.Planned.{row_at, Stops, Changed};

use held_lanes::{ASIDE, HELD, NAMES};
use held_places::{part_places, stops};
use held_tables::fill_held;
use held_tables::numbers::HeldNumbers;
use held_walk::solve;
use jobs::{Changes, Plan};
use lane_rows::{STACK, TABLES};
use least::TABLE;
use model::{OPENINGS, PARTS, STRIDE};
use name::name_of;
use part_classes::classes_of;
use parts::Parts;
use search::plan::changes_of;
use search::{Found, found_by};
use search_state::Solved;
use search_tables::tables::offered;

// The floor and the walk's last state. The tables stand on the stack of this call; the incumbent's removals are in v from BEST on.
fn walked(numbers: &HeldNumbers, limit: u64, tab: &mut [u64; TABLE], v: &mut [u32; ASIDE]) -> Solved
    requires { limit < 2 ^ 63 }
    ensures { (job : Job) → Holds job numbers.now
        → SolvesJob job limit (best_name (length numbers.now.removals.now) (length numbers.now.job.positions.now) v.new result.mask) result }
{
    let needs = numbers.needs();
    let classes = classes_of(&needs, numbers.job.lives.len());
    let mut t = [0; TABLES];
    let mut u = [0; HELD];
    let mut w = [0; STACK];
    numbers.job.fill_rows(tab, &mut t);
    fill_held(numbers, &classes, tab, &mut u);
    solve(&t, &u, &mut w, v, limit)
}

// Part q's changes at the node of this name.
fn part_changes(parts: &Parts, name: &[bool], q: usize, tab: &mut [u64]) -> [bool; OPENINGS]
    requires { (table_size ≤ length tab.old) × (q < length parts.now.lives.now) }
    ensures { result ≡ row_at parts.now name.now q }
{
    let n = parts.positions.len();
    let at = part_places(&parts.needs, name, n, q);
    let prices = &parts.prices[q * STRIDE..q * STRIDE + n];
    let (life, left) = (parts.lives[q], parts.lefts[q]);
    offered(life, left, parts.end, parts.positions, prices, &at[..n]).choice(tab)
}

// Each part's changes at the node of this name.
// Kept as a slice with its room in the clause, here and where it is handed on: a caller may lend more room than a part's own table takes, and an array type would ask for just so much.
pub fn changes(parts: &Parts, name: &[bool], tab: &mut [u64]) -> [Changes; PARTS]
    requires { table_size ≤ length tab.old }
    ensures { Rows (row_at parts.now name.now) result (length parts.now.lives.now) }
{
    changes_of(
        parts.lives.len(),
        tab,
        |q, tab|
            requires { (table_size ≤ length tab.old) × (q < length parts.now.lives.now) }
            ensures { result ≡ row_at parts.entry.now name.entry.now q }
        { part_changes(parts, name, q, tab) },
    )
}

// The plan of the node of this name: its stops, and each part's changes there.
pub fn plan_of(numbers: &HeldNumbers, name: &[bool], tab: &mut [u64]) -> Plan
    requires { table_size ≤ length tab.old }
    ensures stops { Stops numbers.now name.now result.stops }
    ensures changes { Changed numbers.now name.now result.changes (length numbers.now.job.lives.now) }
{
    let stops = stops(name, numbers.job.positions.len(), numbers.removals.len());
    let changes = changes(&Parts::of(numbers), name, tab);
    Plan { stops, changes }
}

// The search of a job with a limit on its nodes.
pub fn search_held(numbers: &HeldNumbers, limit: u64) -> Found
    requires { limit < 2 ^ 63 }
    ensures { (job : Job) → Holds job numbers.now → said_in (length job.openings) (length job.parts) result ≡ answer_of job limit }
{
    let mut tab = [0; TABLE];
    let mut v = [0; ASIDE];
    let mut name = [false; NAMES];
    let solved = walked(numbers, limit, &mut tab, &mut v);
    let n = numbers.job.positions.len();
    let size = name_of(solved.mask, &v, n, numbers.removals.len(), &mut name);
    let plan = plan_of(numbers, &name[..size], &mut tab);
    found_by(solved, plan)
}
