// The counted walk over the tables of a job with holders: the recursion on both branches of an opening and of a removal.
// Kept as nine parameters in the three functions of the walk: a struct of the tables, the stack and what goes with it would be lent anew in each of the calls, and the limit, which no step changes, would have to be said to be handed back if it were a field of the state.
// Kept as casts, of terms: what reads them (opening_term, removal_term, number) answers a usize, of which the library has no From for a u64.
#![tactic(auto)]

ghost use Rattle.std.specs.Prelude.{◌≡◌, false, List, Bool, ℕ, ◌+◌, ◌-◌, ◌^◌, ◌<◌, ◌≤◌, length, get_or};
ghost use Rattle.base.specs.Filled.{FilledBy};
ghost use Rattle.lane_rows.specs.Layout.{lane_count_lem};
ghost use Rattle.lane_rows.specs.Tables.{Tables};
ghost use Rattle.held_rows.specs.Held.{HeldSheet, held, plain, Classed};
ghost use Rattle.held_lanes.specs.Places.{offset, classes_place, held_size, last_place, aside_size};
ghost use Rattle.held_lanes.specs.Tables.{HeldTables};
ghost use Rattle.held_nodes.specs.State.{settled_n, At, HeldWalked, HeldSolves};

use branch::Bound;
use held_lanes::{
    ASIDE, CLASSES, HELD, HOLDS, NEED_LANES, READY, REMOVALS, TOPS, number, opening_term,
    removal_term,
};
use held_nodes::{Node, keep, no_sums, settle, stay_sums};
use lane_rows::{COUNT, FEES, STACK, TABLES, base_row, cell, first_sums};
use search_state::{NO_COST, Search, Solved};

// Walks on from the node p, which is counted and not dropped, with part sums x and term g: at a stop whose removals are not all decided by the next of them; else, once the stop is settled, by the next opening, unless the node is full.
#[cycle(walk)]
pub fn walk(
    t: &[u32; TABLES],
    u: &[u32; HELD],
    w: &mut [u32; STACK],
    v: &mut [u32; ASIDE],
    limit: u64,
    p: Node,
    x: u64,
    g: usize,
    s: Search,
) -> Search
    requires { ((sheet : HeldSheet) × ((ds : List (List Bool)) × At sheet ds t.now u.now w.old v.old p x g)) × (limit + 1 < 2 ^ 64) }
    ensures { (sheet : HeldSheet) (ds : List (List Bool)) → At sheet ds t.now u.now w.old v.old p x g
        → HeldWalked sheet ds t.now w.old w.new v.old v.new limit p s result }
{
    if p.next < number(u, HOLDS) {
        return branch_on_removal(t, u, w, v, limit, p, x, g, s);
    }
    let rows = settle(t, u, v, w, p);
    if p.at == cell(t, COUNT, 0) {
        keep(v);
        return s.kept(p.spent + x, p.mask);
    }
    branch_on_opening(t, u, w, v, limit, p, rows, x, s)
}

// Branches on the next removal of the stop that the node p stands at: not removed first, then removed.
// Inlined, as the other branch is, so that a node is one call and one frame of the stack.
#[cycle(walk)]
#[inline(always)]
fn branch_on_removal(
    t: &[u32; TABLES],
    u: &[u32; HELD],
    w: &mut [u32; STACK],
    v: &mut [u32; ASIDE],
    limit: u64,
    p: Node,
    x: u64,
    g: usize,
    s: Search,
) -> Search
    requires { ((sheet : HeldSheet) × ((ds : List (List Bool)) × At sheet ds t.now u.now w.old v.old p x g × (p.next < held sheet))) × (limit + 1 < 2 ^ 64) }
    ensures { (sheet : HeldSheet) (ds : List (List Bool)) → At sheet ds t.now u.now w.old v.old p x g → p.next < held sheet
        → HeldWalked sheet ds t.now w.old w.new v.old v.new limit p s result }
{
    let set = p.shut | number(u, NEED_LANES + p.next);
    let h = removal_term(u, v, p.at, p.rows - 1, p.next, g);
    let a = match stay_sums(t, u, w, limit, p.spent, p.rows, p.at, set, h, x, s) {
        Bound::Sum(y) => walk(t, u, w, v, limit, p.stays(set), y, h, s.counted()),
        Bound::Missing => s.reached(limit),
    };
    let spent = p.spent + u64::from(u[REMOVALS + p.next]);
    let Bound::Sum(y) = a.open(limit, spent + g as u64, Bound::Sum(x)) else {
        return a.reached(limit);
    };
    let b = walk(t, u, w, v, limit, p.out(spent), y, g, a.counted());
    b
}

// Branches on the next opening after the node p, which is settled, with so many rows: no stop first, then a stop.
#[cycle(walk)]
#[inline(always)]
fn branch_on_opening(
    t: &[u32; TABLES],
    u: &[u32; HELD],
    w: &mut [u32; STACK],
    v: &mut [u32; ASIDE],
    limit: u64,
    p: Node,
    rows: usize,
    x: u64,
    s: Search,
) -> Search
    requires { ((sheet : HeldSheet) × ((ds : List (List Bool)) × ((g : ℕ) × At sheet ds t.now u.now w.old v.old (settled_n p rows) x g × (p.at < length sheet.positions)))) × (limit + 1 < 2 ^ 64) }
    ensures { (sheet : HeldSheet) (ds : List (List Bool)) (g : ℕ) → At sheet ds t.now u.now w.old v.old (settled_n p rows) x g → p.at < length sheet.positions
        → HeldWalked sheet ds t.now w.old w.new v.old v.new limit (settled_n p rows) s result }
{
    let j = p.at + 1;
    let h = opening_term(u, v, j, rows - 1);
    let a = match no_sums(t, w, limit, p.spent, rows, j, h, x, s) {
        Bound::Sum(y) => walk(t, u, w, v, limit, p.no(rows), y, h, s.counted()),
        Bound::Missing => s.reached(limit),
    };
    let spent = p.spent + u64::from(t[FEES + p.at]);
    let k = number(u, TOPS + j);
    let Bound::Sum(y) = a.open(limit, spent + k as u64, Bound::Sum(x)) else {
        return a.reached(limit);
    };
    v[READY + rows] = 0;
    let b = walk(t, u, w, v, limit, p.yes(rows, spent), y, k, a.counted());
    b
}

// The last mark of each class before the first opening.
pub fn first_marks(u: &[u32; HELD], v: &mut [u32; ASIDE])
    requires { get_or u.now classes_place 0 ≤ lane_count_lem }
    ensures { FilledBy (last_place 0) (offset 0) (get_or u.now classes_place 0) v.old v.new }
{
    let n = number(u, CLASSES);
    // Kept as a cast: a usize may be more than a u32 holds, so the library has no From; there are 16 classes at most.
    for (c, mark) in v[..n].iter_mut().enumerate() {
        *mark = c as u32;
    }
}

// The whole search with a limit, over the tables of a sheet. The incumbent's removals are those of BEST.
// Kept as a cast, of the first term: it is a u64, as the bounds add it, and the library has no From of it for a usize.
// Kept beside walk::solve: a function of both would take the walk as a closure over the stack, and over what goes with it, which it writes, so that its contract would have to say for each what the closure leaves there.
pub fn solve(
    t: &[u32; TABLES],
    u: &[u32; HELD],
    w: &mut [u32; STACK],
    v: &mut [u32; ASIDE],
    limit: u64,
) -> Solved
    requires { ((sheet : HeldSheet) × (Tables (plain sheet) t.now) × (HeldTables sheet u.now) × Classed sheet) × (limit + 1 < 2 ^ 64) }
    ensures { (sheet : HeldSheet) → Tables (plain sheet) t.now → HeldTables sheet u.now → Classed sheet → HeldSolves sheet limit v.new result }
{
    base_row(w);
    first_marks(u, v);
    let due = u64::from(u[TOPS]);
    let sums = first_sums(t, due);
    let floor = sums.plus(due);
    let begun = Search {
        count: 0,
        cost: NO_COST,
        mask: 0,
    };
    let Bound::Sum(x) = begun.open(limit, due, sums) else {
        return begun.reached(limit).solved(floor, limit);
    };
    let root = Node {
        at: 0,
        rows: 1,
        next: number(u, HOLDS),
        owed: false,
        shut: 0,
        removed: 0,
        spent: 0,
        mask: 0,
    };
    walk(t, u, w, v, limit, root, x, due as usize, begun.counted()).solved(floor, limit)
}
