// The counted walk over the tables of a job: a node, and the recursion on both branches.
#![tactic(auto)]

ghost use Rattle.std.specs.Prelude.{◌≡◌, ◌+◌, ◌-◌, ◌*◌, ◌^◌, ◌<◌, length};
ghost use Rattle.branch.specs.Label.{open_from};
ghost use Rattle.branch.specs.declared.Bound.TheVariants.{Sum};
ghost use Rattle.model.specs.Limits.{most_openings};
ghost use Rattle.lane_rows.specs.Sheet.{Sheet, sheet_bound};
ghost use Rattle.lane_rows.specs.Tables.{Tables, FeeTerms};
ghost use Rattle.lane_rows.specs.Rows.{Recalled};
ghost use Rattle.walk.specs.State.{decided, no_n, yes_n, At, Solves};
ghost use Rattle.search_state.specs.State.{view};

use branch::Bound;
use lane_rows::{COUNT, FEES, STACK, TABLES, base_row, cell, first_sums, settle, term};
use search_state::{NO_COST, Search, Solved};

// A node: how many openings are decided, the rows on the stack, the fees, and the decisions, the latest in the lowest bit.
#[derive(Clone, Copy)]
pub struct Node {
    pub at: usize,
    pub rows: usize,
    pub spent: u64,
    pub mask: u64,
}

impl Node {
    // The node below: no stop at the next opening.
    // Kept with the place in the clause, here and in `yes`: a node at the last place has no branches, and is a node too.
    pub fn no(self, rows: usize) -> Node
        requires { (self.at < most_openings) × (self.mask * 2 < 2 ^ 64) }
        ensures { result ≡ no_n self rows }
    {
        Node {
            at: self.at + 1,
            rows,
            mask: self.mask * 2,
            ..self
        }
    }

    // The node below: stop at the next opening.
    pub fn yes(self, rows: usize, fee: u64) -> Node
        requires { (self.at < most_openings) × (self.mask * 2 + 1 < 2 ^ 64) × (self.spent + fee < 2 ^ 64) }
        ensures { result ≡ yes_n self rows fee }
    {
        Node {
            at: self.at + 1,
            rows,
            spent: self.spent + fee,
            mask: self.mask * 2 + 1,
        }
    }
}

// Walks on from the node p, which is counted and not dropped, with part sums x. `stop`: its last decision is a yes, whose row is not yet on the stack.
// Kept as a flag: a node whose row is owed is walked on by the same steps, of which `settle` alone asks for it.
pub fn walk(
    t: &[u32; TABLES],
    w: &mut [u32; STACK],
    limit: u64,
    p: Node,
    stop: bool,
    x: u64,
    s: Search,
) -> Search
    requires { ((sheet : Sheet) × At sheet t.now w.old p stop (Sum x)) × (limit + 1 < 2 ^ 64) }
    ensures walked { (sheet : Sheet) → At sheet t.now w.old p stop (Sum x) → view limit (length sheet.positions) result
        ≡ open_from (sheet_bound sheet) limit (length sheet.positions - p.at) (decided p) (view limit (length sheet.positions) s) }
    ensures frame { Recalled t.now w.old w.new p.rows }
{
    if p.at == cell(t, COUNT, 0) {
        return s.kept(p.spent + x, p.mask);
    }
    let rows = settle(t, w, p.at, p.rows, stop);
    let j = p.at + 1;
    let a = match s.open_rows(t, w, limit, p.spent, j, rows, x) {
        Bound::Sum(y) => walk(t, w, limit, p.no(rows), false, y, s.counted()),
        Bound::Missing => s.reached(limit),
    };
    let fee = u64::from(t[FEES + p.at]);
    let Bound::Sum(y) = a.open(limit, p.spent + fee + term(t, j, j), Bound::Sum(x)) else {
        return a.reached(limit);
    };
    // By way of a variable, so that the state of a node whose yes is dropped stays in registers.
    let b = walk(t, w, limit, p.yes(rows, fee), true, y, a.counted());
    b
}

// The whole search with a limit, over the tables of a sheet.
pub fn solve(t: &[u32; TABLES], w: &mut [u32; STACK], limit: u64) -> Solved
    requires { ((sheet : Sheet) × (Tables sheet t.now) × FeeTerms sheet t.now) × (limit + 1 < 2 ^ 64) }
    ensures { (sheet : Sheet) → Tables sheet t.now → FeeTerms sheet t.now → Solves sheet limit result }
{
    base_row(w);
    let due = term(t, 0, 0);
    let sums = first_sums(t, due);
    let floor = sums.plus(due);
    let begun = Search {
        count: 0,
        cost: NO_COST,
        mask: 0,
    };
    let Bound::Sum(x) = begun.open(limit, due, sums) else {
        return begun.reached(limit).solved(floor, limit);
    };
    let root = Node {
        at: 0,
        rows: 1,
        spent: 0,
        mask: 0,
    };
    walk(t, w, limit, root, false, x, begun.counted()).solved(floor, limit)
}
