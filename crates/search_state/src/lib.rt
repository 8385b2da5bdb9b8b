// The state of the counted walks, the one over the openings and the one where parts hide behind others: what a node is tested by, what is counted and kept, and what is handed over at the end.
#![tactic(auto)]

ghost use Rattle.std.specs.Prelude.{◌≡◌, ℕ, ◌+◌, ◌*◌, ◌^◌, ◌<◌, ◌≤◌, min};
ghost use Rattle.branch.specs.declared.Bound.TheVariants.{Sum};
ghost use Rattle.lane_rows.specs.Layout.{lane_count_lem, inf, suffix_base, lanes_in};
ghost use Rattle.lane_rows.specs.Rows.{lane, sum_lanes, Looks, Recalled, term_at, sums_at};
ghost use Rattle.search_state.specs.State.{viewed, counted_s, kept_s, over_s, reached_s, open_s, due_s, solved_s};

use branch::Bound;
use lane_rows::{STACK, TABLES, lane_sum, last_mark, term, value};

// The cost where no full plan is found yet: more than any plan's.
// Kept as a number: the same recursion in Rust takes 14.9 to 15.2 ns a node with it, and 16.3 with an Option<u64>.
pub const NO_COST: u64 = 18446744073709551615;

// The state of the search, passed by value and handed back: the nodes reached, one more than the limit where one was reached beyond it; the incumbent's cost; and its decisions, the latest in the lowest bit.
// Kept without the limit, which is handed beside it with what is asked of it: as a field it would have to be said to be handed back as it was in each contract, and the same recursion in Rust takes 15.9 ns a node of the job 03_t1_d100 either way.
// Kept beside the state of share_walk: an incumbent is 64 bits here and a name in a buffer there, and a node beyond the limit is counted here and said there.
#[derive(Clone, Copy)]
pub struct Search {
    pub count: u64,
    pub cost: u64,
    pub mask: u64,
}

impl Search {
    // One node more.
    pub fn counted(self) -> Search
        requires { self.count + 1 < 2 ^ 64 }
        ensures { result ≡ counted_s self }
    {
        Search {
            count: self.count + 1,
            ..self
        }
    }

    // A full node that is better takes the incumbent's place.
    pub fn kept(self, cost: u64, mask: u64) -> Search
        ensures { result ≡ kept_s self cost mask }
    {
        Search { cost, mask, ..self }
    }

    // A bound e is less than the incumbent's cost. T1: of two stop sets of equal cost the one met first stays, since a node that costs as much does not improve.
    pub fn improves(self, e: u64) -> bool
        ensures { result ≡ viewed e self }
    {
        e < self.cost
    }

    // A node was reached beyond the limit.
    pub fn over(self, limit: u64) -> bool
        ensures { result ≡ over_s limit self }
    {
        limit < self.count
    }

    // A node is reached: one more, and at most one beyond the limit.
    // Kept with the limit beside the search, here and below, for the reason at `Search`; that it is not the highest number is asked where one more is counted.
    pub fn reached(self, limit: u64) -> Search
        requires { limit + 1 < 2 ^ 64 }
        ensures { result ≡ reached_s limit self }
    {
        if self.over(limit) {
            return self;
        }
        self.counted()
    }

    // The part sums of a node that is walked on: it is within the limit and not dropped. `spent` are its fees, e its part sums.
    pub fn open(self, limit: u64, spent: u64, e: Bound) -> Bound
        requires { (x : ℕ) → e ≡ Sum x → spent + x < 2 ^ 64 }
        ensures { result ≡ open_s limit spent e self }
    {
        if limit <= self.count {
            return Bound::Missing;
        }
        let Bound::Sum(x) = e else {
            return Bound::Missing;
        };
        if self.improves(spent + x) {
            return Bound::Sum(x);
        }
        Bound::Missing
    }

    // The fees and term of a node, if it is walked on by what is known before any lane is summed: its term h is there, and part sums of x, which are no more than its own, do not drop it.
    // Kept with the ranges of what is spent and of x in the clauses, here and in `open_rows`: they are sums of the walk at hand, and a type of small sums would be made and taken apart at each node.
    pub fn tested(self, limit: u64, spent: u64, h: u64, x: u64) -> Bound
        requires { (spent + inf + lane_count_lem * inf < 2 ^ 64) × (x ≤ lane_count_lem * inf) }
        ensures { result ≡ due_s limit spent h x self }
    {
        let Bound::Sum(g) = value(h) else {
            return Bound::Missing;
        };
        let Bound::Sum(_) = self.open(limit, spent + g, Bound::Sum(x)) else {
            return Bound::Missing;
        };
        Bound::Sum(spent + g)
    }

    // The part sums of a node that is walked on, the no over the rows that are there; `spent` are its fees. They are Missing exactly where its term is, and else at least x: so before any row is summed the node is tested with x.
    pub fn open_rows(
        self,
        t: &[u32; TABLES],
        w: &mut [u32; STACK],
        limit: u64,
        spent: u64,
        j: usize,
        rows: usize,
        x: u64,
    ) -> Bound
        requires { (Looks t.now w.old rows j) × (x ≤ sum_lanes (lanes_in t.now) (λ (q : ℕ). lane t.now w.old suffix_base j q rows)) × (spent + inf + lane_count_lem * inf < 2 ^ 64) }
        ensures opens { result ≡ open_s limit (spent + term_at t.now w.old j rows) (sums_at t.now w.old j rows) self }
        ensures frame { Recalled t.now w.old w.new rows }
    {
        let Bound::Sum(due) = self.tested(limit, spent, term(t, j, last_mark(w, rows)), x) else {
            return Bound::Missing;
        };
        self.open(limit, due, Bound::Sum(lane_sum(t, w, rows, j)))
    }
}

// What the whole search gives: the floor; the nodes walked, and whether there are more; the incumbent's cost, if there is one, and its decisions.
// Kept as a flag: that there are more nodes is said beside the nodes walked and beside any incumbent, so it has no value that it stands for.
#[derive(Clone, Copy)]
pub struct Solved {
    pub floor: Bound,
    pub count: u64,
    pub over: bool,
    pub cost: Option<u64>,
    pub mask: u64,
}

impl Search {
    // The nodes within the limit.
    fn within(self, limit: u64) -> u64
        ensures { result ≡ min self.count limit }
    {
        self.count.min(limit)
    }

    // What is handed over of the state at the end of the walk, with the floor.
    pub fn solved(self, floor: Bound, limit: u64) -> Solved
        ensures { result ≡ solved_s floor limit self }
    {
        Solved {
            floor,
            count: self.within(limit),
            over: self.over(limit),
            cost: (self.cost < NO_COST).then_some(self.cost),
            mask: self.mask,
        }
    }
}
