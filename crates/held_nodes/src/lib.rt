// A node of the walk over the tables of a job with holders: the nodes below it, its part sums, and what is kept of it.
// Kept as parameters side by side in settle, no_sums and stay_sums: of the tables, the stack and what goes with it each reads some and writes others; and the numbers are the fees and rows of a node with the opening and the term of the one below it, so that neither node holds them all.
#![tactic(auto)]

ghost use Rattle.std.specs.Prelude.{◌≡◌, true, ℕ, ◌+◌, ◌*◌, ◌^◌, ◌<◌, ◌≤◌, get_or};
ghost use Rattle.base.specs.Filled.{FilledBy};
ghost use Rattle.model.specs.Limits.{most_openings, most_parts};
ghost use Rattle.lane_rows.specs.Layout.{lane_count_lem, inf, suffix_base, lanes_in};
ghost use Rattle.lane_rows.specs.Tables.{sum_where};
ghost use Rattle.lane_rows.specs.Rows.{lane, sum_lanes, Looks, Recalled};
ghost use Rattle.held_lanes.specs.Places.{removed_place, best_place};
ghost use Rattle.held_stops.specs.Stops.{stop_lane, LooksAtStop, SettleAsks};
ghost use Rattle.search_state.specs.State.{open_s};
ghost use Rattle.held_nodes.specs.State.{no_n, yes_n, stays_n, out_n, NodeSettled};

use branch::Bound;
use held_lanes::{ASIDE, BEST, HELD, REMOVED};
use held_stops::{settle_stop, shut_sum};
use lane_rows::{STACK, TABLES, look_by_fours};
use model::OPENINGS;
use search_state::Search;

// A node: how many openings are decided; the rows on the stack; how many removals of the last stop are decided, all of them where none is open; whether that stop is not settled yet; the lanes that it is
// shut to and its removals, the latest in the lowest bit; fees and removals so far; and the stops, the latest in the lowest bit.
// Kept with a flag beside `shut` and `removed`, and no Option of the two: while removals are being decided it is `next` that says so, and each of those nodes would have to ask again whether there is a stop.
// Kept beside the node of `walk`: the row of that one's stop is owed by the call that walks on from it, and its branches set four fields, not eight.
#[derive(Clone, Copy)]
pub struct Node {
    pub at: usize,
    pub rows: usize,
    pub next: usize,
    pub owed: bool,
    pub shut: usize,
    pub removed: usize,
    pub spent: u64,
    pub mask: u64,
}

impl Node {
    // The node below: no stop at the next opening.
    // Kept with the places in the clauses, here and below: a node at the last one has no such branch, and is a node too.
    pub fn no(self, rows: usize) -> Node
        requires { (self.at < most_openings) × (self.mask * 2 < 2 ^ 64) }
        ensures { result ≡ no_n self rows }
    {
        Node {
            at: self.at + 1,
            rows,
            owed: false,
            shut: 0,
            removed: 0,
            mask: self.mask * 2,
            ..self
        }
    }

    // The node below: stop at the next opening.
    pub fn yes(self, rows: usize, spent: u64) -> Node
        requires { (self.at < most_openings) × (self.mask * 2 + 1 < 2 ^ 64) }
        ensures { result ≡ yes_n self rows spent }
    {
        Node {
            at: self.at + 1,
            rows,
            next: 0,
            owed: true,
            shut: 0,
            removed: 0,
            spent,
            mask: self.mask * 2 + 1,
        }
    }

    // The node below: the next holding part is not removed, which leaves the stop shut to the lanes of the set.
    pub fn stays(self, set: usize) -> Node
        requires { (self.next < most_parts) × (self.removed * 2 < 2 ^ 64) }
        ensures { result ≡ stays_n self set }
    {
        Node {
            next: self.next + 1,
            owed: true,
            shut: set,
            removed: self.removed * 2,
            ..self
        }
    }

    // The node below: the next holding part is removed.
    pub fn out(self, spent: u64) -> Node
        requires { (self.next < most_parts) × (self.removed * 2 + 1 < 2 ^ 64) }
        ensures { result ≡ out_n self spent }
    {
        Node {
            next: self.next + 1,
            owed: true,
            removed: self.removed * 2 + 1,
            spent,
            ..self
        }
    }
}

// The removals of a full node are kept.
pub fn keep(v: &mut [u32; ASIDE])
    ensures { FilledBy best_place (λ (i : ℕ). get_or v.old (removed_place i) 0) most_openings v.old v.new }
{
    v.copy_within(REMOVED..REMOVED + OPENINGS, BEST);
}

// Settles the stop whose removals are decided, if there is one; how many rows there are then.
// A call of its own, so that its lanes do not stand in the stack once for each node above.
#[inline(never)]
pub fn settle(
    t: &[u32; TABLES],
    u: &[u32; HELD],
    v: &mut [u32; ASIDE],
    w: &mut [u32; STACK],
    p: Node,
) -> usize
    requires { p.owed ≡ true → SettleAsks t.now u.now v.old w.old p.at p.rows × (p.removed < 2 ^ 32) }
    ensures { NodeSettled t.now u.now w.old w.new v.old v.new p result }
{
    if p.owed {
        settle_stop(t, u, v, w, p.at, p.rows, p.shut, p.removed);
        return p.rows + 1;
    }
    p.rows
}

// The part sums of the no below an opening, if it is walked on: over the rows that are there, where j openings are decided.
// Kept beside search_state::Search::open_rows, which reads the term by the last mark: here it is the largest of the classes' and comes with the call, as both numbers h and x do for stay_sums. Kept as a cast here and in stay_sums: the library has no From for a usize, and a term is looked up by places.
pub fn no_sums(
    t: &[u32; TABLES],
    w: &mut [u32; STACK],
    limit: u64,
    spent: u64,
    rows: usize,
    j: usize,
    h: usize,
    x: u64,
    s: Search,
) -> Bound
    requires { (Looks t.now w.old rows j) × (h < inf → x ≤ sum_lanes (lanes_in t.now) (λ (q : ℕ). lane t.now w.old suffix_base j q rows)) × (spent + inf + lane_count_lem * inf < 2 ^ 64) × (x ≤ lane_count_lem * inf) }
    ensures opens { result ≡ open_s limit (spent + h) (sum_where h (sum_lanes (lanes_in t.now) (λ (q : ℕ). lane t.now w.old suffix_base j q rows))) s }
    ensures frame { Recalled t.now w.old w.new rows }
{
    let Bound::Sum(due) = s.tested(limit, spent, h as u64, x) else {
        return Bound::Missing;
    };
    s.open(limit, due, Bound::Sum(look_by_fours(t, w, rows, j)))
}

// The part sums of a node below a stop, if it is walked on: the stop at opening j - 1 is shut to the lanes of the set.
// Kept beside no_sums: what they share is `tested`, and a function of both would take the sum as a closure over the rows that it writes, which is no plainer.
pub fn stay_sums(
    t: &[u32; TABLES],
    u: &[u32; HELD],
    w: &mut [u32; STACK],
    limit: u64,
    spent: u64,
    rows: usize,
    j: usize,
    set: usize,
    h: usize,
    x: u64,
    s: Search,
) -> Bound
    requires { (LooksAtStop t.now u.now w.old rows j) × (h < inf → x ≤ sum_lanes (lanes_in t.now) (stop_lane t.now w.old j rows set)) × (spent + inf + lane_count_lem * inf < 2 ^ 64) × (x ≤ lane_count_lem * inf) }
    ensures opens { result ≡ open_s limit (spent + h) (sum_where h (sum_lanes (lanes_in t.now) (stop_lane t.now w.old j rows set))) s }
    ensures frame { Recalled t.now w.old w.new rows }
{
    let Bound::Sum(due) = s.tested(limit, spent, h as u64, x) else {
        return Bound::Missing;
    };
    s.open(limit, due, Bound::Sum(shut_sum(t, u, w, rows, j, set)))
}
