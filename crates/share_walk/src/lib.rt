// The counted walk by fair shares, from sources at a level and with lifts, from a known cost: a node, the state, the nodes below, and the recursion. From level 0 and the first lives it is that of the planner's tree.
// Kept as parameters side by side in the functions here: the tables `t` and `x`, and in the walk the lifts. Tried as a struct of both, each function that reads one had to take it out into a variable first, and each contract to name the struct as it is at the call.
// Kept as parameters side by side: what the walk writes, the stack `w`, the name at hand, the best one and the state. A struct of the four would be lent anew at each of the two calls that a node makes.
// Kept as attributes: the three functions of the nodes below and the test of a node are compiled into the one that walks on, so that the nodes below stand in no memory and a node which is dropped is no call.
// Kept with the limit of a walk in the clauses, as in `search`, and with how far a node is (at, next, size): they are plain numbers, and a full node, which has no branches, is a node too.
#![tactic(auto)]

ghost use Rattle.std.specs.Prelude.{◌≡◌, Bool, true, false, not, ◌&&◌, List, ℕ, ◌+◌, ◌^◌, ◌<◌, ◌≤◌, ltb, eqb, length, get_or, take};
ghost use Rattle.model.specs.Limits.{most_openings, most_parts};
ghost use Rattle.model.specs.Model.{Job};
ghost use Rattle.model.specs.LowerBound.{inner};
ghost use Rattle.shares.specs.Shares.{Shares as Split};
ghost use Rattle.lane_rows.specs.Layout.{lane_count_lem, mark_count, inf, count_place, lanes_in, row_place};
ghost use Rattle.lane_rows.specs.Rows.{Put, Memo, Owing, next_row};
ghost use Rattle.share_rows.specs.Places.{bear_place, holds_place, eased_of};
ghost use Rattle.share_rows.specs.Stacked.{Course};
ghost use Rattle.share_walk.specs.State.{name_size, counted_s, stopped_s, kept_s, view, open_n, asked_n, At, Above, Below, SharesWalked, Undercuts, Ready, course_under};

pub use held_lanes::NAMES;
use held_lanes::number;
use lane_rows::{COUNT, FEES, INF, LANES, STACK, TABLES, cell, lane_sum, next_lanes};
use model::MARKS;
use share_rows::{HOLDS, REMOVALS, SHARES, ease, put_top, shut};

// The state of the walk, which is lent to it: the nodes reached, whether one was reached beyond the limit, the cost to be undercut, and how long the name of the incumbent is.
// Kept with a cost and a length where there is no incumbent yet: the cost is the one to be undercut from the start. Kept with `over` beside them: a walk that is cut has its count and its incumbent too. Kept with a length apart from the name, which stands in a lent buffer of a fixed size, without a heap.
// Kept beside the state of `walk`: an incumbent there is 64 bits, here a name in a buffer, and there a node beyond the limit is counted, here it is said.
#[derive(Clone, Copy)]
pub struct State {
    pub count: u64,
    pub over: bool,
    pub cost: u64,
    pub size: usize,
}

impl State {
    // One node more.
    pub fn counted(self) -> State
        requires { self.count + 1 < 2 ^ 64 }
        ensures { result ≡ counted_s self }
    {
        State {
            count: self.count + 1,
            ..self
        }
    }

    // A node is reached beyond the limit.
    pub fn stopped(self) -> State
        ensures { result ≡ stopped_s self }
    {
        State { over: true, ..self }
    }

    // A full node is kept.
    pub fn kept(self, cost: u64, size: usize) -> State
        ensures { result ≡ kept_s self cost size }
    {
        State { cost, size, ..self }
    }
}

// A node: how many openings are decided; the rows on the stack; how many removals of the last stop are decided, all of them where none is open; how long its name is; and fees and removals so far.
// Kept beside the node of `held_nodes`: that one settles a stop's row late, by the lanes and removals that it holds, and this one has its row on the stack.
#[derive(Clone, Copy)]
pub struct Node {
    pub at: usize,
    pub rows: usize,
    pub next: usize,
    pub size: usize,
    pub spent: u64,
}

impl Node {
    // The node below: no stop at the next opening.
    fn no(self) -> Node
        requires { (self.at < most_openings) × (self.size < name_size) }
        ensures { result ≡ open_n self 0 false }
    {
        Node {
            at: self.at + 1,
            size: self.size + 1,
            ..self
        }
    }

    // The node below: stop at the next opening.
    fn yes(self, fee: u64) -> Node
        requires { (self.at < most_openings) × (self.rows < mark_count) × (self.size < name_size) × (self.spent + fee < 2 ^ 64) }
        ensures { result ≡ open_n self fee true }
    {
        Node {
            at: self.at + 1,
            rows: self.rows + 1,
            next: 0,
            size: self.size + 1,
            spent: self.spent + fee,
        }
    }

    // The node below a stop: one removal more is decided, which costs this.
    fn asked(self, paid: u64) -> Node
        requires { (self.next < most_parts) × (self.size < name_size) × (self.spent + paid < 2 ^ 64) }
        ensures { result ≡ asked_n self paid }
    {
        Node {
            next: self.next + 1,
            size: self.size + 1,
            spent: self.spent + paid,
            ..self
        }
    }
}

// The decisions of a full node are kept.
// Kept as a loop, as in `line_writing::write::put_bytes`: a copy of a slice would be a call of `memmove`.
fn keep(name: &[bool; NAMES], best: &mut [bool; NAMES], size: usize)
    requires { size ≤ name_size }
    ensures { take size best.new ≡ take size name.now }
{
    for i in 0..size {
        best[i] = name[i];
    }
}

// Something is left to decide at a node.
fn undecided(t: &[u32; TABLES], x: &[u32; SHARES], p: Node) -> bool
    ensures { result ≡ not (not (ltb p.next (get_or x.now holds_place 0)) && eqb p.at (get_or t.now count_place 0)) }
{
    if p.next < number(x, HOLDS) {
        return true;
    }
    p.at != cell(t, COUNT, 0)
}

// The lanes of row n of the stack.
fn lanes_of(w: &[u32; STACK], n: usize) -> [u32; LANES]
    requires { n < mark_count }
    ensures { (q : ℕ) → q < lane_count_lem → get_or result q 0 ≡ get_or w.now (row_place n q) 0 }
{
    let mut lanes = [0; LANES];
    lanes.copy_from_slice(&w[n * LANES..n * LANES + LANES]);
    lanes
}

// The row of a stop at opening `at` stands above the others: all is owed there but the fee's shares.
fn put_stop(t: &[u32; TABLES], x: &[u32; SHARES], w: &mut [u32; STACK], at: usize, rows: usize)
    requires { (Owing lane_count_lem t.now w.old at rows) × (rows ≤ at + 1) }
    ensures put { Put lane_count_lem (λ (q : ℕ). eased_of (next_row t.now w.old at rows q) (get_or x.now (bear_place 0 at q) 0)) w.old w.new rows (at + 1) }
    ensures memo { (t : List ℕ) → lanes_in t ≡ lane_count_lem → Memo t w.old rows → Memo t w.new (rows + 1) }
{
    let mut lanes = [INF; LANES];
    next_lanes(4, t, w, at, rows, &mut lanes);
    ease(x, 0, at, &mut lanes);
    put_top(w, at + 1, rows, &lanes);
}

// The node below an opening: no stop, or a stop.
// Kept with a flag, as the two functions below are: one contract says what holds of both answers, and two functions each would say it twice.
#[inline(always)]
fn below_opening(
    t: &[u32; TABLES],
    x: &[u32; SHARES],
    w: &mut [u32; STACK],
    p: Node,
    yes: bool,
) -> Node
    requires { (job : Job) × (shares : Split) × (course : Course) × (s : List Bool) × (row : List ℕ) × Above job shares course s t.now x.now w.old row p × (p.next ≡ inner job) × (p.at < length job.openings) }
    ensures { (job : Job) (shares : Split) (course : Course) (s : List Bool) (row : List ℕ) → Above job shares course s t.now x.now w.old row p → p.next ≡ inner job → p.at < length job.openings
        → Below job shares course s t.now x.now w.old w.new p yes result }
{
    if yes {
        put_stop(t, x, w, p.at, p.rows);
        return p.yes(u64::from(t[FEES + p.at]));
    }
    p.no()
}

// The node below a stop: the next holding part is removed, or it is not.
#[inline(always)]
fn below_stop(
    t: &[u32; TABLES],
    x: &[u32; SHARES],
    w: &mut [u32; STACK],
    row: &[u32; LANES],
    p: Node,
    out: bool,
) -> Node
    requires { (job : Job) × (shares : Split) × (course : Course) × (s : List Bool) × Above job shares course s t.now x.now w.old row.now p × (p.next < inner job) }
    ensures { (job : Job) (shares : Split) (course : Course) (s : List Bool) → Above job shares course s t.now x.now w.old row.now p → p.next < inner job
        → Below job shares course s t.now x.now w.old w.new p out result }
{
    let mut lanes = *row;
    if out {
        ease(x, p.next + 1, p.at - 1, &mut lanes);
        put_top(w, p.at, p.rows - 1, &lanes);
        return p.asked(u64::from(x[REMOVALS + p.next]));
    }
    shut(x, p.next + 1, &mut lanes);
    put_top(w, p.at, p.rows - 1, &lanes);
    p.asked(0)
}

// The node below: no, or yes, to what is asked at a node.
#[inline(always)]
fn below(
    t: &[u32; TABLES],
    x: &[u32; SHARES],
    w: &mut [u32; STACK],
    row: &[u32; LANES],
    p: Node,
    yes: bool,
) -> Node
    requires { (job : Job) × (shares : Split) × (course : Course) × (s : List Bool) × Above job shares course s t.now x.now w.old row.now p × (p.next ≡ inner job → p.at < length job.openings) }
    ensures { (job : Job) (shares : Split) (course : Course) (s : List Bool) → Above job shares course s t.now x.now w.old row.now p → (p.next ≡ inner job → p.at < length job.openings)
        → Below job shares course s t.now x.now w.old w.new p yes result }
{
    if p.next < number(x, HOLDS) {
        return below_stop(t, x, w, row, p, yes);
    }
    below_opening(t, x, w, p, yes)
}

// The lift of a level.
pub fn lift_of(lifts: &[u32; MARKS], level: usize) -> u64
    requires { level < mark_count }
    ensures value { result ≡ get_or lifts.now level 0 }
    ensures small { result < 2 ^ 32 }
{
    u64::from(lifts[level])
}

// The walk of what is below the node p, which is counted and not dropped: its estimate with the lift of its level is e. A full node is kept.
// Kept with the node lent: by value it would be copied once more at each call.
#[cycle(walk)]
fn onward(
    t: &[u32; TABLES],
    x: &[u32; SHARES],
    lifts: &[u32; MARKS],
    w: &mut [u32; STACK],
    name: &mut [bool; NAMES],
    best: &mut [bool; NAMES],
    limit: u64,
    p: &Node,
    e: u64,
    s: &mut State,
)
    requires { ((job : Job) × (shares : Split) × (course : Course) × (nm : List Bool) × At job shares course nm t.now x.now lifts.now w.old name.old p.now) × Undercuts t.now lifts.now w.old limit p.now e s.old × (s.old.cost ≤ inf) × (limit < 2 ^ 63) }
    ensures { (job : Job) (shares : Split) (course : Course) (nm : List Bool) → At job shares course nm t.now x.now lifts.now w.old name.old p.now
        → SharesWalked job shares course nm t.now w.old w.new name.old name.new best.old best.new limit p.now s.old s.new }
{
    let p = *p;
    *s = s.counted();
    if !undecided(t, x, p) {
        keep(name, best, p.size);
        *s = s.kept(e, p.size);
        return;
    }
    let row = lanes_of(w, p.rows - 1);
    let size = p.size;
    name[size] = false;
    let no = below(t, x, w, &row, p, false);
    walk(t, x, lifts, w, name, best, limit, no, s);
    name[size] = true;
    let yes = below(t, x, w, &row, p, true);
    walk(t, x, lifts, w, name, best, limit, yes, s);
}

// The walk of the node p and of all below it, with at most `limit` nodes in all. A node is dropped if its estimate, with the lift of its level, is not less than the cost that is known.
#[cycle(walk)]
#[inline(always)]
pub fn walk(
    t: &[u32; TABLES],
    x: &[u32; SHARES],
    lifts: &[u32; MARKS],
    w: &mut [u32; STACK],
    name: &mut [bool; NAMES],
    best: &mut [bool; NAMES],
    limit: u64,
    p: Node,
    s: &mut State,
)
    requires { ((job : Job) × (shares : Split) × (course : Course) × (nm : List Bool) × At job shares course nm t.now x.now lifts.now w.old name.old p) × (s.old.cost ≤ inf) × (limit < 2 ^ 63) }
    ensures { (job : Job) (shares : Split) (course : Course) (nm : List Bool) → At job shares course nm t.now x.now lifts.now w.old name.old p
        → SharesWalked job shares course nm t.now w.old w.new name.old name.new best.old best.new limit p s.old s.new }
{
    if limit <= s.count {
        *s = s.stopped();
        return;
    }
    let e = p.spent + lane_sum(t, w, p.rows, p.at) + lift_of(lifts, p.at);
    if s.cost <= e {
        *s = s.counted();
        return;
    }
    onward(t, x, lifts, w, name, best, limit, &p, e, s);
}

// The walk from a level, of whose sources the rows are on the stack, from a cost that is to be undercut. The incumbent's name is the first part of `best`, as long as the state says; where none was found it is empty and the cost is as it was.
pub fn solve(
    t: &[u32; TABLES],
    x: &[u32; SHARES],
    lifts: &[u32; MARKS],
    w: &mut [u32; STACK],
    name: &mut [bool; NAMES],
    best: &mut [bool; NAMES],
    level: usize,
    cost: u64,
    limit: u64,
) -> State
    requires { ((job : Job) × (shares : Split) × (course : Course) × Ready job shares course level t.now x.now lifts.now w.old) × (cost ≤ inf) × (limit < 2 ^ 63) }
    ensures { (job : Job) (shares : Split) (course : Course) → Ready job shares course level t.now x.now lifts.now w.old → view result best.new ≡ course_under job shares course cost limit }
{
    let root = Node {
        at: level,
        rows: level + 1,
        next: number(x, HOLDS),
        size: 0,
        spent: 0,
    };
    let mut s = State {
        count: 0,
        over: false,
        cost,
        size: 0,
    };
    walk(t, x, lifts, w, name, best, limit, root, &mut s);
    s
}
