// The hall's walk: at each node no first, then yes.
// Kept with a function for each kind of question, into which all else is inlined: what is asked there is known as it is compiled, so that neither a spot nor a branch stands in memory, a node that is passed by is no call, and a frame of the stack is as large as its question needs.
// Kept with the limit beside the search, and with the ground apart from the rows, as at `Ground`.
#![tactic(auto)]

ghost use Rattle.std.specs.Prelude.{◌≡◌, Some, ◌+◌, ◌<◌, ◌^◌};
ghost use Rattle.hall_state.specs.Moves.{Below};
ghost use Rattle.hall_moves.specs.Asks.{AskedAt};
ghost use Rattle.search_state.specs.State.{reached_s};
ghost use Rattle.hall_walk.specs.Walk.{search_of, call_at, line_at, removal_at, ReachedAt, WalksOn};

use hall_calls::call_below;
use hall_lines::{LineRows, Stop};
use hall_moves::{line_below, removal_below};
use hall_state::{Branch, Ground, Question, Spot};
use hall_turns::{arrive, close};
use search_state::Search;

// The search so far: the nodes reached, one more than the limit where one was reached beyond it; and the incumbent's cost. The incumbent's stops stand beside, in a lent number of each line.
// Kept beside `Search`, whose number of decisions a hall has no use for: two numbers are handed on and back in registers, three through memory, which takes a sixth more time a node.
#[derive(Clone, Copy)]
pub struct Tally {
    pub count: u64,
    pub cost: u64,
}

impl Tally {
    // The state of a search that keeps no decisions in a number.
    pub fn search(self) -> Search
        ensures { result ≡ search_of self }
    {
        Search {
            count: self.count,
            cost: self.cost,
            mask: 0,
        }
    }

    // A node is reached: one more, and at most one beyond the limit.
    fn reached(self, limit: u64) -> Tally
        requires { limit + 1 < 2 ^ 64 }
        ensures { search_of result ≡ reached_s limit (search_of self) }
    {
        if limit < self.count {
            return self;
        }
        Tally {
            count: self.count + 1,
            ..self
        }
    }
}

// The node below the question, where the answer is no, or where it is yes.
#[inline(always)]
pub fn below(ground: &Ground, rows: &mut [LineRows; 4], b: Branch) -> Option<Spot>
    requires { AskedAt b.p.asks ground.now rows.old b.p }
    ensures { (k : AskedAt b.p.asks ground.now rows.old b.p) → Below k.hall b.yes ground.now rows.old rows.new b.p result k.name k.cs b.limit b.s }
{
    match b.p.asks {
        Question::CrewCall => call_below(ground, rows, b),
        Question::LineStop => line_below(ground, rows, b),
        Question::PartRemoval(stop) => removal_below(ground, rows, stop, b),
    }
}

// Walks on from the node, if it is to be walked on, by what is asked there.
#[cycle(walk)]
#[inline(always)]
pub fn walk(
    ground: &Ground,
    rows: &mut [LineRows; 4],
    best: &mut [u64; 4],
    limit: u64,
    to: Option<Spot>,
    t: Tally,
) -> Tally
    requires { ReachedAt ground.now rows.old to best.old limit (search_of t) × (limit + 1 < 2 ^ 64) }
    ensures { WalksOn ground.now rows.old rows.new to best.old best.new limit (search_of t) (search_of result) }
{
    let Some(q) = to else {
        return t.reached(limit);
    };
    match q.asks {
        Question::CrewCall => at_call(ground, rows, best, limit, q.step, q.total, t),
        Question::LineStop => at_line(ground, rows, best, limit, q.step, q.line, q.total, t),
        Question::PartRemoval(stop) => {
            at_removal(ground, rows, best, limit, q.step, q.line, stop, q.total, t)
        }
    }
}

// Walks on from where the crew's call is asked.
#[cycle(walk)]
fn at_call(
    ground: &Ground,
    rows: &mut [LineRows; 4],
    best: &mut [u64; 4],
    limit: u64,
    step: usize,
    total: u64,
    t: Tally,
) -> Tally
    requires { ReachedAt ground.now rows.old (Some (call_at step total)) best.old limit (search_of t) × (limit + 1 < 2 ^ 64) }
    ensures { WalksOn ground.now rows.old rows.new (Some (call_at step total)) best.old best.new limit (search_of t) (search_of result) }
{
    let q = Spot {
        asks: Question::CrewCall,
        step,
        line: 0,
        total,
    };
    both(ground, rows, best, limit, q, t)
}

// Walks on from where a stop is asked of the lines from this place on.
#[cycle(walk)]
fn at_line(
    ground: &Ground,
    rows: &mut [LineRows; 4],
    best: &mut [u64; 4],
    limit: u64,
    step: usize,
    line: usize,
    total: u64,
    t: Tally,
) -> Tally
    requires { ReachedAt ground.now rows.old (Some (line_at step line total)) best.old limit (search_of t) × (limit + 1 < 2 ^ 64) }
    ensures { WalksOn ground.now rows.old rows.new (Some (line_at step line total)) best.old best.new limit (search_of t) (search_of result) }
{
    let q = Spot {
        asks: Question::LineStop,
        step,
        line,
        total,
    };
    both(ground, rows, best, limit, q, t)
}

// Walks on from where the removals at a stop of the line are asked.
#[cycle(walk)]
fn at_removal(
    ground: &Ground,
    rows: &mut [LineRows; 4],
    best: &mut [u64; 4],
    limit: u64,
    step: usize,
    line: usize,
    stop: Stop,
    total: u64,
    t: Tally,
) -> Tally
    requires { ReachedAt ground.now rows.old (Some (removal_at step line stop total)) best.old limit (search_of t) × (limit + 1 < 2 ^ 64) }
    ensures { WalksOn ground.now rows.old rows.new (Some (removal_at step line stop total)) best.old best.new limit (search_of t) (search_of result) }
{
    let q = Spot {
        asks: Question::PartRemoval(stop),
        step,
        line,
        total,
    };
    both(ground, rows, best, limit, q, t)
}

// Walks on from the spot: a full node becomes the incumbent; else no first, then yes.
#[cycle(walk)]
#[inline(always)]
fn both(
    ground: &Ground,
    rows: &mut [LineRows; 4],
    best: &mut [u64; 4],
    limit: u64,
    q: Spot,
    t: Tally,
) -> Tally
    requires { ReachedAt ground.now rows.old (Some q) best.old limit (search_of t) × (limit + 1 < 2 ^ 64) }
    ensures { WalksOn ground.now rows.old rows.new (Some q) best.old best.new limit (search_of t) (search_of result) }
{
    let c = Tally {
        count: t.count + 1,
        ..t
    };
    let p = arrive(ground, rows, q);
    if p.step == ground.ats.steps {
        close(ground, rows, best);
        return Tally { cost: p.total, ..c };
    }
    let no = Branch {
        p,
        yes: false,
        limit,
        s: Search {
            count: c.count,
            cost: c.cost,
            mask: 0,
        },
    };
    let none = below(ground, rows, no);
    let a = walk(ground, rows, best, limit, none, c);
    let yes = Branch {
        p,
        yes: true,
        limit,
        s: Search {
            count: a.count,
            cost: a.cost,
            mask: 0,
        },
    };
    let some = below(ground, rows, yes);
    walk(ground, rows, best, limit, some, a)
}
