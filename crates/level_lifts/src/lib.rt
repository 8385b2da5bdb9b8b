// Lifts of the levels of a job's walk: what every completion from a level costs above the estimate by shares, whatever was decided before. From the last level down, each by walks from its free sources, which use the lifts behind it.
// Kept as parameters side by side: the tables and buffers are handed on to `share_walk::solve` as they are.
#![tactic(auto)]

ghost use Rattle.std.specs.Prelude.{◌≡◌, false, List, ℕ, ◌+◌, ◌<◌, ◌≤◌, Some, length};
ghost use Rattle.model.specs.Model.{Job};
ghost use Rattle.model.specs.Decisions.{Held};
ghost use Rattle.shares.specs.Shares.{Shares as Split, FairShares};
ghost use Rattle.shares.specs.Sources.{LiftsAll};
ghost use Rattle.shares.specs.Dolls.{LiftedFrom};
ghost use Rattle.share_walk.specs.State.{Solvable};
ghost use Rattle.share_walk.specs.Courses.{lift_in};

use free_sources::put_sources;
use lane_rows::{COUNT, INF, STACK, TABLES, cell};
use model::MARKS;
use share_rows::SHARES;
use share_walk::{NAMES, State, lift_of, solve};

// The last cutoff: the number for a missing price.
// Kept as a cast: `u64::from` can't be called where a constant is made.
const LAST: u64 = INF as u64;

// The most nodes of a walk from free sources, and about how many the walks of a level have.
const NODES: u64 = 20000;

// The most walks of a level.
const WALKS: usize = 256;

// What a walk from the free sources of a level says: a lift, how many nodes it had, and whether it found nothing, so that a further one may say more.
#[derive(Clone, Copy)]
pub struct Tried {
    pub lift: u32,
    pub nodes: u64,
    pub nothing: bool,
}

// What a walk from free sources says, which ended in the state s: by what it ends with above their tops. Nothing if it was cut.
fn lift_by(s: State, tops: u64, cutoff: u64) -> Option<Tried>
    ensures { (r : Tried) → result ≡ Some r → (s.over ≡ false) × (tops + r.lift ≤ s.cost) }
{
    if s.over || s.cost < tops {
        return None;
    }
    Some(Tried {
        // Kept as a cast: it is no more than the last cutoff.
        lift: (s.cost - tops).min(LAST) as u32,
        nodes: s.count,
        nothing: s.cost == cutoff,
    })
}

// One walk from the free sources of a level, for completions that cost less than their tops with the level's lift and a step. None if it was cut, or the cutoff would be above the last one.
fn try_level(
    t: &[u32; TABLES],
    x: &[u32; SHARES],
    lifts: &[u32; MARKS],
    w: &mut [u32; STACK],
    name: &mut [bool; NAMES],
    best: &mut [bool; NAMES],
    level: usize,
    step: u32,
) -> Option<Tried>
    requires { (job : Job) × (shares : Split) × (lanes : List Held) × Solvable job shares lanes t.now x.now × (level ≤ length job.openings) }
    ensures { (job : Job) (shares : Split) (lanes : List Held) (r : Tried) → Solvable job shares lanes t.now x.now → FairShares job shares → level ≤ length job.openings → LiftedFrom job shares level (lift_in lifts.now)
        → result ≡ Some r → LiftsAll job shares level r.lift }
{
    let tops = put_sources(t, w, level);
    let cutoff = tops + lift_of(lifts, level) + u64::from(step);
    if LAST < cutoff {
        return None;
    }
    let s = solve(t, x, lifts, w, name, best, level, cutoff, NODES);
    lift_by(s, tops, cutoff)
}

// The lift of a level: at first that of the next one, then what each walk says, until one is cut or finds a completion, or they have had their nodes.
fn lift_level(
    t: &[u32; TABLES],
    x: &[u32; SHARES],
    lifts: &mut [u32; MARKS],
    w: &mut [u32; STACK],
    name: &mut [bool; NAMES],
    best: &mut [bool; NAMES],
    level: usize,
    step: u32,
)
    requires { (job : Job) × (shares : Split) × (lanes : List Held) × Solvable job shares lanes t.now x.now × (level < length job.openings) }
    ensures { (job : Job) (shares : Split) (lanes : List Held) → Solvable job shares lanes t.now x.now → FairShares job shares → level < length job.openings → LiftedFrom job shares (level + 1) (lift_in lifts.old)
        → LiftedFrom job shares level (lift_in lifts.new) }
{
    lifts[level] = lifts[level + 1];
    let mut nodes: u64 = 0;
    for _ in 0..WALKS {
        let Some(tried) = try_level(t, x, lifts, w, name, best, level, step) else {
            return;
        };
        lifts[level] = tried.lift;
        nodes = nodes.saturating_add(tried.nodes);
        if !tried.nothing {
            return;
        }
        if NODES < nodes {
            return;
        }
    }
}

// The lifts of all levels, where each walk tries for a step more. How high they are is no part of the promise.
pub fn lift_levels(
    t: &[u32; TABLES],
    x: &[u32; SHARES],
    w: &mut [u32; STACK],
    name: &mut [bool; NAMES],
    best: &mut [bool; NAMES],
    step: u32,
) -> [u32; MARKS]
    requires { (job : Job) × (shares : Split) × (lanes : List Held) × Solvable job shares lanes t.now x.now }
    ensures { (job : Job) (shares : Split) (lanes : List Held) → Solvable job shares lanes t.now x.now → FairShares job shares → LiftedFrom job shares 0 (lift_in result) }
{
    let mut lifts = [0; MARKS];
    for level in (0..cell(t, COUNT, 0)).rev() {
        lift_level(t, x, &mut lifts, w, name, best, level, step);
    }
    lifts
}
