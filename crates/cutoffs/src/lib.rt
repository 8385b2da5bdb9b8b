// Cutoffs from below: the walk by fair shares, with lifts of its levels, from one cutoff after the other, until one lets a plan come out.
#![tactic(auto)]

pub mod found;

ghost use Rattle.std.specs.Prelude.{◌≡◌, List, ◌+◌, ◌*◌, ◌^◌, ◌<◌, ◌≤◌};
ghost use Rattle.model.specs.Model.{Job};
ghost use Rattle.model.specs.Decisions.{Held};
ghost use Rattle.shares.specs.Shares.{Shares as Split, FairShares};
ghost use Rattle.shares.specs.Certificate.{NoneUnder};
ghost use Rattle.shares.specs.Dolls.{LiftedFrom};
ghost use Rattle.lane_rows.specs.Layout.{inf};
ghost use Rattle.share_walk.specs.State.{Solvable};
ghost use Rattle.share_walk.specs.Courses.{lift_in};
ghost use Rattle.cutoffs.specs.Ends.{seen, ended_s};
ghost use Rattle.cutoffs.specs.Risen.{last_of, RisenRight};

use found::{Over, Undercut};
use lane_rows::{INF, STACK, TABLES, base_row};
use model::MARKS;
use share_rows::SHARES;
use share_walk::{NAMES, State, solve};

// The highest cutoff: the number for a missing price. A job all of whose plans cost as much has no plan for these walks.
// Kept as a cast: `u64::from` can't be called where a constant is made.
pub const LAST_CUTOFF: u64 = INF as u64;

// The first gap is one part in so many of the cutoff wished for.
const FIRST_GAP_PARTS: u64 = 1024;

// A gap grows by one part in so many of itself.
const GROWTH_PARTS: u64 = 4;

// The last cutoff, where a plan of this cost is in hand: one above it, so that this plan or a better one is found.
fn last_cutoff(in_hand: Option<u64>) -> u64
    ensures is { result ≡ last_of in_hand }
    ensures small { result ≤ inf }
{
    match in_hand {
        Some(cost) => cost.saturating_add(1).min(LAST_CUTOFF),
        None => LAST_CUTOFF,
    }
}

// Where the walks end: a plan is found, or none costs less than the last cutoff, or a walk is over the limit. No plan costs less than the floor.
#[derive(Clone, Copy)]
pub struct Risen {
    pub found: Result<Option<Undercut>, Over>,
    pub floor: u64,
}

// The first cutoff: the one wished for, but above the floor, and no higher than the last one.
fn first_cutoff(wish: u64, floor: u64, last: u64) -> u64
    ensures { (result ≤ last) × (floor < last → floor < result) }
{
    wish.max(floor.saturating_add(1)).min(last)
}

// The cutoff after k: above it by more than a gap, or the last one.
fn next_cutoff(k: u64, gap: u64, last: u64) -> u64
    requires { (k ≤ inf) × (gap ≤ inf * 2) }
    ensures { (result ≤ last) × (k < last → k < result) }
{
    (k + gap + 1).min(last)
}

// The next gap between two cutoffs: a quarter more than the last one, up to the last cutoff.
fn next_gap(gap: u64) -> u64
    ensures { result ≤ inf * 2 }
{
    if gap < LAST_CUTOFF {
        gap + gap / GROWTH_PARTS + 1
    } else {
        LAST_CUTOFF
    }
}

// Where a walk from the cutoff k, which ended in the state s, ends the walks: it is over the limit, or it found a plan that costs less. No plan costs less than `floor`.
fn ended_by(s: State, k: u64, floor: u64) -> Option<Risen>
    ensures { seen result ≡ ended_s k floor s }
{
    if s.over {
        return Some(Risen {
            found: Err(Over),
            floor,
        });
    }
    if k <= s.cost {
        return None;
    }
    let plan = Undercut {
        cost: s.cost,
        size: s.size.min(NAMES),
    };
    Some(Risen {
        found: Ok(Some(plan)),
        floor,
    })
}

// The walks of the job, by shares and lifts, from one cutoff after the other, from `wish` on, each with at most `limit` nodes. No plan costs less than `floor`; `in_hand` is what a plan in hand costs, if there is one.
// Kept as a while loop: the cutoffs rise by growing gaps until the last one is passed.
// Kept with as many parameters: the first six and the limit are handed on to `share_walk::solve` as they are. Kept with the limit's bound in the clause: it is a plain number that the call hands down, and a type of it would be made once.
pub fn rise(
    t: &[u32; TABLES],
    x: &[u32; SHARES],
    lifts: &[u32; MARKS],
    w: &mut [u32; STACK],
    name: &mut [bool; NAMES],
    best: &mut [bool; NAMES],
    wish: u64,
    floor: u64,
    in_hand: Option<u64>,
    limit: u64,
) -> Risen
    requires { ((job : Job) × (shares : Split) × (lanes : List Held) × Solvable job shares lanes t.now x.now) × (limit < 2 ^ 63) }
    ensures { (job : Job) (shares : Split) (lanes : List Held) → Solvable job shares lanes t.now x.now → FairShares job shares → LiftedFrom job shares 0 (lift_in lifts.now) → NoneUnder job floor → RisenRight job shares (lift_in lifts.now) floor in_hand limit best.new result }
{
    let last = last_cutoff(in_hand);
    let mut k = first_cutoff(wish, floor, last);
    let mut gap = (wish / FIRST_GAP_PARTS).min(LAST_CUTOFF);
    let mut low = floor;
    while low < last {
        base_row(w);
        let s = solve(t, x, lifts, w, name, best, 0, k, limit);
        if let Some(end) = ended_by(s, k, low) {
            return end;
        }
        low = k;
        k = next_cutoff(k, gap, last);
        gap = next_gap(gap);
    }
    Risen {
        found: Ok(None),
        floor: low,
    }
}
