// Rows of lanes where shares are owed: the row of a stop, with what is still owed there, as its removals are decided.
#![tactic(auto)]

ghost use Rattle.std.specs.Prelude.{◌≡◌, cond, List, ℕ, ◌+◌, ◌*◌, ◌<◌, ◌≤◌, eqb, length, get_or};
ghost use Rattle.model.specs.Limits.{most_openings};
ghost use Rattle.lane_rows.specs.Layout.{lane_count_lem, mark_count, inf, lanes_in};
ghost use Rattle.lane_rows.specs.Rows.{Turned, Put, Memo};
ghost use Rattle.share_rows.specs.Places.{most_things, bear_place, take_place, eased_of};

use lane_rows::{INF, LANES, ROW_MARKS, STACK, forget, store_row, turn};
use model::{OPENINGS, PARTS};

// The things that lanes bear shares of: a stop, and the removal of each part.
const THINGS: usize = 1 + PARTS;

// The table of shares begins with a row of lanes for each thing at each opening; behind these stands which lanes take the things, a row for each.
pub const TAKES: usize = THINGS * OPENINGS * LANES;

// Where the removals of the holding parts stand in the table of shares.
pub const REMOVALS: usize = TAKES + THINGS * LANES;

// Where the table of shares says how many removals there are.
pub const HOLDS: usize = REMOVALS + LANES;

// The length of the table of shares.
pub const SHARES: usize = HOLDS + 1;

// Thing m at opening k is paid: no lane owes its share of it any more.
// Kept with the limits in the clauses, here and below: a thing and an opening are plain numbers, of which a place is computed; and a slice of lanes may be longer than a row, for which an array would ask.
pub fn ease(x: &[u32; SHARES], m: usize, k: usize, acc: &mut [u32])
    requires { (m < most_things) × (k < most_openings) × (lane_count_lem ≤ length acc.old) }
    ensures { Turned lane_count_lem (λ (q : ℕ). eased_of (get_or acc.old q 0) (get_or x.now (bear_place m k q) 0)) acc.old acc.new }
{
    let at = (m * OPENINGS + k) * LANES;
    turn(4, acc, |q, v| {
        let less = v.saturating_sub(x[at + q]);
        if v < INF { less } else { v }
    });
}

// Thing m is not removed: the stop is shut to the lanes that take it.
pub fn shut(x: &[u32; SHARES], m: usize, acc: &mut [u32])
    requires { (m < most_things) × (lane_count_lem ≤ length acc.old) }
    ensures { Turned lane_count_lem (λ (q : ℕ). cond (eqb (get_or x.now (take_place m q) 0) 0) (get_or acc.old q 0) inf) acc.old acc.new }
{
    let at = TAKES + m * LANES;
    turn(4, acc, |q, v| if x[at + q] == 0 { v } else { INF });
}

// The lanes are the row above n rows, that of a stop which leaves `at` openings decided; the memo knows nothing of it yet.
pub fn put_top(w: &mut [u32; STACK], at: usize, n: usize, acc: &[u32])
    requires { (n < mark_count) × (n ≤ at) × (at ≤ most_openings) × (lane_count_lem ≤ length acc.now) }
    ensures put { Put lane_count_lem (λ (q : ℕ). get_or acc.now q 0) w.old w.new n at }
    ensures memo { (t : List ℕ) → lanes_in t ≡ lane_count_lem → Memo t w.old n → Memo t w.new (n + 1) }
{
    store_row(4, acc, n * LANES, w);
    // Kept as a cast: the library has no `From` of a `usize` for a `u32`.
    w[ROW_MARKS + n] = at as u32;
    forget(w, n + 1, at);
}
