// A table of shares that comes from outside, checked: what is kept of it is fair and in range, whatever it was.
#![tactic(auto)]

pub mod raw;

ghost use Rattle.std.specs.Prelude.{◌≡◌, ℕ, ◌+◌, ◌-◌, ◌*◌, ◌/◌, ◌%◌, ◌<◌, ◌≤◌, length, get_or};
ghost use Rattle.base.specs.Filled.{FilledBy};
ghost use Rattle.model.specs.Limits.{most_openings, most_parts};
ghost use Rattle.lane_rows.specs.Layout.{lane_count_lem, dear};
ghost use Rattle.lane_rows.specs.Rows.{Turned};
ghost use Rattle.share_rows.specs.Places.{most_things};
ghost use Rattle.fair_shares.specs.Checked.{row_start, room_of_lem, offer, cost_in_lem, kept, Kept, taken, Marked};

use lane_rows::{LANES, store_row, total, turn};
use model::{OPENINGS, PAIRS, PARTS, STRIDE};
use raw::RawShares;
use search_tables::rows::put_at;
use share_rows::{HOLDS, REMOVALS, SHARES, TAKES};

// The highest price of a lane, with all its shares.
const DEAR: u32 = 2000000;

// The most that a lane may bear of each of so many things beside this price.
fn room_of(price: u32, things: usize) -> u32
    requires { (price ≤ dear) × (0 < things) × (things ≤ most_things) }
    ensures { result ≡ room_of_lem price things }
{
    // Kept as a cast: the library has no `From` of a `usize` for a `u32`.
    (DEAR - price) / things as u32
}

// What row r offers each lane: nothing where it does not take the thing, else what the table has, and no more than the lane's room.
fn offer_row(shares: &RawShares, x: &[u32; SHARES], r: usize, acc: &mut [u32; LANES])
    requires { r < shares.now.things * most_openings }
    ensures { Turned lane_count_lem (offer shares.now.raw.now x.now shares.now.prices.now shares.now.things r) acc.old acc.new }
{
    let from = r * LANES;
    let at = TAKES + r / OPENINGS * LANES;
    let k = r % OPENINGS;
    turn(4, acc, |q, _| {
        let room = room_of(shares.prices[q * STRIDE + k], shares.things);
        if x[at + q] == 0 {
            0
        } else {
            shares.raw[from + q].min(room)
        }
    });
}

// What row r costs: the fee of its opening, or the removal of its thing.
fn cost_in(fees: &[u32], removals: &[u32], r: usize) -> u32
    ensures { result ≡ cost_in_lem fees.now removals.now r }
{
    let cost = if r < OPENINGS {
        fees.get(r)
    } else {
        removals.get(r / OPENINGS - 1)
    };
    cost.copied().unwrap_or(0)
}

// What is kept of row r stands in its place.
fn check_row(shares: &RawShares, r: usize, x: &mut [u32; SHARES])
    requires { r < shares.now.things * most_openings }
    ensures { FilledBy (λ (q : ℕ). row_start r + q) (kept shares.now.raw.now x.old shares.now.prices.now shares.now.fees.now shares.now.removals.now shares.now.things r) lane_count_lem x.old x.new }
{
    let mut acc = [0; LANES];
    offer_row(shares, x, r, &mut acc);
    let cost = u64::from(cost_in(shares.fees, shares.removals, r));
    if cost < total(4, &acc) {
        let none = [0; LANES];
        store_row(4, &none, r * LANES, x);
        return;
    }
    store_row(4, &acc, r * LANES, x);
}

// What is kept of the rows of so many things stands in their places.
// Kept as a loop over rows: a row is written to the table in which the lanes that take its thing are read.
pub fn check(shares: &RawShares, x: &mut [u32; SHARES])
    ensures { Kept shares.now.raw.now shares.now.prices.now shares.now.fees.now shares.now.removals.now shares.now.things x.old x.new (shares.now.things * most_openings) }
{
    for r in 0..shares.things * OPENINGS {
        check_row(shares, r, x);
    }
}

// Does lane q take thing m: 1 if it does.
// Kept with the limits of plain numbers in the clauses, here and below: how many parts there are and which thing it is are counts, of which places in the tables are computed.
fn takes(needs: &[bool; PAIRS], parts: usize, m: usize, q: usize) -> u32
    requires { (m ≤ most_parts) × (parts ≤ most_parts) }
    ensures { result ≡ taken needs.now parts m q }
{
    if m == 0 {
        return 1;
    }
    if parts <= q {
        return 0;
    }
    u32::from(needs[q * PARTS + (m - 1)])
}

// Which lanes take the first things, a row of lanes for each.
fn put_takes(needs: &[bool; PAIRS], parts: usize, rows: &mut [u32])
    requires { (parts ≤ most_parts) × (length rows.old ≤ most_things * lane_count_lem) }
    ensures size { length rows.new ≡ length rows.old }
    ensures takes { (i : ℕ) → i < length rows.old → get_or rows.new i 0 ≡ taken needs.now parts (i / lane_count_lem) (i % lane_count_lem) }
{
    for (i, lane) in rows.iter_mut().enumerate() {
        *lane = takes(needs, parts, i / LANES, i % LANES);
    }
}

// The table of shares but for the shares: which lanes take which things, the removals, and how many they are.
pub fn mark(needs: &[bool; PAIRS], parts: usize, removals: &[u32], x: &mut [u32; SHARES])
    requires { (parts ≤ most_parts) × (length removals.now ≤ most_parts) }
    ensures { Marked needs.now parts removals.now x.new }
{
    let h = removals.len();
    put_takes(needs, parts, &mut x[TAKES..TAKES + (h + 1) * LANES]);
    put_at(x, REMOVALS, removals);
    // Kept as a cast: the library has no `From` of a `usize` for a `u32`.
    x[HOLDS] = h as u32;
}
