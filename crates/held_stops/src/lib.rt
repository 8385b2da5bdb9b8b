// The rows of stops whose removals are decided: the sum of the lanes while they are, and the row once they are.
// Kept as parameters side by side, the tables, the stack and what goes with it (t, u, v, w): each function reads some of them and writes others, so a struct of them would be lent as a whole where one part is written.
// Kept as casts, in put_stop and settle_stop: a usize may be more than a u32 holds, so the library has no From; what is asked says that these are not.
#![tactic(auto)]

ghost use Rattle.std.specs.Prelude.{◌≡◌, ◌+◌, ◌*◌, ◌^◌, ◌<◌, ◌≤◌, length, get_or};
ghost use Rattle.model.specs.Limits.{most_openings};
ghost use Rattle.base.specs.Filled.{FilledBy};
ghost use Rattle.lane_rows.specs.Layout.{lanes_in};
ghost use Rattle.lane_rows.specs.Rows.{sum_lanes, Looks, Recalled, Put, Memo, Owing, next_row};
ghost use Rattle.held_lanes.specs.Places.{pending_place, ready_place};
ghost use Rattle.held_lanes.specs.Tables.{StopAsks, shut_row};
ghost use Rattle.held_stops.specs.Stops.{ReadAt, stop_lane, LooksAtStop, Pended, Pends, SettleAsks, StopPut, StopNoted};

use held_lanes::{ASIDE, HELD, PENDING, READY, REMOVED, note_lasts, number, shut_row, stop_row};
use lane_rows::{
    FOURS, INF, KNOWN, LANES, MEMO, ROW_MARKS, STACK, TABLES, forget, look_by_fours, next_lanes,
    row_of, store_row,
};
use model::MARKS;

// The memo of the first rows is known at level j.
fn recall(t: &[u32; TABLES], w: &mut [u32; STACK], rows: usize, j: usize)
    requires { Looks t.now w.old rows j }
    ensures { ReadAt t.now w.old w.new rows j }
{
    let known = number(w, KNOWN + rows * MARKS + j);
    if known == 1 {
        return;
    }
    look_by_fours(t, w, rows, j);
}

// The sum of all lanes over the rows that are there, where the stop at opening j - 1 is shut to the lanes of the set.
pub fn shut_sum(
    t: &[u32; TABLES],
    u: &[u32; HELD],
    w: &mut [u32; STACK],
    rows: usize,
    j: usize,
    set: usize,
) -> u64
    requires { LooksAtStop t.now u.now w.old rows j }
    ensures sum { result ≡ sum_lanes (lanes_in t.now) (stop_lane t.now w.old j rows set) }
    ensures frame { Recalled t.now w.old w.new rows }
{
    recall(t, w, rows, j - 1);
    recall(t, w, rows, j);
    let row = row_of(j);
    let next = row + (j + 1);
    shut_row(
        t,
        u,
        w,
        MEMO + (row + rows) * LANES,
        MEMO + (next + rows) * LANES,
        set,
    )
}

// The row of a stop, so many lanes of it, is kept aside for all the removals of the stop.
fn pend_lanes(
    fours: usize,
    t: &[u32; TABLES],
    w: &[u32; STACK],
    v: &mut [u32; ASIDE],
    j: usize,
    rows: usize,
)
    requires { Owing (fours * 4) t.now w.now j rows }
    ensures { FilledBy (pending_place rows) (next_row t.now w.now j rows) (fours * 4) v.old v.new }
{
    let mut acc = [INF; LANES];
    next_lanes(fours, t, w, j, rows, &mut acc);
    store_row(fours, &acc, PENDING + rows * LANES, v);
}

// The whole row of a stop is kept aside.
// Kept as tests, beside held_lanes::stop_row: with lane_rows::by_fours here and there a node of the job 36_week16_heads_d60 takes 24.6 ns, with these 22.3.
fn pend_row(t: &[u32; TABLES], w: &[u32; STACK], v: &mut [u32; ASIDE], j: usize, rows: usize)
    requires { Owing (lanes_in t.now) t.now w.now j rows }
    ensures { FilledBy (pending_place rows) (next_row t.now w.now j rows) (lanes_in t.now) v.old v.new }
{
    let fours = t[FOURS];
    if fours < 2 {
        pend_lanes(1, t, w, v, j, rows);
        return;
    }
    if fours < 3 {
        pend_lanes(2, t, w, v, j, rows);
        return;
    }
    if fours < 4 {
        pend_lanes(3, t, w, v, j, rows);
        return;
    }
    pend_lanes(4, t, w, v, j, rows);
}

// The row of a stop is found when it is first asked for, kept aside and noted as ready.
pub fn pend(t: &[u32; TABLES], w: &[u32; STACK], v: &mut [u32; ASIDE], j: usize, rows: usize)
    requires { (Owing (lanes_in t.now) t.now w.now j rows) × (get_or v.old (ready_place rows) 0 ≡ 1 → Pended t.now w.now v.old j rows) }
    ensures { Pends t.now w.now v.old v.new j rows }
{
    let ready = number(v, READY + rows);
    if ready == 1 {
        return;
    }
    pend_row(t, w, v, j, rows);
    v[READY + rows] = 1;
}

// The row of a stop whose removals are decided stands above the rows that are there, with its mark; the memo knows nothing of it yet.
pub fn put_stop(
    t: &[u32; TABLES],
    u: &[u32; HELD],
    v: &[u32; ASIDE],
    w: &mut [u32; STACK],
    at: usize,
    rows: usize,
    set: usize,
)
    requires { (StopAsks (lanes_in t.now) u.now rows) × (rows ≤ at) × (at ≤ most_openings) }
    ensures put { Put (lanes_in t.now) (shut_row v.now rows set) w.old w.new rows at }
    ensures memo { Memo t.now w.old rows → Memo t.now w.new (rows + 1) }
{
    stop_row(t, u, v, w, rows, set);
    w[ROW_MARKS + rows] = at as u32;
    forget(w, rows + 1, at);
}

// The stop whose removals are decided is settled: its row above the rows that are there, the last mark of each class, and its removals.
pub fn settle_stop(
    t: &[u32; TABLES],
    u: &[u32; HELD],
    v: &mut [u32; ASIDE],
    w: &mut [u32; STACK],
    at: usize,
    rows: usize,
    set: usize,
    removed: usize,
)
    requires { (SettleAsks t.now u.now v.old w.old at rows) × (removed < 2 ^ 32) }
    ensures put { StopPut t.now w.old w.new at rows set }
    ensures noted { StopNoted t.now u.now w.old v.old v.new at rows set removed }
{
    pend(t, w, v, at - 1, rows);
    put_stop(t, u, v, w, at, rows, set);
    note_lasts(u, v, at, rows, set);
    v[REMOVED + (at - 1)] = removed as u32;
}
