// Rows of lanes, one for each part, in fours: the tables, and a stack of rows in a lent buffer. A row function stands for any number of fours; its caller names the number, which makes each loop one without a count.
// Kept as loops over places, each for what it says there: total, least_rows, step_fours. The others go over items, or only call a function with the number.
// Kept as slices of LANES or more in turn, min_row, plus_row, add_row, least_rows, next_lanes, store_row and total: their callers hand parts of the stack and of the tables, whose length a type can't say, and an array for the lanes would ask those outside for that very length. Kept as slices in step_lanes and put_lanes: by_fours hands the stack as one.
// Kept as parameters side by side, the tables, the stack, its rows and an opening (t, w, rows, j): the stack is lent to be written and the tables to be read, so a struct of them would be taken apart in each function; and what is asked of the number of rows and of the opening is asked of them with the numbers on the stack, so no type of the two alone could say it; and as places (d, e, out) in the three functions that write a row of the memo, which are computed once and handed on.
#![tactic(auto)]

ghost use denote.Ref.{MutBor};
ghost use Rattle.std.specs.Prelude.{◌≡◌, true, List, ℕ, ◌+◌, ◌-◌, ◌*◌, ◌^◌, ◌<◌, ◌≤◌, min, length, get_or};
ghost use Rattle.base.specs.Filled.{FilledBy};
ghost use Rattle.lane_rows.specs.Layout.{lane_count_lem, mark_count, inf, triangle, level_rows, tables_size, lanes_in, stack_size, suffix_base, place, row_place, mark_place, known_place, memo_place, term_place};
ghost use Rattle.lane_rows.specs.Tables.{value_of, sum_where};
ghost use Rattle.lane_rows.specs.Rows.{lane, sum_lanes, Turned, MinAsks, PlusAsks, AddAsks, Nones, FirstRow, Stack, Put, Past, StepAsks, Stepped, FoursAsks, Looks, Known, Recalled, Learnt, Looked, next_row, Owing, Settled};
ghost use Rattle.model.specs.Limits.{most_openings};

use branch::Bound;
use model::{MARKS, OPENINGS, PARTS};

// A row has room for a lane for each part.
pub const LANES: usize = PARTS;

// The number for a missing price.
// Kept as a number: rows of Options would be no lanes of 32 bits, of which the machine takes four at a time.
pub const INF: u32 = 1030000000;

// A block of the tables is a triangle: level j has the marks 0 to j, since no mark is above the number of openings decided.
pub const BLOCK_ROWS: usize = MARKS * (MARKS + 1) / 2;

// How many numbers a block has.
const BLOCK: usize = BLOCK_ROWS * LANES;

// The tables have regions one behind the other; each of these constants says where one starts.

// The block of suffix prices: a lane's least price from an opening on, after a mark.
pub const SUFFIXES: usize = 0;

// The block of reach: 0 where an opening is in reach of a mark, else INF.
pub const REACHES: usize = SUFFIXES + BLOCK;

// Each lane's price at each opening.
pub const PRICES: usize = REACHES + BLOCK;

// The fee of each opening.
pub const FEES: usize = PRICES + OPENINGS * LANES;

// How many openings the job has.
pub const COUNT: usize = FEES + OPENINGS;

// How many fours of lanes the job has.
pub const FOURS: usize = COUNT + 1;

// The term of E4 for each level and each mark of the last yes.
pub const TERMS: usize = FOURS + 1;

// How many numbers the tables have.
pub const TABLES: usize = TERMS + BLOCK_ROWS;

// The stack begins with its rows, and has regions behind them; each of these constants says where one starts.

// The mark of each row.
pub const ROW_MARKS: usize = MARKS * LANES;

// Which rows of the memo are known: 1 for each that is, by the number of rows and the level.
pub const KNOWN: usize = ROW_MARKS + MARKS;

// The memo, which has a row for each level and each number of rows from none to one more than the level's.
pub const MEMO: usize = KNOWN + (MARKS + 1) * MARKS;

// How many numbers the stack has, with a row's room behind the memo.
pub const STACK: usize = MEMO + (MARKS + 1) * (MARKS + 2) / 2 * LANES + LANES;

// How many rows of a triangle stand before level j's.
pub fn row_of(j: usize) -> usize
    requires { j ≤ mark_count }
    ensures rows { result ≡ triangle j }
    ensures few { result < level_rows (mark_count + 1) }
{
    j * (j + 1) / 2
}

// The number that stands j past the start of a region.
// Kept as a cast, as those of a mark and of the number of fours below, and the one of a row's mark as it is written: on a machine of 16 bits a usize has no room for a u32, and elsewhere it may be more than a u32 holds, so the library has no From either way.
pub fn cell(t: &[u32; TABLES], start: usize, j: usize) -> usize
    requires { start + j < tables_size }
    ensures { result ≡ get_or t.now (start + j) 0 }
{
    t[start + j] as usize
}

// E4's term where j openings are decided and mark i is that of the last yes.
pub fn term(t: &[u32; TABLES], j: usize, i: usize) -> u64
    requires { (i ≤ j) × (j ≤ most_openings) }
    ensures { result ≡ get_or t.now (term_place j i) 0 }
{
    let row = row_of(j);
    u64::from(t[TERMS + (row + i)])
}

// The mark of the last yes, of the `rows` that are there.
pub fn last_mark(w: &[u32; STACK], rows: usize) -> usize
    requires { (0 < rows) × (rows ≤ mark_count) }
    ensures { result ≡ get_or w.now (mark_place (rows - 1)) 0 }
{
    w[ROW_MARKS + (rows - 1)] as usize
}

// So many lanes, each turned into what `f` says of its place and of what it holds.
pub fn turn<F: Fn(usize, u32) -> u32>(fours: usize, acc: &mut [u32], f: F)
    requires room { (fours ≤ 4) × (lane_count_lem ≤ length acc.old) }
    requires calls { (q : ℕ) → q < fours * 4 → F.pre f q (get_or acc.old q 0) }
    ensures size { length acc.new ≡ length acc.old }
    ensures lanes { (q : ℕ) → q < fours * 4 → F.post f q (get_or acc.old q 0) (get_or acc.new q 0) }
{
    for (q, lane) in acc[..fours * 4].iter_mut().enumerate() {
        *lane = f(q, *lane);
    }
}

// Calls `f` with the number of fours, named in each call, so that `f` is compiled for each number alone; and with what it writes to.
pub fn by_fours<R, F: FnOnce(usize, &mut [u32]) -> R>(fours: u32, w: &mut [u32], f: F) -> R
    requires few { (0 < fours) × (fours ≤ 4) }
    requires calls { (p : MutBor (List ℕ)) → p.now ≡ w.old → F.pre f fours p }
    ensures { (p : MutBor (List ℕ)) × (q : MutBor (List ℕ)) × (p.now ≡ w.old) × (q.now ≡ w.new) × F.post f fours p result q }
{
    match fours {
        1 => f(1, w),
        2 => f(2, w),
        3 => f(3, w),
        _ => f(4, w),
    }
}

// Each lane's least of what it holds and a row's sum.
fn min_row(fours: usize, d: &[u32], e: &[u32], acc: &mut [u32])
    requires { MinAsks fours d.now e.now acc.old }
    ensures { Turned (fours * 4) (λ (q : ℕ). min (get_or acc.old q 0) (get_or d.now q 0 + get_or e.now q 0)) acc.old acc.new }
{
    turn(fours, acc, |p, v| v.min(d[p] + e[p]));
}

// Each lane with its price in a row of prices.
fn plus_row(fours: usize, prices: &[u32], acc: &mut [u32])
    requires { PlusAsks fours prices.now acc.old }
    ensures { Turned (fours * 4) (λ (q : ℕ). get_or acc.old q 0 + get_or prices.now q 0) acc.old acc.new }
{
    turn(fours, acc, |p, v| v + prices[p]);
}

// The lanes are stored as the row that starts at `at`.
pub fn store_row(fours: usize, acc: &[u32], at: usize, w: &mut [u32])
    requires { (fours ≤ 4) × (lane_count_lem ≤ length acc.now) × (at + lane_count_lem ≤ length w.old) }
    ensures { FilledBy (λ (q : ℕ). at + q) (λ (q : ℕ). get_or acc.now q 0) (fours * 4) w.old w.new }
{
    w[at..at + fours * 4].copy_from_slice(&acc[..fours * 4]);
}

// The sum of all lanes, in four sums that stay within 32 bits.
// Kept as a loop over places: chunks_exact would hand over a four, whose places would still be named one by one, and of which no more is known than that it is one of a list of references.
pub fn total(fours: usize, acc: &[u32]) -> u64
    requires { (fours ≤ 4) × (lane_count_lem ≤ length acc.now) × ((q : ℕ) → q < fours * 4 → get_or acc.now q 0 ≤ inf) }
    ensures { result ≡ sum_lanes (fours * 4) (λ (q : ℕ). get_or acc.now q 0) }
{
    let mut a: u32 = 0;
    let mut b: u32 = 0;
    let mut c: u32 = 0;
    let mut d: u32 = 0;
    for k in 0..fours {
        a = a + acc[k * 4];
        b = b + acc[k * 4 + 1];
        c = c + acc[k * 4 + 2];
        d = d + acc[k * 4 + 3];
    }
    u64::from(a) + u64::from(b) + u64::from(c) + u64::from(d)
}

// The price that a sum of lanes stands for.
pub fn value(s: u64) -> Bound
    ensures { result ≡ value_of s }
{
    Bound::below(s, u64::from(INF))
}

// Row n, whose mark is i, is taken into the lanes, with the block from `base` on, at opening j.
fn add_row(
    fours: usize,
    t: &[u32],
    w: &[u32],
    base: usize,
    j: usize,
    i: usize,
    n: usize,
    acc: &mut [u32],
)
    requires { AddAsks fours t.now w.now base j i n acc.old }
    ensures { Turned (fours * 4) (λ (q : ℕ). min (get_or acc.old q 0) (get_or w.now (row_place n q) 0 + get_or t.now (place base j i q) 0)) acc.old acc.new }
{
    let row = row_of(j);
    let at = base + (row + i) * LANES;
    min_row(
        fours,
        &w[n * LANES..n * LANES + LANES],
        &t[at..at + LANES],
        acc,
    );
}

// Each lane over the first `rows` rows, from lanes that hold nothing.
// Kept as a loop over places: a row's number says where its lanes stand, and its mark stands in another part of the stack, so an iterator over the marks would be numbered again.
fn least_rows(
    fours: usize,
    t: &[u32],
    w: &[u32],
    base: usize,
    j: usize,
    rows: usize,
    acc: &mut [u32],
)
    requires { (Stack (fours * 4) t.now w.now base j rows) × (lane_count_lem ≤ length acc.old) × ((q : ℕ) → q < fours * 4 → get_or acc.old q 0 ≡ inf) }
    ensures { Turned (fours * 4) (λ (q : ℕ). lane t.now w.now base j q rows) acc.old acc.new }
{
    for n in 0..rows {
        let i = w[ROW_MARKS + n] as usize;
        add_row(fours, t, w, base, j, i, n, acc);
    }
}

// So many lanes of the memo's row at `out`, from the one before it, the stack's row at d and the table's at e; and their sum.
fn step_lanes(fours: usize, t: &[u32], w: &mut [u32], d: usize, e: usize, out: usize) -> u64
    requires { StepAsks (fours * 4) t.now w.old d e out }
    ensures { Stepped (fours * 4) t.now w.old w.new d e out result }
{
    let before = out - LANES;
    let mut acc = [INF; LANES];
    store_row(fours, &w[before..before + LANES], 0, &mut acc);
    min_row(fours, &w[d..d + LANES], &t[e..e + LANES], &mut acc);
    store_row(fours, &acc, out, w);
    total(fours, &acc)
}

// The memo's row at `out`, and its sum.
fn step_row(t: &[u32; TABLES], w: &mut [u32; STACK], d: usize, e: usize, out: usize) -> u64
    requires { StepAsks (lanes_in t.now) t.now w.old d e out }
    ensures { Stepped (lanes_in t.now) t.now w.old w.new d e out result }
{
    by_fours(t[FOURS], w, |fours, w| step_lanes(fours, t, w, d, e, out))
}

// The memo's row at `out` and its sum, one four of lanes after the other: less code than one for each number of fours.
// Kept as a loop over places: each four of the memo's row is written from fours of three other rows, two of which stand in the array that is written (the memo's row before it, the stack's) and one in the tables.
fn step_fours(t: &[u32; TABLES], w: &mut [u32; STACK], d: usize, e: usize, out: usize) -> u64
    requires { FoursAsks t.now w.old d e out }
    ensures { Stepped (lanes_in t.now) t.now w.old w.new d e out result }
{
    let fours = t[FOURS] as usize;
    let mut sum: u64 = 0;
    for k in 0..fours {
        let four = step_lanes(1, t, w, d + k * 4, e + k * 4, out + k * 4);
        sum = sum + four;
    }
    sum
}

// The memo learns its row for level j and the first m + 1 rows, where it knows that for the first m, by the code for each number of fours or by one four after the other; its sum.
fn learn<const WHOLE: bool>(t: &[u32; TABLES], w: &mut [u32; STACK], m: usize, j: usize) -> u64
    requires { ((n : ℕ) × Looks t.now w.old n j × (m < n)) × Known w.old m j }
    ensures { (n : ℕ) → Looks t.now w.old n j → m < n → Learnt t.now w.old w.new n m j result }
{
    let i = w[ROW_MARKS + m] as usize;
    let row = row_of(j);
    let level = row + (j + 1);
    w[KNOWN + (m + 1) * MARKS + j] = 1;
    let d = m * LANES;
    let e = SUFFIXES + (row + i) * LANES;
    let out = MEMO + (level + (m + 1)) * LANES;
    if WHOLE {
        return step_row(t, w, d, e, out);
    }
    step_fours(t, w, d, e, out)
}

// How many rows, below the top one, the memo knows at level j; of none it knows always.
fn known_rows(w: &[u32; STACK], rows: usize, j: usize) -> usize
    requires { (0 < rows) × (rows ≤ mark_count) × (j ≤ most_openings) }
    ensures { (result < rows) × Known w.now result j }
{
    (1..rows)
        .rev()
        .find(|m| w[KNOWN + *m * MARKS + j] == 1)
        .unwrap_or(0)
}

// The memo learns what it lacks at level j, one row after the other; the top row's sum is handed over.
fn look<const WHOLE: bool>(t: &[u32; TABLES], w: &mut [u32; STACK], rows: usize, j: usize) -> u64
    requires { Looks t.now w.old rows j }
    ensures { Looked t.now w.old w.new rows j result }
{
    let known = known_rows(w, rows, j);
    let mut sum = 0;
    for m in known..rows {
        sum = learn::<WHOLE>(t, w, m, j);
    }
    sum
}

// The top row's sum at level j, where the memo learns what it lacks one four of lanes after the other: for the walk with holders, so that the walk without them has its look to itself, in its own code.
pub fn look_by_fours(t: &[u32; TABLES], w: &mut [u32; STACK], rows: usize, j: usize) -> u64
    requires { Looks t.now w.old rows j }
    ensures { Looked t.now w.old w.new rows j result }
{
    look::<false>(t, w, rows, j)
}

// The sum of all lanes where opening j is the first undecided one.
pub fn lane_sum(t: &[u32; TABLES], w: &mut [u32; STACK], rows: usize, j: usize) -> u64
    requires { Looks t.now w.old rows j }
    ensures sum { result ≡ sum_lanes (lanes_in t.now) (λ (q : ℕ). lane t.now w.old suffix_base j q rows) }
    ensures frame { Recalled t.now w.old w.new rows }
{
    look::<true>(t, w, rows, j)
}

// The part sums where nothing is decided: the tables' first row; Missing exactly where the term there, which is handed over, is.
pub fn first_sums(t: &[u32; TABLES], due: u64) -> Bound
    requires { (lanes_in t.now ≤ lane_count_lem) × ((q : ℕ) → q < lanes_in t.now → get_or t.now q 0 ≤ inf) }
    ensures { result ≡ sum_where due (sum_lanes (lanes_in t.now) (λ (q : ℕ). get_or t.now q 0)) }
{
    if due < u64::from(INF) {
        return Bound::Sum(total(t[FOURS] as usize, t));
    }
    Bound::Missing
}

// The row of opening j, decided yes, above the `rows` that are there: so many lanes of it.
pub fn next_lanes(fours: usize, t: &[u32], w: &[u32], j: usize, rows: usize, acc: &mut [u32])
    requires { (Owing (fours * 4) t.now w.now j rows) × (lane_count_lem ≤ length acc.old) × ((q : ℕ) → q < fours * 4 → get_or acc.old q 0 ≡ inf) }
    ensures { Turned (fours * 4) (next_row t.now w.now j rows) acc.old acc.new }
{
    least_rows(fours, t, w, REACHES, j, rows, acc);
    let at = PRICES + j * LANES;
    plus_row(fours, &t[at..at + LANES], acc);
}

// The lanes of the next row are written onto the stack, with its mark.
fn put_lanes(fours: usize, t: &[u32], w: &mut [u32], j: usize, rows: usize)
    requires { Owing (fours * 4) t.now w.old j rows }
    ensures put { Put (fours * 4) (next_row t.now w.old j rows) w.old w.new rows (j + 1) }
    ensures frame { Past w.old w.new }
{
    let mut acc = [INF; LANES];
    next_lanes(fours, t, w, j, rows, &mut acc);
    store_row(fours, &acc, rows * LANES, w);
    w[ROW_MARKS + rows] = (j + 1) as u32;
}

// The row of opening j, decided yes, above the `rows` that are there.
fn put_row(t: &[u32], w: &mut [u32], j: usize, rows: usize)
    requires { Owing (lanes_in t.now) t.now w.old j rows }
    ensures put { Put (lanes_in t.now) (next_row t.now w.old j rows) w.old w.new rows (j + 1) }
    ensures frame { Past w.old w.new }
{
    by_fours(t[FOURS], w, |fours, w| put_lanes(fours, t, w, j, rows));
}

// Nothing is known of the first k rows from a level on: the last of them is new.
pub fn forget(w: &mut [u32], k: usize, from: usize)
    requires { (k ≤ mark_count) × (from ≤ most_openings) × (length w.old ≡ stack_size) }
    ensures { FilledBy (λ (y : ℕ). known_place k (from + y)) (λ (y : ℕ). 0) (mark_count - from) w.old w.new }
{
    let at = KNOWN + k * MARKS;
    w[at + from..at + MARKS].fill(0);
}

// The row that a yes owes is written, where the last decision is a yes (`stop`); how many rows there are then.
// Kept as a flag: a node whose yes is owed and one that is settled are the same in all else, and the test that stands here would stand in the caller, around two calls.
// Kept as slices, with put_row and forget: of a node that is settled nothing is asked, so its slices may have any length, which arrays would fix.
pub fn settle(t: &[u32], w: &mut [u32], at: usize, rows: usize, stop: bool) -> usize
    requires { stop ≡ true → (0 < at) × Owing (lanes_in t.now) t.now w.old (at - 1) rows }
    ensures { Settled t.now w.old w.new at rows result stop }
{
    if stop {
        put_row(t, w, at - 1, rows);
        forget(w, rows + 1, at);
        return rows + 1;
    }
    rows
}

// The memo's row of no rows, at level l.
fn none_row(w: &mut [u32; STACK], l: usize)
    requires { l ≤ most_openings }
    ensures { FilledBy (memo_place l 0) (λ (q : ℕ). inf) lane_count_lem w.old w.new }
{
    let at = MEMO + row_of(l + 1) * LANES;
    w[at..at + LANES].fill(INF);
}

// The memo's rows of no rows.
fn none_rows(w: &mut [u32; STACK])
    ensures { Nones w.old w.new mark_count }
{
    for l in 0..MARKS {
        none_row(w, l);
    }
}

// The row before the first opening: nothing is paid.
pub fn base_row(w: &mut [u32; STACK])
    ensures { FirstRow w.new }
{
    w[..LANES].fill(0);
    w[ROW_MARKS] = 0;
    forget(w, 1, 0);
    none_rows(w);
}
