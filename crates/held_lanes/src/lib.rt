// Lanes where parts hide behind others: sets of lanes, the terms by classes, the last mark of each class.
// Kept as tests in shut_row and stop_row: with lane_rows::by_fours in their place, and turn in pick_row, a node of the job 36_week16_heads_d60 takes 24.6 ns, with these 22.3; turn alone is compiled to the code of a loop.
// Kept as slices: the rows of pick_row, of which callers hand parts of the stack and of what stands beside it, and the lanes, for which an array would ask those outside for that very length.
// Kept as parameters side by side, the tables, the stack and what goes with it (t, u, v, w): each function reads some of them and writes others, so a struct of them would be lent as a whole where one part is written.
#![tactic(auto)]

ghost use Rattle.std.specs.Prelude.{◌≡◌, cond, ℕ, ◌+◌, ◌*◌, ◌^◌, ◌<◌, ◌≤◌, max, eqb, length, get_or};
ghost use Rattle.base.specs.Filled.{FilledBy};
ghost use Rattle.lane_rows.specs.Layout.{lane_count_lem, lanes_in, row_place};
ghost use Rattle.lane_rows.specs.Rows.{Turned, sum_lanes};
ghost use Rattle.held_lanes.specs.Places.{mask_of, most_to, need_count_place, need_class_place, classes_place, last_place};
ghost use Rattle.held_lanes.specs.Tables.{SpreadAsks, PickAsks, ShutAsks, shut_lane, StopAsks, shut_row, ClassAsks, TermAsks, term_of, NoteAsks, noted};

use lane_rows::{BLOCK_ROWS, FOURS, INF, LANES, STACK, TABLES, row_of, store_row, total, turn};
use model::{MARKS, OPENINGS, PARTS};

// The sets that four lanes have.
pub const FOUR_SETS: usize = 16;

// The tables for holders: the terms of the classes start at 0, and each other region where one of these constants says.

// The largest term of each level where every last mark is the opening just decided.
pub const TOPS: usize = BLOCK_ROWS * LANES;

// The removal of each holding part.
pub const REMOVALS: usize = TOPS + MARKS;

// The set of the lanes that need each holding part.
pub const NEED_LANES: usize = REMOVALS + LANES;

// How many classes need each holding part.
pub const NEED_COUNTS: usize = NEED_LANES + LANES;

// Which classes need each holding part: a row of room for each.
pub const NEED_CLASSES: usize = NEED_COUNTS + LANES;

// The masks of each set of four lanes, four numbers each.
pub const MASKS: usize = NEED_CLASSES + LANES * LANES;

// A lane of each class.
pub const LEADS: usize = MASKS + FOUR_SETS * 4;

// How many classes the job has.
pub const CLASSES: usize = LEADS + LANES;

// How many holding parts the job has.
pub const HOLDS: usize = CLASSES + 1;

// How many numbers the tables for holders have.
pub const HELD: usize = HOLDS + 1;

// Beside the stack of rows: the last marks of each class start at 0, a row for each row of the stack, and each other region where one of these constants says.

// The removals decided at each opening, a bit for each holding part.
pub const REMOVED: usize = MARKS * LANES;

// The incumbent's removals at each opening.
pub const BEST: usize = REMOVED + OPENINGS;

// The row of the stop at hand above so many rows, as if it were shut to no lane.
pub const PENDING: usize = BEST + OPENINGS;

// Whether the row of the stop at hand is found, above so many rows.
pub const READY: usize = PENDING + MARKS * LANES;

// How many numbers stand beside the stack.
pub const ASIDE: usize = READY + MARKS;

// How many decisions the name of a node has at most: a stop for each opening, and at each stop the removal of each part.
pub const NAMES: usize = OPENINGS * (PARTS + 1);

// The lanes of a set: INF for each of them, 0 for the others. A lane's number is read off those of its four.
pub fn spread(fours: usize, u: &[u32; HELD], set: usize, acc: &mut [u32])
    requires { SpreadAsks fours u.now acc.old }
    ensures { Turned (fours * 4) (mask_of set) acc.old acc.new }
{
    turn(fours, acc, |q, _| {
        let four = (set >> (q / 4 * 4)) % FOUR_SETS;
        u[MASKS + four * 4 + q % 4]
    });
}

// The second number where there is a mask, else the first.
// Kept as a function of its own: note_lasts picks one number by it, pick_row a whole row, and the library has no method that picks by a mask.
fn pick(mask: u32, yes: u32, no: u32) -> u32
    ensures { result ≡ cond (eqb mask 0) yes no }
{
    if mask == 0 { yes } else { no }
}

// Each lane's number: that of the second row where the lane has a mask, else that of the first.
pub fn pick_row(fours: usize, yes: &[u32], no: &[u32], acc: &mut [u32])
    requires { PickAsks fours yes.now no.now acc.old }
    ensures { Turned (fours * 4) (λ (q : ℕ). cond (eqb (get_or acc.old q 0) 0) (get_or yes.now q 0) (get_or no.now q 0)) acc.old acc.new }
{
    turn(fours, acc, |p, mask| pick(mask, yes[p], no[p]));
}

// The sum of so many lanes of two rows of the stack: the lanes of the set have the number of the second.
fn shut_lanes(
    fours: usize,
    u: &[u32; HELD],
    w: &[u32; STACK],
    yes: usize,
    no: usize,
    set: usize,
) -> u64
    requires { ShutAsks (fours * 4) u.now w.now yes no }
    ensures { result ≡ sum_lanes (fours * 4) (shut_lane w.now yes no set) }
{
    let mut acc = [0; LANES];
    spread(fours, u, set, &mut acc);
    pick_row(fours, &w[yes..yes + LANES], &w[no..no + LANES], &mut acc);
    total(fours, &acc)
}

// So many lanes of the row of a stop, above so many rows, from what it costs where it is allowed: Missing for the lanes of the set.
fn put_lanes(
    fours: usize,
    u: &[u32; HELD],
    v: &[u32; ASIDE],
    w: &mut [u32; STACK],
    rows: usize,
    set: usize,
)
    requires { StopAsks (fours * 4) u.now rows }
    ensures { FilledBy (row_place rows) (shut_row v.now rows set) (fours * 4) w.old w.new }
{
    let mut acc = [0; LANES];
    let infs = [INF; LANES];
    spread(fours, u, set, &mut acc);
    let from = PENDING + rows * LANES;
    pick_row(fours, &v[from..from + LANES], &infs, &mut acc);
    store_row(fours, &acc, rows * LANES, w);
}

// The sum of all lanes of two rows of the stack: the lanes of the set have the number of the second.
pub fn shut_row(
    t: &[u32; TABLES],
    u: &[u32; HELD],
    w: &[u32; STACK],
    yes: usize,
    no: usize,
    set: usize,
) -> u64
    requires { ShutAsks (lanes_in t.now) u.now w.now yes no }
    ensures { result ≡ sum_lanes (lanes_in t.now) (shut_lane w.now yes no set) }
{
    let fours = t[FOURS];
    if fours < 2 {
        return shut_lanes(1, u, w, yes, no, set);
    }
    if fours < 3 {
        return shut_lanes(2, u, w, yes, no, set);
    }
    if fours < 4 {
        return shut_lanes(3, u, w, yes, no, set);
    }
    shut_lanes(4, u, w, yes, no, set)
}

// The row of a stop, above so many rows: Missing for the lanes of the set.
pub fn stop_row(
    t: &[u32; TABLES],
    u: &[u32; HELD],
    v: &[u32; ASIDE],
    w: &mut [u32; STACK],
    rows: usize,
    set: usize,
)
    requires { StopAsks (lanes_in t.now) u.now rows }
    ensures { FilledBy (row_place rows) (shut_row v.now rows set) (lanes_in t.now) w.old w.new }
{
    let fours = t[FOURS];
    if fours < 2 {
        put_lanes(1, u, v, w, rows, set);
        return;
    }
    if fours < 3 {
        put_lanes(2, u, v, w, rows, set);
        return;
    }
    if fours < 4 {
        put_lanes(3, u, v, w, rows, set);
        return;
    }
    put_lanes(4, u, v, w, rows, set);
}

// The number at a place.
// Kept beside lane_rows::cell: that one reads the tables, whose size a type says, this one any slice. Kept as a cast: on a machine of 16 bits a usize has no room for a u32, so the library has no From.
pub fn number(s: &[u32], i: usize) -> usize
    requires { (i < length s.now) × (length s.now ≤ 2 ^ 32) }
    ensures value { result ≡ get_or s.now i 0 }
    ensures small { result < 2 ^ 32 }
{
    s[i] as usize
}

// The term of class c at level j, whose numbers start at `level`, with the last marks of row r.
fn class_term(u: &[u32; HELD], v: &[u32; ASIDE], level: usize, r: usize, c: usize) -> usize
    requires { ClassAsks v.now level r c }
    ensures { result ≡ get_or u.now (level + get_or v.now (last_place r c) 0) 0 }
{
    let o = number(v, r * LANES + c);
    number(u, level + o)
}

// The largest term of the classes at level j, with the last marks of row r.
pub fn opening_term(u: &[u32; HELD], v: &[u32; ASIDE], j: usize, r: usize) -> usize
    requires { TermAsks u.now v.now j r }
    ensures { result ≡ most_to (term_of u.now v.now j r) (get_or u.now classes_place 0) }
{
    let level = row_of(j) * LANES;
    (0..number(u, CLASSES))
        .map(|c| class_term(u, v, level, r, c))
        .max()
        .unwrap_or(0)
}

// The larger of g and of the terms of the classes that need the holding part b.
// Kept as a cast, as in number.
pub fn removal_term(
    u: &[u32; HELD],
    v: &[u32; ASIDE],
    j: usize,
    r: usize,
    b: usize,
    g: usize,
) -> usize
    requires term_asks { TermAsks u.now v.now j r }
    requires b_lt_lane_count { (b < lane_count_lem) × (get_or u.now (need_count_place b) 0 ≤ lane_count_lem) × ((i : ℕ) → i < get_or u.now (need_count_place b) 0 → get_or u.now (need_class_place b i) 0 < get_or u.now classes_place 0) }
    ensures { result ≡ max g (most_to (λ (i : ℕ). term_of u.now v.now j r (get_or u.now (need_class_place b i) 0)) (get_or u.now (need_count_place b) 0)) }
{
    let level = row_of(j) * LANES;
    let at = NEED_CLASSES + b * LANES;
    u[at..at + number(u, NEED_COUNTS + b)]
        .iter()
        .map(|c| class_term(u, v, level, r, *c as usize))
        .fold(g, usize::max)
}

// The last mark of each class above so many rows, where a stop leaves `at` openings decided: the classes that it is shut to keep theirs.
// Kept as a loop over places: the row that is written and the one above which it stands are parts of one array, so slices of both would be split off first, and a class is asked for by its number besides. Kept as a cast: a usize may be more than a u32 holds, so the library has no From; there are 1,040 offsets at most.
pub fn note_lasts(u: &[u32; HELD], v: &mut [u32; ASIDE], at: usize, rows: usize, set: usize)
    requires { NoteAsks u.now at rows }
    ensures { FilledBy (last_place rows) (noted u.now v.old at rows set) (get_or u.now classes_place 0) v.old v.new }
{
    let mut m = [0; LANES];
    spread(4, u, set, &mut m);
    let n = number(u, CLASSES);
    for c in 0..n {
        let lead = number(u, LEADS + c);
        let old = v[(rows - 1) * LANES + c];
        v[rows * LANES + c] = pick(m[lead], (at * LANES + c) as u32, old);
    }
}
