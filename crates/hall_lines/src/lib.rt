// A line of a hall at its own nodes. Beside the line's rows a table has for each number of openings decided, a level, the rows, part sums, term and stops there. A decision writes the next level and none before it.
#![tactic(auto)]

ghost use Rattle.std.specs.Prelude.{◌≡◌, List, Bool, ℕ, ◌+◌, ◌*◌, ◌^◌, ◌<◌, ◌≤◌};
ghost use Rattle.branch.specs.declared.Bound.TheVariants.{Sum};
ghost use Rattle.model.specs.Limits.{most_openings, most_parts};
ghost use Rattle.held_rows.specs.Held.{HeldSheet};
ghost use Rattle.hall_lines.specs.declared.LineRows.{LineRows};
ghost use Rattle.hall_lines.specs.Room.{most_own};
ghost use Rattle.hall_lines.specs.Lines.{tables_by, looks, first_stop_lem, stays_s, out_s, Opening, Removing, Decided, Answers, itself, NoFound, StopFound, StayFound, OutFound, LineSettled};

pub mod line_test;

use branch::Bound;
use held_lanes::{
    ASIDE, HELD, NEED_LANES, READY, REMOVALS, TOPS, number, opening_term, removal_term,
};
use held_nodes::{no_sums, stay_sums};
use held_stops::settle_stop;
use lane_rows::{FEES, STACK, TABLES};
use line_test::LineTest;

// What is only read of a line: its tables, and those of its holders.
// Kept as two arrays: each has a layout of its own, and what reads one alone is lent that one.
// Kept apart from the line's rows and its level in each function below: the tables are read and the rows are written, and a struct of both would have to say of each call that the tables stay.
#[derive(Drop)]
pub struct LineTables {
    pub t: [u32; TABLES],
    pub u: [u32; HELD],
}

// A line's numbers where so many openings are decided: its rows, part sums, term and stops, the latest in the lowest bit.
#[derive(Clone, Copy)]
pub struct Level {
    pub rows: usize,
    pub sums: u64,
    pub term: u64,
    pub mask: u64,
}

// How many levels a line has: at most 64 openings are decided.
pub const LEVELS: usize = 65;

// What is written of a line: its rows, what stands beside them, and its levels.
// Kept as arrays with the number of rows in the level: no heap, fixed memory.
#[derive(Drop)]
pub struct LineRows {
    pub w: [u32; STACK],
    pub v: [u32; ASIDE],
    pub n: [Level; LEVELS],
}

// A stop whose removals are being decided: how many are, the lanes that it is shut to, the removals, the latest in the lowest bit, and its part sums and term.
#[derive(Clone, Copy)]
pub struct Stop {
    pub next: usize,
    pub shut: usize,
    pub removed: usize,
    pub sums: u64,
    pub term: u64,
}

impl Stop {
    // The next holding part is not removed: the stop is shut to these lanes then, and has these part sums and this term.
    fn stays(self, shut: usize, sums: u64, term: u64) -> Stop
        requires { (self.next < most_parts) × (self.removed * 2 < 2 ^ 64) }
        ensures { result ≡ stays_s self shut sums term }
    {
        Stop {
            next: self.next + 1,
            shut,
            removed: self.removed * 2,
            sums,
            term,
        }
    }

    // The next holding part is removed: lanes, part sums and term are as before.
    fn out(self) -> Stop
        requires { (self.next < most_parts) × (self.removed * 2 + 1 < 2 ^ 64) }
        ensures { result ≡ out_s self }
    {
        Stop {
            next: self.next + 1,
            removed: self.removed * 2 + 1,
            ..self
        }
    }
}

impl LineTest {
    // The hall's estimate of a node below with these part sums, where so much else is due of the line, if it is walked on.
    fn opened(self, due: u64, sums: u64) -> Option<u64>
        requires { due + sums ≤ most_own }
        ensures { Answers itself self.limit (self.rest + due) (Sum sums) self.s result }
    {
        let due = self.rest + due;
        let Bound::Sum(_) = self.s.open(self.limit, due, Bound::Sum(sums)) else {
            return None;
        };
        Some(due + sums)
    }
}

// No stop at the line's next opening: the hall's estimate then, if it is walked on.
// Kept beside line_stays: each has its own term and its own part sums, over other tables, and what they do with both is three lines.
pub fn line_no(tables: &LineTables, own: &mut LineRows, at: usize, test: LineTest) -> Option<u64>
    requires { (sheet : HeldSheet) × ((ds : List (List Bool)) × ((paid : ℕ) × Opening sheet ds tables.now own.old at paid)) }
    ensures { (sheet : HeldSheet) (ds : List (List Bool)) (paid : ℕ) → Opening sheet ds tables.now own.old at paid
        → NoFound sheet ds tables.now own.old own.new at paid test.limit test.rest test.s result }
{
    let l = own.n[at];
    let h = opening_term(&tables.u, &own.v, at + 1, l.rows - 1);
    let Bound::Sum(y) = no_sums(
        &tables.t,
        &mut own.w,
        test.limit,
        test.rest,
        l.rows,
        at + 1,
        h,
        l.sums,
        test.s,
    ) else {
        return None;
    };
    // Kept as a cast: the library has no From of usize.
    let term = h as u64;
    own.n[at + 1] = Level {
        rows: l.rows,
        sums: y,
        term,
        mask: l.mask * 2,
    };
    Some(test.rest + term + y)
}

// A stop at the line's next opening, before any removal.
pub fn first_stop(tables: &LineTables, own: &LineRows, at: usize) -> Stop
    requires { at < most_openings }
    ensures { result ≡ first_stop_lem tables.now.u own.now.n at }
{
    Stop {
        next: 0,
        shut: 0,
        removed: 0,
        sums: own.n[at].sums,
        term: u64::from(tables.u[TOPS + (at + 1)]),
    }
}

// A stop at the line's next opening: the hall's estimate then, if it is walked on. Its row is noted as not ready; the rows themselves are not looked at.
pub fn line_stop(tables: &LineTables, own: &mut LineRows, at: usize, test: LineTest) -> Option<u64>
    requires { (w : List ℕ) × ((sheet : HeldSheet) × ((ds : List (List Bool)) × ((paid : ℕ) × Opening sheet ds tables.now (looks own.old w) at paid))) }
    ensures found { (w : List ℕ) (sheet : HeldSheet) (ds : List (List Bool)) (paid : ℕ) → Opening sheet ds tables.now (looks own.old w) at paid
        → StopFound sheet ds tables.now (looks own.old w) (looks own.new w) at paid test.limit test.rest test.s result }
    ensures rows { own.new.w ≡ own.old.w }
{
    let l = own.n[at];
    let due = u64::from(tables.t[FEES + at]) + u64::from(tables.u[TOPS + (at + 1)]);
    let total = test.opened(due, l.sums)?;
    own.v[READY + l.rows] = 0;
    Some(total)
}

// A removal decided, where the node below is walked on: the stop then, and the hall's estimate.
#[derive(Clone, Copy)]
pub struct Decision {
    pub stop: Stop,
    pub total: u64,
}

// The next holding part is not removed.
pub fn line_stays(
    tables: &LineTables,
    own: &mut LineRows,
    at: usize,
    p: Stop,
    test: LineTest,
) -> Option<Decision>
    requires { (sheet : HeldSheet) × ((ds : List (List Bool)) × ((paid : ℕ) × Removing sheet ds tables.now own.old at paid p)) }
    ensures { (sheet : HeldSheet) (ds : List (List Bool)) (paid : ℕ) → Removing sheet ds tables.now own.old at paid p
        → StayFound sheet ds tables.now own.old own.new at paid p test.limit test.rest test.s result }
{
    let l = own.n[at];
    let shut = p.shut | number(&tables.u, NEED_LANES + p.next);
    // Kept as casts, here and of h: the library has no From between u64 and usize.
    let top = p.term as usize;
    let h = removal_term(&tables.u, &own.v, at + 1, l.rows - 1, p.next, top);
    let Bound::Sum(sums) = stay_sums(
        &tables.t,
        &tables.u,
        &mut own.w,
        test.limit,
        test.rest,
        l.rows,
        at + 1,
        shut,
        h,
        p.sums,
        test.s,
    ) else {
        return None;
    };
    let term = h as u64;
    let stop = p.stays(shut, sums, term);
    let total = test.rest + term + sums;
    Some(Decision { stop, total })
}

// The next holding part is removed.
pub fn line_out(u: &[u32; HELD], p: Stop, test: LineTest) -> Option<Decision>
    requires { (t : List ℕ) × ((sheet : HeldSheet) × ((ds : List (List Bool)) × ((o : LineRows) × ((at : ℕ) × ((paid : ℕ) × Removing sheet ds (tables_by t u.now) o at paid p))))) }
    ensures { (t : List ℕ) (sheet : HeldSheet) (ds : List (List Bool)) (o : LineRows) (at paid : ℕ) → Removing sheet ds (tables_by t u.now) o at paid p
        → OutFound sheet ds (tables_by t u.now) o at paid p test.limit test.rest test.s result }
{
    let due = u64::from(u[REMOVALS + p.next]) + p.term;
    let total = test.opened(due, p.sums)?;
    let stop = p.out();
    Some(Decision { stop, total })
}

// The stop whose removals are decided is settled: the line's next level.
pub fn settle_line(tables: &LineTables, own: &mut LineRows, at: usize, p: Stop)
    requires { (sheet : HeldSheet) × ((ds : List (List Bool)) × ((paid : ℕ) × Decided sheet ds tables.now own.old at paid p)) }
    ensures { (sheet : HeldSheet) (ds : List (List Bool)) (paid : ℕ) → Decided sheet ds tables.now own.old at paid p
        → LineSettled sheet ds tables.now own.old own.new at paid p }
{
    let l = own.n[at];
    settle_stop(
        &tables.t,
        &tables.u,
        &mut own.v,
        &mut own.w,
        at + 1,
        l.rows,
        p.shut,
        p.removed,
    );
    own.n[at + 1] = Level {
        rows: l.rows + 1,
        sums: p.sums,
        term: p.term,
        mask: l.mask * 2 + 1,
    };
}
