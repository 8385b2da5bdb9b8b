// One part over the openings that are allowed to it: its least price and the change set that the tie rule takes.
#![tactic(auto)]

pub mod offers;

ghost use Rattle.std.specs.Prelude.{◌≡◌, false, ◌&&◌, cond, ◌++◌, ◌+◌, ◌-◌, ◌<◌, ◌≤◌, pos, ◌-ℤ◌, length, get_or, replicate};
ghost use Rattle.std.specs.Int.{w32};
ghost use Rattle.std.proofs.Common.{SFits};
ghost use Rattle.model.specs.Limits.{most_openings};
ghost use Rattle.model.specs.Model.{within};
ghost use Rattle.model.specs.LowerBound.{plus, lower, least_of_lem, choice_of, offers};
ghost use Rattle.model.specs.LastYes.{mark_in};
ghost use Rattle.base.specs.Filled.{FilledBy};
ghost use Rattle.least.specs.Suffix.{table_size, cell, code_of, of_code, changes_by_table, row_of, end_of, Suffixes};

use branch::Bound;
use model::{MARKS, OPENINGS};
use offers::PartOffers;
use reach::{in_reach, mark};

// The suffix table has a row for each opening and one past the last.
pub const TABLE: usize = MARKS * MARKS;

// The table's number for a missing price, 2 ^ 62.
// Kept as a number: a Bound would double the fixed memory of the table that callers lend.
const MISSING: u64 = 4611686018427387904;

// A price as the table's number.
// Kept beside `bound` and not a From of Bound: the number for a missing price is this table's alone.
fn code(e: Bound) -> u64
    ensures { result ≡ code_of e }
{
    match e {
        Bound::Missing => MISSING,
        Bound::Sum(x) => x,
    }
}

// The price that a number of the table stands for.
fn bound(a: u64) -> Bound
    ensures { result ≡ of_code a }
{
    Bound::below(a, MISSING)
}

// A price more than what a number of the table stands for.
fn dearer(price: u32, a: u64) -> Bound
    ensures { result ≡ plus price (of_code a) }
{
    bound(a).plus(u64::from(price))
}

// The lower of two prices, the first where they are equal.
// Kept beside the derived order of Bound: by its `min` a table takes four times as long to fill.
fn lesser(a: Bound, b: Bound) -> Bound
    ensures { result ≡ lower a b }
{
    let Bound::Sum(y) = b else {
        return a;
    };
    match a {
        Bound::Sum(x) if x <= y => a,
        _ => b,
    }
}

// The price with a change at an opening, where a change there with what follows costs `chg`.
// Kept with allowed as a value: it is an entry of the list of what is allowed, and stands in the equation.
pub fn change_at(life: i32, prev: i32, position: i32, allowed: bool, chg: Bound) -> Bound
    requires { SFits w32 (position -ℤ prev) }
    ensures { result ≡ cond (allowed && within life prev position) chg Bound.Missing }
{
    if allowed && in_reach(life, prev, position) {
        chg
    } else {
        Bound::Missing
    }
}

// Kept as slices of any length that is enough in the functions below: an array would ask callers for that very length.
// Kept with the limits of i, j and k in the clauses below: a mark and an opening are plain numbers, and a type of bounded numbers would be taken apart at each index.
impl PartOffers<'_> {
    // What is left to pay with no opening left, after mark i: nothing, or there is no way.
    fn at_end(&self, i: usize) -> Bound
        requires { i ≤ length self.now.positions.now }
        ensures { result ≡ cond (within self.now.life (mark_in self.now.first self.now.positions.now i) self.now.end) (Bound.Sum 0) Bound.Missing }
    {
        if in_reach(self.life, mark(self.first, self.positions, i), self.end) {
            Bound::Sum(0)
        } else {
            Bound::Missing
        }
    }

    // The price with a change at opening j after mark i, where a change there with what follows costs `chg`.
    fn changed(&self, i: usize, j: usize, chg: Bound) -> Bound
        requires { (i ≤ length self.now.positions.now) × (j < length self.now.positions.now) }
        ensures { result ≡ cond (get_or self.now.allowed.now j false && within self.now.life (mark_in self.now.first self.now.positions.now i) (get_or self.now.positions.now j (pos 0))) chg Bound.Missing }
    {
        change_at(
            self.life,
            mark(self.first, self.positions, i),
            self.positions[j],
            self.allowed[j],
            chg,
        )
    }

    // The table's row past the last opening.
    fn fill_end(&self, tab: &mut [u64])
        requires { table_size ≤ length tab.old }
        ensures { FilledBy (cell (length self.now.positions.now)) (end_of self.now.life self.now.end self.now.first self.now.positions.now) (length self.now.positions.now + 1) tab.old tab.new }
    {
        let n = self.positions.len();
        let at = n * MARKS;
        for (i, price) in tab[at..at + n + 1].iter_mut().enumerate() {
            *price = code(self.at_end(i));
        }
    }

    // The table's row j, from row j + 1, where a change at opening j with what follows costs `chg`.
    // Kept as a loop over places: the row that is read stands in the same array, so slices of both would be split off first and zipped, and each place is asked for by its number besides.
    fn fill_row(&self, j: usize, chg: Bound, tab: &mut [u64])
        requires { (table_size ≤ length tab.old) × (j < length self.now.positions.now) }
        ensures { FilledBy (cell j) (row_of self.now.life self.now.first self.now.positions.now j (get_or self.now.allowed.now j false) chg tab.old) (j + 1) tab.old tab.new }
    {
        // A copy of the part, which nothing that is written can change.
        let part = *self;
        for i in 0..j + 1 {
            let skip = bound(tab[(j + 1) * MARKS + i]);
            tab[j * MARKS + i] = code(lesser(skip, part.changed(i, j, chg)));
        }
    }

    // The suffix table: row j, entry i is the least price over the openings from j on, after mark i.
    // Kept as a range that counts down: each row is made of those behind it, in the array that is written.
    pub fn fill(&self, tab: &mut [u64])
        requires { table_size ≤ length tab.old }
        ensures { Suffixes self.now.life self.now.end self.now.first self.now.positions.now self.now.prices.now self.now.allowed.now tab.new 0 }
    {
        self.fill_end(tab);
        for j in (0..self.positions.len()).rev() {
            let chg = dearer(self.prices[j], tab[(j + 1) * MARKS + (j + 1)]);
            self.fill_row(j, chg, tab);
        }
    }

    // The least price of a change set that keeps the part.
    // Kept though no call runs it: it is what W1 to W3 say of one part, and its promise stands in no other function.
    pub fn least(&self, tab: &mut [u64]) -> Bound
        requires { table_size ≤ length tab.old }
        ensures { result ≡ least_of_lem self.now.life self.now.end self.now.first (offers self.now.positions.now self.now.prices.now self.now.allowed.now) }
    {
        self.fill(tab);
        bound(tab[0])
    }

    // Is the part changed at opening k, where mark i is the change before: only if that is strictly lower.
    fn changes(&self, tab: &[u64], i: usize, k: usize) -> bool
        requires { (table_size ≤ length tab.now) × (i ≤ k) × (k < length self.now.positions.now) }
        ensures { result ≡ changes_by_table self.now.life self.now.first self.now.positions.now self.now.prices.now self.now.allowed.now tab.now i k }
    {
        let skip = bound(tab[(k + 1) * MARKS + i]);
        let chg = dearer(self.prices[k], tab[(k + 1) * MARKS + (k + 1)]);
        self.changed(i, k, chg) < skip
    }

    // The change set of least price that the tie rule takes; no change past the last opening.
    pub fn choice(&self, tab: &mut [u64]) -> [bool; OPENINGS]
        requires { table_size ≤ length tab.old }
        ensures { result ≡ choice_of self.now.life self.now.end self.now.first (offers self.now.positions.now self.now.prices.now self.now.allowed.now) ++ replicate (most_openings - length self.now.positions.now) false }
    {
        self.fill(tab);
        let mut out = [false; OPENINGS];
        let mut i = 0;
        for (k, changed) in out[..self.positions.len()].iter_mut().enumerate() {
            *changed = self.changes(tab, i, k);
            if *changed {
                i = k + 1;
            }
        }
        out
    }
}
