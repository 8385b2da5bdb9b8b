// One part over a job's openings, as the count asks for it: whether a change at all of them keeps it, and the nodes of the walk that drops a node only where a gap is too long.
#![tactic(auto)]

ghost use Rattle.std.specs.Prelude.{◌≡◌, ℕ, ◌+◌, ◌≤◌, ◌<◌, length, get_or};
ghost use Rattle.model.specs.Model.{kept};
ghost use Rattle.model.specs.Limits.{most_count, most_openings};
ghost use Rattle.longest_walk.specs.Count.{in_time_lem, count_from, count_for};
ghost use Rattle.base.specs.Filled.{FilledBy};
ghost use Rattle.model.specs.LastYes.{mark_in};
ghost use Rattle.base.specs.Signed.{Bits31};
ghost use Rattle.node_counts.specs.Row.{sum_of, noted, Row};

use model::MARKS;
use reach::{in_reach, mark};

// The highest number of nodes that is told: it stands for that many or more.
pub const CAP: u64 = 4000000000;

// One part's life, the end, the position of the change before the first opening, and each opening's position.
#[derive(Clone, Copy)]
pub struct PartGaps<'a> {
    pub life: i32,
    pub end: i32,
    pub first: i32,
    pub positions: &'a [i32],
    pub ghost few: { length positions.now ≤ most_openings },
    pub ghost late: { Bits31 end },
    pub ghost small: { (k : ℕ) → Bits31 (mark_in first positions.now k) },
}

// A node and those below it, from no on, or the one node that is dropped where that is not in time, and from yes on; at most the cap.
// Kept with in_time as a value: it is a value of the recurrence, and picks one of two numbers.
fn sum(in_time: bool, declined: u64, stopped: u64) -> u64
    requires { (declined ≤ most_count) × (stopped ≤ most_count) }
    ensures { result ≡ sum_of in_time declined stopped }
{
    let from_no = if in_time { declined } else { 1 };
    CAP.min(1 + from_no + stopped)
}

// Kept with the limits of m and j in the clauses below: a mark and an opening are plain numbers, as in `least`.
impl PartGaps<'_> {
    // The place behind k openings: the next opening's position, or the end.
    fn place(&self, k: usize) -> i32
        ensures { result ≡ get_or self.now.positions.now k self.now.end }
    {
        self.positions.get(k).copied().unwrap_or(self.end)
    }

    // Whether the part is still kept that was changed last at mark m, if its next change is behind k openings.
    fn reaches(&self, m: usize, k: usize) -> bool
        requires { m ≤ length self.now.positions.now }
        ensures { result ≡ in_time_lem self.now.life self.now.end self.now.first self.now.positions.now m k }
    {
        in_reach(
            self.life,
            mark(self.first, self.positions, m),
            self.place(k),
        )
    }

    // Whether changes at all openings keep the part.
    fn keeps(&self) -> bool
        ensures { result ≡ kept self.now.life self.now.end self.now.first self.now.positions.now }
    {
        let n = self.positions.len();
        (0..n).all(|k| self.reaches(k, k)) && self.reaches(n, n)
    }

    // The numbers of the nodes with j openings decided, by the last yes, from those with one more decided.
    // Kept as a loop over the marks: it is the mark that is asked about, and an iterator over a part of the row, counted besides, says that in no fewer words.
    fn put_row(&self, j: usize, row: &mut [u64])
        requires { (j < length self.now.positions.now) × Row (in_time_lem self.now.life self.now.end self.now.first self.now.positions.now) (length self.now.positions.now) (j + 1) row.old }
        ensures { FilledBy (λ (m : ℕ). m) (noted (in_time_lem self.now.life self.now.end self.now.first self.now.positions.now) j row.old) (j + 1) row.old row.new }
    {
        let stopped = row[j + 1];
        for m in 0..j + 1 {
            row[m] = sum(self.reaches(m, j + 1), row[m], stopped);
        }
    }

    // The nodes from the first on, where it is not dropped: row by row, from the last opening back.
    // Kept as a range that counts down: a row is made of the one with an opening more, and its number is what is asked about.
    fn table(&self) -> u64
        ensures { (result ≡ count_from (in_time_lem self.now.life self.now.end self.now.first self.now.positions.now) (length self.now.positions.now) 0 0) × (result ≤ most_count) }
    {
        let mut row = [1u64; MARKS];
        for j in (0..self.positions.len()).rev() {
            self.put_row(j, &mut row);
        }
        row[0]
    }

    // The count for the part.
    // Kept as a cast: std takes a u64 to a u32 by a Result alone, and no count is above the cap.
    pub fn count(&self) -> u32
        ensures { result ≡ count_for self.now.life self.now.end self.now.first self.now.positions.now }
    {
        if self.keeps() { self.table() as u32 } else { 1 }
    }
}
