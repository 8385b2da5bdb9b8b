// E4's terms: for each number of decided openings and each mark of the last yes, the largest over the parts of the least fee of what is undecided.
ghost use Rattle.std.specs.Prelude.{ℕ, ◌+◌, ◌*◌, ◌<◌, ◌≤◌, max, length, get_or};
ghost use Rattle.least.specs.Suffix.{table_size};
ghost use Rattle.lane_rows.specs.Layout.{mark_count, block_rows};
ghost use Rattle.search_tables.specs.Arrays.{lane_part, column_of};
ghost use Rattle.search_tables.specs.Fill.{Triangle, step_rows, own_of, Raised, Terms};
ghost use Rattle.search_tables.specs.Flat.{sheet_in};

use crate::flat::FlatJob;
use crate::rows::{clear, turn_rows};
use crate::tables::own;
use lane_rows::{TABLES, TERMS, row_of};
use model::OPENINGS;

// The first m rows of a triangle are raised to those of a part's own table; the triangle begins at `base` and has its numbers `stride` apart.
// Kept as slices with their room in the clauses, here and below, as in `tables`.
fn raise_rows(tab: &[u64], m: usize, base: usize, stride: usize, t: &mut [u32])
    requires few { m ≤ mark_count }
    requires own { table_size ≤ length tab.now }
    requires room { base + block_rows * stride ≤ length t.old }
    requires apart { 0 < stride }
    ensures { Triangle (step_rows base stride) (λ (j i : ℕ). max (get_or t.old (step_rows base stride j i) 0) (own_of tab.now j i)) m t.old t.new }
{
    turn_rows(m, base, stride, t, |j, i, term| term.max(own(tab, j, i)));
}

impl FlatJob<'_> {
    // A triangle of terms is raised to the least fees of part q; it begins at `base` and has its numbers `stride` apart.
    pub fn raise_part(&self, q: usize, base: usize, stride: usize, tab: &mut [u64], t: &mut [u32])
        requires own { table_size ≤ length tab.old }
        requires room { base + block_rows * stride ≤ length t.old }
        requires apart { 0 < stride }
        ensures { Raised (sheet_in self.now) (column_of (lane_part (length self.now.positions.now) self.now.lives.now self.now.lefts.now self.now.prices.now q)) (step_rows base stride) t.old t.new }
    {
        let all = [true; OPENINGS];
        let n = self.positions.len();
        self.offers(q, self.fees, &all[..n]).fill(tab);
        raise_rows(tab, n + 1, base, stride, t);
    }

    // The terms of the job in the arrays.
    // Kept as a range: q is a part's number, by which `raise_part` reads its numbers from two slices, the lives and the first lives.
    pub fn put_terms(&self, tab: &mut [u64], t: &mut [u32; TABLES])
        requires { table_size ≤ length tab.old }
        ensures { Terms (sheet_in self.now) t.old t.new (length self.now.lives.now) }
    {
        clear(t, TERMS, row_of(self.positions.len() + 1));
        for q in 0..self.lives.len() {
            self.raise_part(q, TERMS, 1, tab, t);
        }
    }
}
