// Numbers of a table, written as a part or as rows.
ghost use Rattle.std.specs.Prelude.{◌≡◌, ℕ, ◌+◌, ◌*◌, ◌<◌, ◌≤◌, length, get_or};
ghost use Rattle.lane_rows.specs.Layout.{mark_count, block_rows};
ghost use Rattle.base.specs.Filled.{FilledBy};
ghost use Rattle.search_tables.specs.Fill.{Triangle, step_place, step_rows};

use lane_rows::row_of;

// Puts numbers into a table, from `at` on.
// Kept as a loop, as in `line_writing::write::put_bytes`: a copy of a slice would be a call of `memmove`.
pub fn put_at(t: &mut [u32], at: usize, from: &[u32])
    requires { at + length from.now ≤ length t.old }
    ensures { FilledBy (λ (y : ℕ). at + y) (λ (y : ℕ). get_or from.now y 0) (length from.now) t.old t.new }
{
    for (i, number) in from.iter().enumerate() {
        t[at + i] = *number;
    }
}

// So many numbers of a table are 0, from `at` on.
pub fn clear(t: &mut [u32], at: usize, n: usize)
    requires { at + n ≤ length t.old }
    ensures { FilledBy (λ (y : ℕ). at + y) (λ (y : ℕ). 0) n t.old t.new }
{
    t[at..at + n].fill(0);
}

// The first n numbers of a row, which begins at `at` and has its numbers `stride` apart, each turned into what `f` says of its place in the row and of what it holds.
// Kept as a loop over places: they stand `stride` apart, and what is written through a stepped iterator the library doesn't say.
pub(crate) fn turn_row<F: Fn(usize, u32) -> u32>(
    n: usize,
    at: usize,
    stride: usize,
    t: &mut [u32],
    f: F,
)
    requires room { at + n * stride < length t.old + stride }
    requires apart { 0 < stride }
    requires calls { (i v : ℕ) → i < n → F.pre f i v }
    ensures { (g : ℕ → ℕ) → ((i v : ℕ) → i < n → F.post f i (get_or t.old (step_place at stride i) 0) v → v ≡ g i) → FilledBy (step_place at stride) g n t.old t.new }
{
    for i in 0..n {
        let p = at + i * stride;
        t[p] = f(i, t[p]);
    }
}

// The first m rows of a triangle, which begins at `base` and has its numbers `stride` apart, each number turned into what `f` says of its row, its place in the row and of what it holds.
// Kept as a range: the rows stand in one slice, and each is longer by one than the row before it.
pub(crate) fn turn_rows<F: Fn(usize, usize, u32) -> u32>(
    m: usize,
    base: usize,
    stride: usize,
    t: &mut [u32],
    f: F,
)
    requires few { m ≤ mark_count }
    requires room { base + block_rows * stride ≤ length t.old }
    requires apart { 0 < stride }
    requires calls { (j i v : ℕ) → i ≤ j → j < m → F.pre f j i v }
    ensures { (g : ℕ → ℕ → ℕ) → ((j i v : ℕ) → i ≤ j → j < m → F.post f j i (get_or t.old (step_rows base stride j i) 0) v → v ≡ g j i)
        → Triangle (step_rows base stride) g m t.old t.new }
{
    for j in 0..m {
        turn_row(
            j + 1,
            base + row_of(j) * stride,
            stride,
            t,
            |i, v|
                requires { F.pre f j i v }
                ensures { F.post f j i v result }
            { f(j, i, v) },
        );
    }
}
