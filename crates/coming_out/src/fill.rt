// Rows and matrices of sixteen parts, filled place by place, and row by row.
ghost use Rattle.std.specs.Prelude.{◌≡◌, false, ℕ, List, Bool, ◌*◌, ◌≤◌, ◌<◌, length};
ghost use Rattle.std.proofs.Math.Seq.{paste};
ghost use Rattle.model.specs.Limits.{most_parts};
ghost use Rattle.model.specs.Model.{table};
ghost use Rattle.coming_out.specs.Rows.{Row, Rows};

use model::{PAIRS, PARTS};

// A row whose first m places are what `value` says of them, and d behind them.
pub fn row_of<T: Copy, F: Fn(usize) -> T>(m: usize, d: T, value: F) -> [T; PARTS]
    requires few { m ≤ most_parts }
    requires asked { (i : ℕ) → i < m → F.pre value i }
    ensures { (f : ℕ → T) → ((i : ℕ) (x : T) → i < m → F.post value i x → x ≡ f i) → Row d (table f m) result }
{
    let mut places = [d; PARTS];
    for (i, place) in places[..m].iter_mut().enumerate() {
        *place = value(i);
    }
    places
}

// Puts a row at q.
fn put_row(matrix: &mut [bool; PAIRS], q: usize, row: &[bool; PARTS])
    requires { q < most_parts }
    ensures { (matrix.new ≡ paste matrix.old (q * most_parts) row.now most_parts) × (length row.now ≡ most_parts) }
{
    matrix[q * PARTS..q * PARTS + PARTS].copy_from_slice(row);
}

// A matrix whose first m rows are what `row` says of them.
// Kept as a loop over the rows' numbers: with `chunks_exact_mut` the proof had the iterator and what it lent, and not the matrix as it stands.
pub fn matrix_of<F: Fn(usize) -> [bool; PARTS]>(m: usize, row: F) -> [bool; PAIRS]
    requires few { m ≤ most_parts }
    requires asked { (q : ℕ) → q < m → F.pre row q }
    ensures { (f : ℕ → List Bool) → ((q : ℕ) (xs : List Bool) → q < m → length xs ≡ most_parts → F.post row q xs → Row false (f q) xs) → Rows m f result }
{
    let mut matrix = [false; PAIRS];
    for q in 0..m {
        let marks = row(q);
        put_row(&mut matrix, q, &marks);
    }
    matrix
}
