// What comes out with each part: the part, its holders, their holders and so on.
// What a job's records say of it is in `records`. A set of parts is a row of 16 marks; a matrix has 16 rows one after the other, and row q says something of the part at place q.
// Kept as one array with m, the count of its rows, beside it, whose limit stands in the clauses: the searches take the array alone, and say m once for all their tables.
#![tactic(auto)]

ghost use Rattle.std.specs.Prelude.{◌≡◌, false, ◌≤◌, ◌<◌};
ghost use Rattle.model.specs.Limits.{most_parts};
ghost use Rattle.model.specs.Model.{Job, comes_out};
ghost use Rattle.coming_out.specs.Rows.{Row, Rows, HeldBy, reached, union};

use fill::{matrix_of, row_of};
use model::{PAIRS, PARTS};

pub mod fill;
pub mod records;

// The part at place j stands in the row of one of a set, of m parts.
fn is_reached(matrix: &[bool; PAIRS], m: usize, set: [bool; PARTS], j: usize) -> bool
    requires { (m ≤ most_parts) × (j < most_parts) }
    ensures { result ≡ reached m matrix.now set j }
{
    (0..m).any(|i| set[i] && matrix[i * PARTS + j])
}

// The parts of `own`, and those that stand in the row of one of a set.
pub fn union(
    matrix: &[bool; PAIRS],
    m: usize,
    own: [bool; PARTS],
    set: [bool; PARTS],
) -> [bool; PARTS]
    requires { m ≤ most_parts }
    ensures { Row false (union m matrix.now own set) result }
{
    row_of(m, false, |j| own[j] || is_reached(matrix, m, set, j))
}

// What comes out with the part at place q: as many rounds of holders as there are parts.
fn out_with(holders: &[bool; PAIRS], m: usize, q: usize) -> [bool; PARTS]
    requires { (m ≤ most_parts) × (q < m) }
    ensures { (job : Job) → HeldBy job m holders.now → Row false (comes_out job q) result }
{
    let mut row = [false; PARTS];
    row[q] = true;
    for _ in 0..m {
        row = union(holders, m, row, row);
    }
    row
}

// What comes out with each part.
pub fn come_out(holders: &[bool; PAIRS], m: usize) -> [bool; PAIRS]
    requires { m ≤ most_parts }
    ensures { (job : Job) → HeldBy job m holders.now → Rows m (comes_out job) result }
{
    matrix_of(
        m,
        |q|
            requires { (m ≤ most_parts) × (q < m) }
            ensures { (job : Job) → HeldBy job m holders.entry.now → Row false (comes_out job q) result }
        { out_with(holders, m, q) },
    )
}
