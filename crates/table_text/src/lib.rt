// The text of a table: one row behind the other, each made of lines `key=N` and of pieces, which are such a line and N bytes behind it.
#![tactic(auto)]

ghost use Rattle.std.specs.Prelude.{◌≡◌, ℕ, List, ◌+◌, ◌≤◌, length};
ghost use Rattle.table_text.specs.Pieces.{head_at_lem, piece_at, Walks};

use fault_lines::fault::Span;
use lines::read::read_line;

// The most bytes that are read of a table.
pub const MOST: u64 = 524288;

// A line `key=N`: its number, and the place behind it.
// Kept with 0 and the table's end where there is no such line, and not an Option: a row is read on behind it, with nothing for what is missing, so each reader of an Option would write these two numbers itself.
#[derive(Drop)]
pub struct Head {
    pub number: usize,
    pub behind: usize,
}

// The line `key=N` at a place; where there is no such line, 0 and the table's end.
pub fn head_at(table: &[u8], at: usize, key: &[u8]) -> Head
    ensures { (result ≡ head_at_lem table.now at key.now) × (result.behind ≤ length table.now) }
{
    let Some((n, k)) = read_line(&table[at.min(table.len())..], key) else {
        return Head {
            number: 0,
            behind: table.len(),
        };
    };
    // Kept as a cast: std has no `From<u64>` for a usize, and a `try_from` would have an arm that nothing reaches.
    Head {
        number: n as usize,
        behind: at + k,
    }
}

// Where the bytes of the piece at a place stand; where there is no such piece, or not all of its bytes, nothing at the table's end.
// Kept with nothing at the table's end, and not an Option: a row is read on behind a piece that is missing.
pub fn piece_at(table: &[u8], at: usize, key: &[u8]) -> Span
    ensures { (result ≡ piece_at table.now at key.now) × (result.start + result.length ≤ length table.now) }
{
    let head = head_at(table, at, key);
    let start = head.behind;
    let length = head.number;
    if length <= table.len() - start {
        return Span { start, length };
    }
    Span {
        start: table.len(),
        length: 0,
    }
}

// Reads a table of so many bytes row by row: `row` reads the row at a place and answers the place behind it; a row without bytes is the last.
// Kept as a `while`: a row is as long as it tells, so the place rises by varying steps.
pub fn each_row<F: FnMut(usize) -> usize>(size: usize, mut row: F)
    requires { F.IsAlwaysCallable row }
    ensures { (ends : List ℕ) × (last : F) × Walks (λ f at next g. F.step f at next g) size 0 row ends last }
{
    let mut at = 0;
    while at < size {
        let next = row(at);
        at = if at < next { next } else { size };
    }
}
