// The parts that are somebody's holder, as a search asks for them: their places, their removals, and which of them come out with each part.
// A set of parts is a row of 16 marks; a matrix has 16 rows one after the other, as in `coming_out`.
#![tactic(auto)]

ghost use Rattle.std.specs.Prelude.{◌≡◌, false, map, ℕ, ◌≤◌, ◌<◌, length, get_or, take};
ghost use Rattle.model.specs.Limits.{most_parts};
ghost use Rattle.model.specs.Model.{Job, comes_out, holding, removal_of_lem};
ghost use Rattle.model.specs.Verdict.{part_at};
ghost use Rattle.model.specs.Decisions.{of_holders, charge};
ghost use Rattle.coming_out.specs.Rows.{Row, Rows, HeldBy, Removals};
ghost use Rattle.holding_parts.specs.Places.{places_from, Within, IsHolding};

use coming_out::fill::{matrix_of, row_of};
use coming_out::union;
use model::{PAIRS, PARTS};

pub mod holding;

pub use holding::Holding;

// The places of a set's parts, by rising number.
// Kept with a count beside the loop: how many places are put is known only at its end.
fn places_of(marks: [bool; PARTS]) -> Holding
    ensures { (result.marks ≡ marks) × (take result.count result.places ≡ places_from 0 marks) × Within result }
{
    let mut places = [0usize; PARTS];
    let mut count: usize = 0;
    for (j, marked) in marks.iter().enumerate() {
        if *marked {
            places[count] = j;
            count += 1;
        }
    }
    Holding {
        marks,
        places,
        count,
    }
}

// The parts that are somebody's holder.
pub fn holding_of(holders: &[bool; PAIRS], m: usize) -> Holding
    requires { m ≤ most_parts }
    ensures { Within result × ((job : Job) → HeldBy job m holders.now → IsHolding job result) }
{
    let marks = union(holders, m, [false; PARTS], [true; PARTS]);
    places_of(marks)
}

// Of the parts that are somebody's holder, those in the row of the part at place q.
fn needs_of(outs: &[bool; PAIRS], holding: Holding, q: usize) -> [bool; PARTS]
    requires { q < most_parts }
    ensures { (m : ℕ) (job : Job) → q < m → length job.parts ≡ m → Rows m (comes_out job) outs.now → IsHolding job holding → Row false (of_holders job (comes_out job q)) result }
{
    row_of(
        holding.count,
        false,
        |b| outs[q * PARTS + holding.places[b]],
    )
}

// For each part, of the parts that are somebody's holder, those that come out with it.
pub fn needs(outs: &[bool; PAIRS], m: usize, holding: Holding) -> [bool; PAIRS]
    requires { m ≤ most_parts }
    ensures { (job : Job) → length job.parts ≡ m → Rows m (comes_out job) outs.now → IsHolding job holding → Rows m (λ q. of_holders job (comes_out job q)) result }
{
    matrix_of(
        m,
        |q|
            requires { q < most_parts }
            ensures { (m : ℕ) (job : Job) → q < m → length job.parts ≡ m → Rows m (comes_out job) outs.entry.now → IsHolding job holding → Row false (of_holders job (comes_out job q)) result }
        { needs_of(outs, holding, q) },
    )
}

// The removals of the parts that are somebody's holder, by rising number.
pub fn inner_removals(removals: [u32; PARTS], holding: Holding) -> [u32; PARTS]
    ensures { (job : Job) → Removals job removals → IsHolding job holding → Row 0 (of_holders job (map removal_of_lem job.parts)) result }
{
    row_of(holding.count, 0, |b| removals[holding.places[b]])
}

// What is added to each part's prices: its removal where it holds nobody.
pub fn charges(removals: [u32; PARTS], marks: [bool; PARTS]) -> [u32; PARTS]
    ensures { (job : Job) → Removals job removals → Row false (holding job) marks → (q : ℕ) → q < most_parts → get_or result q 0 ≡ charge job q (part_at job q) }
{
    row_of(PARTS, 0, |q| if marks[q] { 0 } else { removals[q] })
}
