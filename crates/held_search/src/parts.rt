// The parts of a job with holders in arrays, as their changes at a node are found from them.
ghost use Rattle.std.specs.Prelude.{◌≡◌, length};
ghost use Rattle.held_places.specs.Arrays.{Lanes};

use held_places::needs::Needs;
use held_tables::numbers::HeldNumbers;

// The end, the openings' positions, the parts' lives and first lives, 64 prices for each part, and what the parts need; no fee, price or removal is bounded here.
// Kept as slices side by side: each is lent as the job's numbers have it.
#[derive(Clone, Copy)]
pub struct Parts<'a> {
    pub end: i32,
    pub positions: &'a [i32],
    pub lives: &'a [u32],
    pub lefts: &'a [u32],
    pub prices: &'a [u32],
    pub needs: Needs<'a>,
    pub ghost lanes: { Lanes end positions.now lives.now lefts.now prices.now needs.holding },
}

impl<'a> Parts<'a> {
    // The parts of a job with holders.
    pub fn of(numbers: &HeldNumbers<'a>) -> Parts<'a>
        ensures timed { (result.end ≡ numbers.now.job.end) × (result.positions.now ≡ numbers.now.job.positions.now) }
        ensures lives { (result.lives.now ≡ numbers.now.job.lives.now) × (result.lefts.now ≡ numbers.now.job.lefts.now) }
        ensures prices { result.prices.now ≡ numbers.now.job.prices.now }
        ensures needs { (result.needs.marks.now ≡ numbers.now.needs.now) × (result.needs.holding ≡ length numbers.now.removals.now) }
    {
        Parts {
            end: numbers.job.end,
            positions: numbers.job.positions,
            lives: numbers.job.lives,
            lefts: numbers.job.lefts,
            prices: numbers.job.prices,
            needs: numbers.needs(),
        }
    }
}
