// A job with holders in arrays, as the search is handed it.
ghost use Rattle.std.specs.Prelude.{◌≡◌, ℕ, ◌≤◌, length, get_or};
ghost use Rattle.model.specs.Limits.{most_parts};
ghost use Rattle.lane_rows.specs.Layout.{top};

use held_places::needs::Needs;
use model::PAIRS;
use search_tables::flat::FlatJob;

// The job's numbers, where the prices are with the removal of a part that holds nobody; for each part 16 needs, of the parts that are somebody's holder; and the removals of these.
#[derive(Clone, Copy)]
pub struct HeldNumbers<'a> {
    pub job: FlatJob<'a>,
    pub needs: &'a [bool; PAIRS],
    pub removals: &'a [u32],
    pub ghost few: { length removals.now ≤ most_parts },
    pub ghost cheap: { (b : ℕ) → get_or removals.now b 0 ≤ top },
}

impl<'a> HeldNumbers<'a> {
    // The needs of the parts.
    pub fn needs(&self) -> Needs<'a>
        ensures marks { result.marks.now ≡ self.now.needs.now }
        ensures holding { result.holding ≡ length self.now.removals.now }
    {
        Needs {
            marks: self.needs,
            holding: self.removals.len(),
        }
    }
}
