// A table of shares as it comes from outside.
ghost use Rattle.std.specs.Prelude.{◌≡◌, ℕ, ◌*◌, ◌<◌, ◌≤◌, length, get_or};
ghost use Rattle.lane_rows.specs.Layout.{dear};
ghost use Rattle.model.specs.Limits.{most_openings, most_parts};
ghost use Rattle.share_rows.specs.Places.{most_things};
ghost use Rattle.fair_shares.specs.Checked.{raw_size};

// A table of the shares of so many things, and what it is checked against: the prices of each lane, the fees, and the removals of all things but the first.
// Kept as slices side by side: each goes by another number, a share by thing, opening and lane, a price by lane and opening, a fee by opening, a removal by thing.
#[derive(Clone, Copy)]
pub struct RawShares<'a> {
    pub raw: &'a [u32],
    pub prices: &'a [u32],
    pub fees: &'a [u32],
    pub removals: &'a [u32],
    pub things: usize,
    pub ghost size: { length raw.now ≡ raw_size },
    pub ghost priced: { length prices.now ≡ most_parts * most_openings },
    pub ghost cheap: { (j : ℕ) → get_or prices.now j 0 ≤ dear },
    pub ghost some: { 0 < things },
    pub ghost few: { things ≤ most_things },
}
