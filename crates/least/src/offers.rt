// One part and the openings that it is offered, as the least price over them is asked for.
ghost use Rattle.std.specs.Prelude.{◌≡◌, ℕ, ◌^◌, ◌<◌, ◌≤◌, length, get_or};
ghost use Rattle.model.specs.Limits.{most_openings};
ghost use Rattle.model.specs.LastYes.{mark_in};
ghost use Rattle.base.specs.Signed.{Bits31};

// One part's life, the end, the position of the change before the first opening, and each opening's position, price and whether it is allowed.
// Kept as slices side by side: a caller lends arrays that it has, of a job's openings, of one part's prices and of stops, and there is no heap to put one list of records in.
#[derive(Clone, Copy)]
pub struct PartOffers<'a> {
    pub life: i32,
    pub end: i32,
    pub first: i32,
    pub positions: &'a [i32],
    pub prices: &'a [u32],
    pub allowed: &'a [bool],
    pub ghost few: { length positions.now ≤ most_openings },
    pub ghost small: { (i : ℕ) → Bits31 (mark_in first positions.now i) },
    pub ghost priced: { length prices.now ≡ length positions.now },
    pub ghost cheap: { (j : ℕ) → get_or prices.now j 0 < 2 ^ 32 },
    pub ghost flagged: { length allowed.now ≡ length positions.now },
    pub ghost late: { Bits31 end },
}
