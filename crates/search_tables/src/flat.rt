// A job in arrays, as the searches are handed it.
ghost use Rattle.search_tables.specs.Arrays.{Arrays, Climbs-prop};
ghost use Rattle.std.proofs.Props.{props};

// The end, the openings' positions and fees, the parts' lives and first lives, and 64 prices for each part.
// Kept as slices side by side: each is lent; the positions go whole to each part, the fees whole to the tables and as prices to a part, and of the prices each part gets its own 64.
#[derive(Clone, Copy)]
pub struct FlatJob<'a> {
    pub end: i32,
    pub positions: &'a [i32],
    pub fees: &'a [u32],
    pub lives: &'a [u32],
    pub lefts: &'a [u32],
    pub prices: &'a [u32],
    pub ghost arrays: { Arrays end positions.now fees.now lives.now lefts.now prices.now } by { Prim.hlevel (props, Climbs-prop) },
}
