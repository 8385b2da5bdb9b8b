// What a part's lines say, and a part as it is read.
ghost use Rattle.std.specs.Prelude.{◌≡◌, false};
ghost use Rattle.part_lines.specs.Bare.{Bare};

use jobs::Part;
use model::OPENINGS;
use price_rules::Rule;

// What a part's lines say, besides the part that they mean: whether its lines of removal stand; its prices' rule, where they stand by one; and the low ends of its prices that are pairs.
// Kept as a flag: the removal and the holders that the lines say stand in the part, where every reader of it looks.
#[derive(Clone, Copy)]
pub struct PartSaid {
    pub covered: bool,
    pub rule: Option<Rule>,
    pub lows: [Option<u32>; OPENINGS],
}

// A part read: what its lines say, and the part that they mean, but for the prices of its rule. Where no lines of removal stand, it has removal 0 and no holders.
#[derive(Clone, Copy)]
pub struct PartRead {
    pub said: PartSaid,
    pub part: Part,
    ghost bare: { said.covered ≡ false → Bare part },
}
