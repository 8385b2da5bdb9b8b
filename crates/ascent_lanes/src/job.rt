// A job whose shares are sought.

ghost use Rattle.std.specs.Prelude.{◌+◌, ◌≤◌};
ghost use Rattle.model.specs.Limits.{most_openings, most_parts};

use crate::BORNE;
use lane_rows::TABLES;
use model::MARKS;

// A job's tables; each lane's prices, as often as they are taken; the first mark from which some part lasts to each opening, and to the end; how many openings, things and parts it has; and how often its prices are taken.
// Kept as counts beside the tables: these have a fixed size, without a heap; of the numbers in them nothing is known, and only how many openings there are stands there.
#[derive(Clone, Copy)]
pub struct Scaled<'a> {
    pub t: &'a [u32; TABLES],
    pub prices: &'a [u32; BORNE],
    pub firsts: &'a [usize; MARKS],
    pub openings: usize,
    pub things: usize,
    pub parts: usize,
    pub scale: u32,
    ghost few_openings: { openings ≤ most_openings },
    ghost few_things: { things ≤ most_parts + 1 },
    ghost few_parts: { parts ≤ most_parts },
}
