// What an ascent works on.

use ascent_lanes::job::Scaled;
use model::PARTS;
use share_rows::SHARES;

// The things that parts pay: a stop, and the removal of each part.
pub const THINGS: usize = 1 + PARTS;

// The job with its numbers scaled, its table of shares, and how many parts take each thing.
#[derive(Clone, Copy)]
pub struct Task<'a, 'b> {
    pub job: Scaled<'a>,
    pub x: &'b [u32; SHARES],
    pub users: [u32; THINGS],
}
