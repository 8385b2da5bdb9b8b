// A row of shares: those of a thing at an opening, lane by lane, and what the ascent does with one.

ghost use Rattle.std.specs.Prelude.{◌≡◌, ◌≤◌, length};
ghost use Rattle.lane_rows.specs.Layout.{lane_count_lem};

use ascent_lanes::{narrow, product};
use lane_rows::LANES;

// A thing at an opening: a number for each lane, which is 0 where its change there does not take the thing; how many parts take it; and what it costs.
#[derive(Clone, Copy)]
pub struct Row<'a> {
    pub takes: &'a [u32],
    pub users: u32,
    pub worth: u32,
    ghost whole: { length takes.now ≡ lane_count_lem },
}

// A direction's whole: each lane's part of it is said in so many parts.
pub(crate) const WHOLE: u32 = 4096;

// A whole step along a direction: how far a step goes is said in so many parts of it.
pub(crate) const WHOLE_STEP: u32 = 256;

// A lane's part of the direction: seven eighths of what it was, and an eighth of the whole if the lane changes here.
fn blended(d: u32, changed: u32) -> u32 {
    let more = if changed == 0 { 0 } else { WHOLE };
    (d.min(WHOLE) * 7 + more) / 8
}

// How far a share goes along the direction.
fn moved(u: u32, size: u32, d: u32) -> u32 {
    let go = product(size, d.min(WHOLE)) / u64::from(WHOLE_STEP * WHOLE);
    u.wrapping_add(narrow(go).min(250000000))
}

impl<'a> Row<'a> {
    // What the thing costs, at a scale.
    pub(crate) fn cap(&self, scale: u32) -> u64 {
        product(self.worth, scale)
    }

    // The row's worth is split evenly among the parts that take the thing.
    pub(crate) fn split(&self, cap: u32, parts: usize, shares: &mut [u32; LANES])
        requires { parts ≤ lane_count_lem }
    {
        let c = self.users;
        if c == 0 {
            return;
        }
        let takes = self.takes;
        let mut each = (cap / c).wrapping_add(cap % c);
        for (share, taken) in shares.iter_mut().zip(&takes[..parts]) {
            if *taken != 0 {
                *share = each;
                each = cap / c;
            }
        }
    }

    // The direction of the row, and how long it is: the sum of the squares less the square of the sum by the number of users.
    // A lane past the parts never changes, and one that does not take the thing is none that changes: so its direction stays 0.
    pub(crate) fn turn<const FOURS: usize>(&self, changed: &[u32], d: &mut [u32; LANES]) -> u64
        requires { (FOURS ≤ 4) × (length changed.now ≡ lane_count_lem) }
    {
        let mut sum: u32 = 0;
        let mut squares: u32 = 0;
        let takes = self.takes;
        let all = takes[..FOURS * 4].iter().zip(&changed[..FOURS * 4]);
        for ((taken, changed), d) in all.zip(d.iter_mut()) {
            let e = blended(*d, *taken & *changed);
            *d = e;
            sum = sum.wrapping_add(e);
            squares = squares.wrapping_add(e.wrapping_mul(e));
        }
        let c = u64::from(self.users.max(1));
        u64::from(squares).saturating_sub(product(sum, sum) / c)
    }
}

// The shares of a row go along the direction: their sum then.
pub(crate) fn go<const FOURS: usize>(size: u32, d: &[u32; LANES], shares: &mut [u32; LANES]) -> u64
    requires { FOURS ≤ 4 }
{
    let mut sum: u64 = 0;
    for (share, d) in shares[..FOURS * 4].iter_mut().zip(d) {
        *share = moved(*share, size, *d);
        sum = sum.wrapping_add(u64::from(*share));
    }
    sum
}

// How many of a row's shares are above 0.
fn positive(shares: &[u32]) -> u32 {
    shares
        .iter()
        .map(|share| u32::from(*share != 0))
        .fold(0, u32::wrapping_add)
}

// Up to `each` is taken from every share of a row, until nothing is over: what is still over.
fn take_each(shares: &mut [u32], each: u32, over: u32) -> u32 {
    let mut before: u32 = 0;
    for share in shares.iter_mut() {
        let most = (*share).min(each);
        *share -= most.min(over.saturating_sub(before));
        before = before.wrapping_add(most);
    }
    over.saturating_sub(before)
}

// What a row has over its worth is taken evenly from its shares.
pub(crate) fn level_row<const FOURS: usize>(shares: &mut [u32; LANES], over: u64)
    requires { FOURS ≤ 4 }
{
    let shares = &mut shares[..FOURS * 4];
    let mut left = narrow(over);
    for _ in 0..LANES {
        let c = positive(shares);
        if left == 0 || c == 0 {
            return;
        }
        left = take_each(shares, left.wrapping_add(c - 1) / c, left);
    }
}

// A row's shares as whole numbers, by running sums.
pub(crate) fn round_row(shares: &mut [u32; LANES], scale: u32) {
    if scale == 0 {
        return;
    }
    let mut sum: u32 = 0;
    let mut given: u32 = 0;
    for share in shares.iter_mut() {
        sum = sum.wrapping_add(*share);
        let y = sum.wrapping_add(scale / 2) / scale;
        *share = y.wrapping_sub(given);
        given = y;
    }
}
