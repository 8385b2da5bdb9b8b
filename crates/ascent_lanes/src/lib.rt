// What the ascent of the shares computes of a job's lanes: what each lane bears at each opening, its least sum, and where that changes it. Nothing is trusted of these numbers. What the prices and the first marks are is said whole; of the others only how far they go.
// Kept with limits of plain numbers in the clauses (a block's base, an opening, a lane): places in the tables are sums and products of them, and a bounded type would be taken apart in each.
#![tactic(auto)]

pub mod job;

ghost use Rattle.std.specs.Prelude.{◌≡◌, true, false, ◌+◌, ◌-◌, ◌*◌, ◌^◌, ◌<◌, ◌≤◌, min};
ghost use Rattle.ascent_lanes.specs.Tables.{Scales, SomeLasts, NoneLasts, FirstMark, Firsts};
ghost use Rattle.lane_rows.specs.Layout.{lane_count_lem, inf, reach_base};
ghost use Rattle.model.specs.Limits.{most_openings};

use job::Scaled;
use lane_rows::{INF, LANES, PRICES, REACHES, SUFFIXES, TABLES, row_of, turn};
use model::{MARKS, OPENINGS, PARTS};

// The shares: a row of lanes for each thing at each opening. A thing is a stop, or the removal of a part.
pub const PLACES: usize = (1 + PARTS) * OPENINGS * LANES;

// A row of lanes for each opening, and one for the end.
pub const BORNE: usize = MARKS * LANES;

// A row of lanes for each mark, and one for the end.
pub const MARKED: usize = (MARKS + 1) * LANES;

// A number of 64 bits as one of 32, or the most that they hold.
pub fn narrow(x: u64) -> u32
    ensures { result ≡ min x (2 ^ 32 - 1) }
{
    u32::try_from(x).unwrap_or(u32::MAX)
}

// The product of two numbers of 32 bits.
pub fn product(x: u32, y: u32) -> u64
    ensures { result ≡ x * y }
{
    u64::from(x) * u64::from(y)
}

// Each lane's prices at a scale; nothing at the end.
// Kept with a place in the tables: of a `zip` over what is lent to be written the library says only how long it is.
pub fn scaled_prices(t: &[u32; TABLES], scale: u32) -> [u32; BORNE]
    ensures { Scales t.now scale result }
{
    let mut prices = [0; BORNE];
    for (k, x) in prices[..OPENINGS * LANES].iter_mut().enumerate() {
        *x = narrow(product(t[PRICES + k], scale)).min(INF);
    }
    prices
}

// Whether one of the first lanes of a row lasts.
fn lasts(lanes: &[u32; LANES], parts: usize) -> bool
    requires { parts ≤ lane_count_lem }
    ensures some { result ≡ true → SomeLasts parts lanes.now }
    ensures none { result ≡ false → NoneLasts parts lanes.now }
{
    lanes[..parts].iter().any(|x| *x < INF)
}

// The first mark from which some part lasts to opening j or the end, by the block of the tables from `base` on.
fn first_mark(t: &[u32; TABLES], base: usize, j: usize, parts: usize) -> usize
    requires { (base ≤ reach_base) × (j ≤ most_openings) × (parts ≤ lane_count_lem) }
    ensures { FirstMark t.now base j parts result }
{
    let (level, _) = t[base + row_of(j) * LANES..].as_chunks::<LANES>();
    level
        .iter()
        .position(|lanes| lasts(lanes, parts))
        .unwrap_or(j)
        .min(j)
}

// The first mark from which some part lasts to each opening, and to the end.
pub fn first_marks(t: &[u32; TABLES], openings: usize, parts: usize) -> [usize; MARKS]
    requires { (openings ≤ most_openings) × (parts ≤ lane_count_lem) }
    ensures { Firsts t.now openings parts result }
{
    let mut firsts = [0; MARKS];
    for k in 0..openings {
        firsts[k] = first_mark(t, REACHES, k, parts);
    }
    firsts[openings] = first_mark(t, SUFFIXES, openings, parts);
    firsts
}

// Each lane's least up to opening j or the end, over the marks from `from` up to it, by the block of the tables from `base` on.
fn least_lanes<const FOURS: usize>(
    t: &[u32; TABLES],
    v: &[u32; MARKED],
    base: usize,
    from: usize,
    j: usize,
) -> [u32; LANES]
    requires { (FOURS ≤ 4) × (base ≤ reach_base) × (from ≤ j) × (j ≤ most_openings) }
{
    let mut acc = [INF; LANES];
    let (marks, _) = v.as_chunks::<LANES>();
    let (level, _) = t[base + (row_of(j) + from) * LANES..].as_chunks::<LANES>();
    for (v, t) in marks[from..=j].iter().zip(level) {
        turn(FOURS, &mut acc, |q, x| x.min(v[q].wrapping_add(t[q])));
    }
    acc
}

// The row of a change at opening k: each lane's least up to it, with what it bears there.
fn put_mark<const FOURS: usize>(
    w: &[u32; BORNE],
    k: usize,
    acc: &[u32; LANES],
    v: &mut [u32; MARKED],
)
    requires { (FOURS ≤ 4) × (k ≤ most_openings) }
{
    let at = k * LANES;
    turn(FOURS, &mut v[at + LANES..at + 2 * LANES], |q, _| {
        acc[q].min(INF).wrapping_add(w[at + q]).min(INF)
    });
}

// The parts' least sums together; 0 where one has none.
fn value(v: &[u32; MARKED], parts: usize) -> u64
    requires { parts ≤ lane_count_lem }
    ensures { result ≤ lane_count_lem * inf }
{
    let mut z: u64 = 0;
    for y in &v[MARKS * LANES..MARKS * LANES + parts] {
        if INF <= *y {
            return 0;
        }
        z += u64::from(*y);
    }
    z
}

// Of the marks up to j the last one of the least sum, which is what stands in row `to` less what the lane bears there.
fn best_mark(
    t: &[u32; TABLES],
    w: &[u32; BORNE],
    v: &[u32; MARKED],
    base: usize,
    j: usize,
    to: usize,
    q: usize,
) -> usize
    requires { (base ≤ reach_base) × (j ≤ most_openings) × (to ≤ most_openings) × (q < lane_count_lem) }
    ensures { result ≤ j }
{
    let row = row_of(j);
    let least = v[(to + 1) * LANES + q].wrapping_sub(w[to * LANES + q]);
    (0..j + 1)
        .rev()
        .find(|i| v[*i * LANES + q].wrapping_add(t[base + (row + *i) * LANES + q]) == least)
        .unwrap_or(0)
}

impl<'a> Scaled<'a> {
    // The lanes' rows, mark by mark, at what they bear at each opening; the end's stands last.
    // Kept as a loop over openings: each row is made of all those before it, in the table that it is written to.
    fn forward<const FOURS: usize>(&self, w: &[u32; BORNE], v: &mut [u32; MARKED])
        requires { FOURS ≤ 4 }
    {
        for k in 0..self.openings {
            let acc = least_lanes::<FOURS>(self.t, v, REACHES, self.firsts[k].min(k), k);
            put_mark::<FOURS>(w, k, &acc, v);
        }
        let n = self.openings;
        let acc = least_lanes::<FOURS>(self.t, v, SUFFIXES, self.firsts[n].min(n), n);
        put_mark::<FOURS>(w, OPENINGS, &acc, v);
    }

    // The changes of lane q in its least sum are marked.
    // Kept as a while loop: each turn goes on from a mark that is found.
    fn trace(&self, w: &[u32; BORNE], v: &[u32; MARKED], q: usize, changed: &mut [u32; BORNE])
        requires { q < lane_count_lem }
    {
        let mut j = best_mark(self.t, w, v, SUFFIXES, self.openings, OPENINGS, q);
        while 0 < j {
            j -= 1;
            changed[j * LANES + q] = 1;
            j = best_mark(self.t, w, v, REACHES, j, j, q);
        }
    }

    // What each lane bears at each opening: its prices, and its shares of the things.
    // Kept with a loop, as in `line_writing::write::put_bytes`: a copy of the array would be a call of `memmove`.
    fn put_borne<const FOURS: usize>(&self, u: &[u32; PLACES], w: &mut [u32; BORNE])
        requires { FOURS ≤ 4 }
    {
        for (x, price) in w.iter_mut().zip(self.prices) {
            *x = *price;
        }
        let (rows, _) = u.as_chunks::<LANES>();
        for (r, shares) in rows[..self.things * OPENINGS].iter().enumerate() {
            let at = r % OPENINGS * LANES;
            turn(FOURS, &mut w[at..at + LANES], |q, x| {
                x.wrapping_add(shares[q])
            });
        }
    }

    // The sum of what the parts bear at least, in so many fours of lanes, by a table of shares of the things; their changes are marked.
    // Kept as a loop over parts: a part's lane is a column of the tables, and no slice.
    pub fn least_sum<const FOURS: usize>(
        &self,
        u: &[u32; PLACES],
        changed: &mut [u32; BORNE],
    ) -> u64
        requires { FOURS ≤ 4 }
        ensures { result ≤ lane_count_lem * inf }
    {
        let mut w = [0; BORNE];
        let mut v = [0; MARKED];
        self.put_borne::<FOURS>(u, &mut w);
        self.forward::<FOURS>(&w, &mut v);
        for q in 0..self.parts {
            self.trace(&w, &v, q, changed);
        }
        value(&v, self.parts)
    }
}
