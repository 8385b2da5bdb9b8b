// Filling the tables of the walk, one lane after the other.
ghost use Rattle.std.specs.Prelude.{◌≡◌, ℕ, ◌<◌, ◌≤◌, min, length, get_or, pos, ◌-ℤ◌};
ghost use Rattle.base.specs.Filled.{FilledBy};
ghost use Rattle.least.specs.Suffix.{table_size};
ghost use Rattle.lane_rows.specs.Layout.{lane_count_lem, mark_count, inf, suffix_base, reach_base, place, price_place};
ghost use Rattle.lane_rows.specs.Tables.{Tables};
ghost use Rattle.search_tables.specs.Arrays.{lane_value_lem, lane_part, fours_of_lem, column_of, Lived};
ghost use Rattle.search_tables.specs.Fill.{Triangle, own_of, reach_of, column, LaneAsks, LaneFilled, Lanes};
ghost use Rattle.search_tables.specs.Flat.{sheet_in};
ghost use Rattle.held_places.specs.Arrays.{Timed};
ghost use Rattle.model.specs.Limits.{longest_life, most_openings};

use crate::flat::FlatJob;
use crate::rows::{put_at, turn_row, turn_rows};
use lane_rows::{COUNT, FEES, FOURS, INF, LANES, PRICES, REACHES, SUFFIXES, TABLES};
use least::offers::PartOffers;
use model::{MARKS, OPENINGS, STRIDE};
use reach::{in_reach, last_change, mark};

// Lane q's number: part q's, and past the last part the first part's.
// Kept as a function of its own: it names the number that stands past the last, and is the library's `get` and `unwrap_or`.
fn lane_value(values: &[u32], q: usize) -> u32
    requires { 0 < length values.now }
    ensures { result ≡ lane_value_lem values.now q }
{
    values.get(q).copied().unwrap_or(values[0])
}

// A number of a part's own table, as a lane has it.
// Kept as `as`: the library has no `From` that narrows, and the minimum is one that fits.
pub fn capped(v: u64) -> u32
    ensures { result ≡ min v inf }
{
    v.min(u64::from(INF)) as u32
}

// 0 where opening j is in reach of mark i.
fn reach(part: &PartOffers<'_>, j: usize, i: usize) -> u32
    requires { (i ≤ j) × (j < length part.now.positions.now) }
    ensures { result ≡ reach_of part.now.life part.now.first part.now.positions.now j i }
{
    if in_reach(
        part.life,
        mark(part.first, part.positions, i),
        part.positions[j],
    ) {
        0
    } else {
        INF
    }
}

// Kept with the limits of q, m, j and i in the clauses: a lane, a level and a mark are plain numbers, and a type of bounded numbers would be taken apart at each index.
// Kept as slices with their room in the clause, here and in each function below that is handed a part's own table: one that is public may be lent more room than the table takes, and an array type would ask its callers for just so much.

// The least price from opening j on after mark i, of a part's own table, as a lane has it.
pub(crate) fn own(tab: &[u64], j: usize, i: usize) -> u32
    requires { (table_size ≤ length tab.now) × (j < mark_count) × (i < mark_count) }
    ensures { result ≡ own_of tab.now j i }
{
    capped(tab[j * MARKS + i])
}

// One lane of the suffix prices from each of the first m openings on, from a part's own table.
fn put_suffixes(tab: &[u64], m: usize, q: usize, t: &mut [u32; TABLES])
    requires { (m ≤ mark_count) × (table_size ≤ length tab.now) × (q < lane_count_lem) }
    ensures { Triangle (λ (j i : ℕ). place suffix_base j i q) (own_of tab.now) m t.old t.new }
{
    turn_rows(m, SUFFIXES + q, LANES, t, |j, i, _| own(tab, j, i));
}

// One lane of the reach of each opening.
fn put_reaches(part: &PartOffers<'_>, q: usize, t: &mut [u32; TABLES])
    requires { q < lane_count_lem }
    ensures { Triangle (λ (j i : ℕ). place reach_base j i q) (reach_of part.now.life part.now.first part.now.positions.now) (length part.now.positions.now) t.old t.new }
{
    turn_rows(
        part.positions.len(),
        REACHES + q,
        LANES,
        t,
        |j, i, _| reach(part, j, i),
    );
}

// One lane of the prices.
fn put_prices(prices: &[u32], q: usize, t: &mut [u32; TABLES])
    requires { (length prices.now ≤ most_openings) × (q < lane_count_lem) }
    ensures { FilledBy (λ (j : ℕ). price_place j q) (λ (j : ℕ). get_or prices.now j 0) (length prices.now) t.old t.new }
{
    turn_row(prices.len(), PRICES + q, LANES, t, |j, _| prices[j]);
}

// The lane of one part: its suffix prices, its reach and its prices.
// Kept as two parameters, here and where it is called: `tab` is room to work in, `t` what is filled, and neither is read by way of the other.
fn fill_lane(part: &PartOffers<'_>, q: usize, tab: &mut [u64], t: &mut [u32; TABLES])
    requires { LaneAsks part.now.prices.now part.now.allowed.now q tab.old }
    ensures { LaneFilled part.now.end part.now.positions.now (column part.now.life part.now.first part.now.prices.now) t.old t.new q }
{
    part.fill(tab);
    put_suffixes(tab, part.positions.len() + 1, q, t);
    put_reaches(part, q, t);
    put_prices(part.prices, q, t);
}

// As many fours of lanes as the parts fill.
fn fours_of(parts: usize) -> usize
    requires { parts ≤ lane_count_lem }
    ensures { result ≡ fours_of_lem parts }
{
    (parts + 3) / 4
}

// What a part of this life and first life is offered: its prices at the openings' positions, where they are allowed.
// Kept with the ranges of what is handed over in the clauses: a `PartOffers` is made of it, whose type says them from then on.
// Kept as `as`: the library has no `From` of a u32 into an i32; a life is at most 1000.
pub fn offered<'a>(
    life: u32,
    left: u32,
    end: i32,
    positions: &'a [i32],
    prices: &'a [u32],
    allowed: &'a [bool],
) -> PartOffers<'a>
    requires brief { (life ≤ longest_life) × (left ≤ longest_life) }
    requires timed { Timed end positions.now }
    requires rows { (length prices.now ≡ length positions.now) × (length allowed.now ≡ length positions.now) }
    ensures lived { (result.life ≡ pos life) × (result.first ≡ pos left -ℤ pos life) }
    ensures ends { result.end ≡ end }
    ensures places { result.positions.now ≡ positions.now }
    ensures priced { result.prices.now ≡ prices.now }
    ensures allowed { result.allowed.now ≡ allowed.now }
{
    PartOffers {
        life: life as i32,
        end,
        first: last_change(life, left),
        positions,
        prices,
        allowed,
    }
}

impl<'a> FlatJob<'a> {
    // What lane q's part is offered at these prices, where these openings are allowed: past the last part it has the first part's life.
    pub fn offers<'b>(&self, q: usize, prices: &'b [u32], allowed: &'b [bool]) -> PartOffers<'b>
    where
        'a: 'b,
        requires { (length prices.now ≡ length self.now.positions.now) × (length allowed.now ≡ length self.now.positions.now) }
        ensures lived { Lived self.now.lives.now self.now.lefts.now q result.life result.first }
        ensures ends { result.end ≡ self.now.end }
        ensures places { result.positions.now ≡ self.now.positions.now }
        ensures priced { result.prices.now ≡ prices.now }
        ensures allowed { result.allowed.now ≡ allowed.now }
    {
        let life = lane_value(self.lives, q);
        let left = lane_value(self.lefts, q);
        offered(life, left, self.end, self.positions, prices, allowed)
    }

    // Lane q: that of part q; past the last part it goes with the first part's, and its prices are 0.
    fn fill_part(&self, q: usize, tab: &mut [u64], t: &mut [u32; TABLES])
        requires { (table_size ≤ length tab.old) × (q < lane_count_lem) }
        ensures { LaneFilled self.now.end self.now.positions.now (column_of (lane_part (length self.now.positions.now) self.now.lives.now self.now.lefts.now self.now.prices.now q)) t.old t.new q }
    {
        let all = [true; OPENINGS];
        let n = self.positions.len();
        let part = self.offers(q, &self.prices[q * STRIDE..q * STRIDE + n], &all[..n]);
        fill_lane(&part, q, tab, t);
    }

    // The first `lanes` lanes.
    // Kept as a range: more lanes than parts may be filled, so no slice has one entry for each.
    fn fill_lanes(&self, lanes: usize, tab: &mut [u64], t: &mut [u32; TABLES])
        requires { (table_size ≤ length tab.old) × (lanes ≤ lane_count_lem) }
        ensures { Lanes self.now.end self.now.positions.now self.now.lives.now self.now.lefts.now self.now.prices.now t.new lanes }
    {
        for q in 0..lanes {
            self.fill_part(q, tab, t);
        }
    }

    // The rows of the tables of the job in the arrays: lanes, fees and counts. The terms are put by `put_terms`, for the walk without holders alone.
    pub fn fill_rows(&self, tab: &mut [u64], t: &mut [u32; TABLES])
        requires { table_size ≤ length tab.old }
        ensures { Tables (sheet_in self.now) t.new }
    {
        let fours = fours_of(self.lives.len());
        self.fill_lanes(fours * 4, tab, t);
        put_at(t, FEES, self.fees);
        // Kept as `as`: the library has no `From` of a usize into a u32; both numbers are at most 64.
        t[COUNT] = self.fees.len() as u32;
        t[FOURS] = fours as u32;
    }
}
