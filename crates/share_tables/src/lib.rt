// The tables of the walk by fair shares, from a job's arrays.
// Kept with the limits of plain numbers in the clauses (things, an opening, a lane): places in the tables are computed of them.
// Kept as a slice with its room in `prepare`: more may be lent.
#![tactic(auto)]

ghost use Rattle.std.specs.Prelude.{◌≡◌, ℕ, ◌+◌, ◌*◌, ◌/◌, ◌%◌, ◌<◌, ◌≤◌, length};
ghost use Rattle.base.specs.Filled.{FilledBy};
ghost use Rattle.model.specs.Limits.{most_openings, most_parts};
ghost use Rattle.model.specs.Model.{Job};
ghost use Rattle.least.specs.Suffix.{table_size};
ghost use Rattle.held_tables.specs.Numbers.{Holds};
ghost use Rattle.lane_rows.specs.Layout.{lane_count_lem, inf};
ghost use Rattle.share_rows.specs.Places.{most_things};
ghost use Rattle.share_tables.specs.Prepared.{Padded, borne_at_lem, shared_in, Roomy, KeptOf, Prepared};

use ascent::ascend;
use ascent_lanes::PLACES;
use fair_shares::raw::RawShares;
use fair_shares::{check, mark};
use held_tables::numbers::HeldNumbers;
use lane_rows::{LANES, TABLES};
use model::{OPENINGS, PARTS, PRICES, STRIDE};
use search_tables::flat::FlatJob;
use share_rows::SHARES;

// The longest life.
const LONGEST: u32 = 1000;

// The parts' lives or first lives, and past them the longest.
fn padded(values: &[u32]) -> [u32; PARTS]
    ensures { Padded values.now result }
{
    let mut out = [0; PARTS];
    for (q, life) in out.iter_mut().enumerate() {
        *life = values.get(q).copied().unwrap_or(LONGEST);
    }
    out
}

// What lane q bears of the first things at opening k.
fn borne_at(x: &[u32; SHARES], things: usize, k: usize, q: usize) -> u64
    requires { (things ≤ most_things) × (k < most_openings) × (q < lane_count_lem) }
    ensures { result ≡ borne_at_lem x.now things k q }
{
    (0..things)
        .map(|m| u64::from(x[(m * OPENINGS + k) * LANES + q]))
        .sum()
}

// The prices with all shares.
fn put_shared(prices: &[u32], x: &[u32; SHARES], things: usize, all: &mut [u32; PRICES])
    requires { (length prices.now ≡ most_parts * most_openings) × (things ≤ most_things) × Roomy prices.now x.now things }
    ensures { FilledBy (λ (i : ℕ). i) (shared_in prices.now x.now things) (most_parts * most_openings) all.old all.new }
{
    for (i, shared) in all.iter_mut().enumerate() {
        let sum = borne_at(x, things, i % STRIDE, i / STRIDE);
        // Kept as a cast: by `Roomy` it loses nothing, where a `try_from` would ask what else to write.
        *shared = (u64::from(prices[i]) + sum) as u32;
    }
}

// The table of shares, with what is kept of those that an ascent finds, and how much the ascent says that they are worth.
fn share(numbers: &HeldNumbers, t: &[u32; TABLES], x: &mut [u32; SHARES]) -> u64
    ensures kept { KeptOf numbers.now.needs.now (length numbers.now.job.lives.now) numbers.now.job.prices.now numbers.now.job.fees.now numbers.now.removals.now x.new }
    ensures value { result ≤ lane_count_lem * inf }
{
    let mut found = [0; PLACES];
    let job = numbers.job;
    mark(numbers.needs, job.lives.len(), numbers.removals, x);
    let value = ascend(t, x, job.lives.len(), &mut found);
    let (fees, removals) = (job.fees, numbers.removals);
    let shares = RawShares {
        raw: &found,
        prices: job.prices,
        fees,
        removals,
        things: removals.len() + 1,
    };
    check(&shares, x);
    value
}

// The tables of the walk of a job by shares that an ascent finds: what the ascent says of their value is no part of the promise.
pub fn prepare(
    numbers: &HeldNumbers,
    tab: &mut [u64],
    t: &mut [u32; TABLES],
    x: &mut [u32; SHARES],
) -> u64
    requires { table_size ≤ length tab.old }
    ensures tables { (job : Job) → Holds job numbers.now → Prepared job t.new x.new }
    ensures value { result ≤ lane_count_lem * inf }
{
    let job = numbers.job;
    let long = padded(job.lives);
    let first = padded(job.lefts);
    let mut all = [0; PRICES];
    let wide = FlatJob {
        end: job.end,
        positions: job.positions,
        fees: job.fees,
        lives: &long,
        lefts: &first,
        prices: job.prices,
    };
    wide.fill_rows(tab, t);
    let value = share(numbers, t, x);
    put_shared(job.prices, x, numbers.removals.len() + 1, &mut all);
    // Kept as a second literal: a field that is a reference can't be given one of another lifetime, and `..wide` is refused for a struct with ghost fields.
    let shared = FlatJob {
        end: job.end,
        positions: job.positions,
        fees: job.fees,
        lives: &long,
        lefts: &first,
        prices: &all,
    };
    shared.fill_rows(tab, t);
    value
}
