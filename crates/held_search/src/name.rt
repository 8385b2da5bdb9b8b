// The name of the incumbent: its stops from a mask, and the removals at each from a number, written block by block.
ghost use Rattle.std.specs.Prelude.{◌≡◌, ◌++◌, ◌+◌, ◌≤◌, length, take};
ghost use Rattle.model.specs.Limits.{most_openings, most_parts};
ghost use Rattle.held_nodes.specs.State.{best_name};
ghost use Rattle.held_search.specs.Solved.{name_size, block_said};

use held_lanes::{ASIDE, BEST, NAMES};
use search::plan::stops_of;

// Kept with the limits of n and h in the clauses, here and below: both are plain counts, no job stands beside them, and a type of bounded numbers would be taken apart at each range.

// Decisions are written behind the first `at`.
fn put_all(from: &[bool], at: usize, name: &mut [bool; NAMES])
    requires { at + length from.now ≤ name_size }
    ensures { take (at + length from.now) name.new ≡ take at name.old ++ from.now }
{
    name[at..at + from.len()].copy_from_slice(from);
}

// The block of an opening is written behind the first `at` decisions: no stop, or a stop and its h removals. The place behind it.
fn put_block(removed: Option<u32>, h: usize, at: usize, name: &mut [bool; NAMES]) -> usize
    requires { (h ≤ most_parts) × (at + (h + 1) ≤ name_size) }
    ensures behind { result ≡ at + length (block_said h removed) }
    ensures wrote { take result name.new ≡ take at name.old ++ block_said h removed }
{
    name[at] = removed.is_some();
    let Some(removed) = removed else {
        return at + 1;
    };
    let out = stops_of(u64::from(removed), h);
    put_all(&out[..h], at + 1, name);
    at + 1 + h
}

// The incumbent's name, of n openings and h removals at each stop: its size.
pub fn name_of(mask: u64, v: &[u32; ASIDE], n: usize, h: usize, name: &mut [bool; NAMES]) -> usize
    requires { (n ≤ most_openings) × (h ≤ most_parts) }
    ensures size { result ≤ name_size }
    ensures name { take result name.new ≡ best_name h n v.now mask }
{
    let stops = stops_of(mask, n);
    let mut at: usize = 0;
    for (stop, removed) in stops[..n].iter().zip(&v[BEST..BEST + n]) {
        at = put_block(stop.then_some(*removed), h, at, name);
    }
    at
}
