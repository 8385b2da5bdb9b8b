// A node of the search with holders, read off its name: for each opening no, or yes and then for each part that is somebody's holder not removed or removed. Its stops, and where each part can be changed.
#![tactic(auto)]

pub mod needs;

ghost use Rattle.std.specs.Prelude.{◌≡◌, true, false, not, ◌||◌, [], ◌∷◌, ◌++◌, ℕ, ◌+◌, ◌-◌, ◌*◌, ◌≤◌, ◌<◌, length, get_or, drop, replicate, pos};
ghost use Rattle.std.specs.Fn.{FnReturnsAt};
ghost use Rattle.model.specs.Decisions.{accessible, allows};
ghost use Rattle.model.specs.LowerBound.{blocks};
ghost use Rattle.model.specs.Limits.{most_openings, most_parts};
ghost use Rattle.held_places.specs.Blocks.{first_or, block_long, rest_at, Entries};
ghost use Rattle.held_places.specs.Arrays.{needs_at};

use model::OPENINGS;
use needs::Needs;

// Every part that is needed is out, or undecided: the decisions are those of the parts that are somebody's holder, in order.
fn all_out(needs: &[bool], removed: &[bool]) -> bool
    ensures { result ≡ accessible needs.now removed.now }
{
    needs.iter().zip(removed).all(|(need, out)| !*need || *out)
}

// What is left of a name behind its first block, where h removals are decided after a yes.
fn behind(name: &[bool], h: usize) -> &[bool]
    ensures { result.now ≡ drop (block_long h name.now) name.now }
{
    match name {
        [] => name,
        [false, rest @ ..] => rest,
        [true, rest @ ..] => &rest[h.min(rest.len())..],
    }
}

// The first block of a name lets a part with these needs be changed; so does an undecided opening.
fn opens(needs: &[bool], name: &[bool]) -> bool
    ensures { result ≡ allows needs.now (first_or [] (length needs.now) name.now) }
{
    match name {
        [] => true,
        [false, ..] => false,
        [true, removed @ ..] => all_out(needs, removed),
    }
}

// For each opening of `out` what `read` makes of what is left of the name where the opening's block begins; h removals are decided after a yes.
fn by_block<F: Fn(&[bool]) -> bool>(name: &[bool], h: usize, read: F, out: &mut [bool])
    requires callable { F.IsAlwaysCallable read }
    ensures size { length out.new ≡ length out.old }
    ensures entries { (k : ℕ) → k < length out.old → FnReturnsAt F.Fn read (rest_at h k name.now) (get_or out.new k true) }
{
    let mut rest = name;
    for open in out.iter_mut() {
        *open = read(rest);
        rest = behind(rest, h);
    }
}

// Kept as a count with its limit in the clause, here and below: no job stands beside n that would bound it, and a type of bounded numbers would be taken apart at each range.

// The openings at which a part with these needs can be changed.
pub fn places(needs: &[bool], name: &[bool], n: usize) -> [bool; OPENINGS]
    requires { (n ≤ most_openings) × (length needs.now ≤ most_parts) }
    ensures { Entries true (λ (k : ℕ). allows needs.now (get_or (blocks (length needs.now) n name.now) k [])) n result }
{
    let mut out = [false; OPENINGS];
    by_block(name, needs.len(), |rest| opens(needs, rest), &mut out[..n]);
    out
}

// The openings at which part q can be changed at the node of this name.
pub fn part_places(needs: &Needs, name: &[bool], n: usize, q: usize) -> [bool; OPENINGS]
    requires { (n ≤ most_openings) × (q < most_parts) }
    ensures { Entries true (λ (k : ℕ). allows (needs_at needs.now.holding needs.now.marks.now q) (get_or (blocks needs.now.holding n name.now) k [])) n result }
{
    places(needs.of(q), name, n)
}

// The first block of a name begins with a stop; an undecided opening is none.
fn stop_first(name: &[bool]) -> bool
    ensures { (h : ℕ) → result ≡ get_or (first_or (false ∷ []) h name.now) 0 true }
{
    matches!(name, [true, ..])
}

// The stops of the node of this name.
pub fn stops(name: &[bool], n: usize, h: usize) -> [bool; OPENINGS]
    requires { (n ≤ most_openings) × (h ≤ most_parts) }
    ensures { Entries false (λ (k : ℕ). get_or (get_or (blocks h n name.now) k (false ∷ [])) 0 true) n result }
{
    let mut out = [false; OPENINGS];
    by_block(name, h, |rest| stop_first(rest), &mut out[..n]);
    out
}
