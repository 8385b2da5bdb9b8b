// The marks of one part: where its changes may stand, and whether a change is in reach of the one before.
// Positions are signed; the change before the first opening stands at or below zero.
#![tactic(auto)]

ghost use Rattle.std.specs.Prelude.{◌≡◌, ◌≤◌, pos, ◌-ℤ◌, length};
ghost use Rattle.std.specs.Int.{w32};
ghost use Rattle.std.proofs.Common.{SFits};
ghost use Rattle.model.specs.Limits.{longest_life};
ghost use Rattle.model.specs.Model.{within};
ghost use Rattle.model.specs.LastYes.{mark_in};

// A part counts as last changed at `left - life`, which is zero or negative.
// Kept as casts: a u32 may be more than an i32 holds, so the library has no From; what is asked says that these are not.
pub fn last_change(life: u32, left: u32) -> i32
    requires { (life ≤ longest_life) × (left ≤ longest_life) }
    ensures { result ≡ pos left -ℤ pos life }
{
    left as i32 - life as i32
}

// A change at `position` comes at most `life` after the one before, at `prev`.
pub fn in_reach(life: i32, prev: i32, position: i32) -> bool
    requires { SFits w32 (position -ℤ prev) }
    ensures { result ≡ within life prev position }
{
    position - prev <= life
}

// The position of mark i: mark 0 is the first life's, mark k + 1 that of opening k.
pub fn mark(first: i32, positions: &[i32], i: usize) -> i32
    requires { i ≤ length positions.now }
    ensures { result ≡ mark_in first positions.now i }
{
    if i == 0 { first } else { positions[i - 1] }
}
