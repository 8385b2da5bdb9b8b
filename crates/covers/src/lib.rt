// What a part's lines of removal say: what it costs to remove the part, and which parts hold it.
#![tactic(auto)]

ghost use Rattle.std.specs.Prelude.{◌≡◌, ◌<◌, ◌≤◌, IfOk};
ghost use Rattle.base.specs.Chosen.{numbers_of_lem};
ghost use Rattle.lines.specs.Reads.{Reads, seen};
ghost use Rattle.covers.specs.Grammar.{holder, holders};
ghost use Rattle.covers.specs.Grammar as grammar;
ghost use Rattle.covers.specs.Views.{cover_of, no_cover_lem, cover_said};
ghost use Rattle.model.specs.Limits.{most_parts};

use jobs::Part;
use lines::fault::{Fault, FaultKind};
use lines::rows::Lines;
use model::PARTS;

// What removing a part costs, and its holders: mark j says whether part j + 1 is one.
#[derive(Clone, Copy)]
pub struct Cover {
    pub removal: u32,
    pub holders: [bool; PARTS],
}

impl Cover {
    // The cover of a part without these lines: removal 0 and no holders.
    pub fn none() -> Cover
        ensures { cover_of result ≡ no_cover_lem }
    {
        Cover {
            removal: 0,
            holders: [false; PARTS],
        }
    }
}

// A holder of part k of m: after the one before, at most m, and not the part itself. Else fault 12, after 2 and 3.
// Kept as k and m, here and below: they change from part to part and from job to job, and the reader of lines knows of neither.
fn read_holder(lines: &mut Lines, m: u32, k: u32, before: u32) -> Result<u32, Fault>
    ensures reads { Reads (holder m k before) lines.old lines.new result }
    ensures within { IfOk result (λ v. (before < v) × (v ≤ most_parts)) }
{
    lines.checked(
        b"holder=",
        1,
        Part::MAX_HOLDER,
        FaultKind::Holder,
        |h| before < h && h <= m && h != k,
    )
}

// The holders of part k of m, n of them.
fn read_holders(lines: &mut Lines, m: u32, k: u32, n: u32) -> Result<[bool; PARTS], Fault>
    ensures { Reads (holders m k n) lines.old lines.new (seen numbers_of_lem result) }
{
    let mut marks = [false; PARTS];
    let mut before: u32 = 0;
    for _ in 0..n {
        let h = read_holder(lines, m, k, before)?;
        // Kept as a cast: std has no `From<u32>` for a usize, and a `try_from` would have an arm that nothing reaches.
        marks[(h - 1) as usize] = true;
        before = h;
    }
    Ok(marks)
}

// The lines of removal of part k of m, which may be missing.
pub fn read_cover(lines: &mut Lines, m: u32, k: u32) -> Result<Option<Cover>, Fault>
    ensures { Reads (grammar.cover m k) lines.old lines.new (seen cover_said result) }
{
    let Some(removal) = lines.optional(b"removal=", 0, Part::MAX_REMOVAL)? else {
        return Ok(None);
    };
    let n = lines.field(b"inside=", 0, Part::MAX_INSIDE)?;
    let holders = read_holders(lines, m, k, n)?;
    Ok(Some(Cover { removal, holders }))
}
