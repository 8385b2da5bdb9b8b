// The openings of a job text.
ghost use Rattle.std.specs.Prelude.{◌≤◌};
ghost use Rattle.lines.specs.Reads.{Reads, seen};
ghost use Rattle.jobs.specs.Views.{opening_of};
ghost use Rattle.job_sections.specs.Views.{openings_said};
ghost use Rattle.job_grammar.specs.Grammar.{opening, openings};
ghost use Rattle.model.specs.Limits.{most_openings};

use jobs::Opening;
use lines::fault::{Fault, FaultKind};
use lines::rows::Lines;
use model::OPENINGS;

// Reads an opening: its step, after the step before and within the horizon, and its fee.
fn read_opening(lines: &mut Lines, horizon: u32, before: u32) -> Result<Opening, Fault>
    ensures { Reads (opening horizon before) lines.old lines.new (seen opening_of result) }
{
    let step = lines.rising(
        b"opening=",
        Opening::MAX_STEP,
        before,
        horizon,
        FaultKind::Step,
    )?;
    let fee = lines.field(b"fee=", 0, Opening::MAX_FEE)?;
    Ok(Opening { step, fee })
}

// Reads n openings.
// Kept with the limit of n in the clause: the openings are read before the job is made that counts them.
pub fn read_openings(
    lines: &mut Lines,
    horizon: u32,
    n: usize,
) -> Result<[Opening; OPENINGS], Fault>
    requires { n ≤ most_openings }
    ensures { Reads (openings horizon n) lines.old lines.new (seen (openings_said n) result) }
{
    // Kept with openings of zeros past the n that count: no heap, and an array's places hold something.
    let mut openings = [Opening { step: 0, fee: 0 }; OPENINGS];
    let mut before: u32 = 0;
    for place in openings[..n].iter_mut() {
        let opening = read_opening(lines, horizon, before)?;
        *place = opening;
        before = opening.step;
    }
    Ok(openings)
}
