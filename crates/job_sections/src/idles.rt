// The idle steps of a job text.
ghost use Rattle.std.specs.Prelude.{◌≤◌};
ghost use Rattle.lines.specs.Reads.{Reads, seen};
ghost use Rattle.job_sections.specs.Views.{idles_of, idles_said};
ghost use Rattle.job_grammar.specs.Grammar.{idle_steps_lem, idles};
ghost use Rattle.model.specs.Limits.{last_step};

use crate::steps::Idles;
use jobs::{Job, Opening};
use lines::fault::{Fault, FaultKind};
use lines::rows::Lines;
use model::STEPS;

// Reads n idle steps: each after the step before and within the horizon.
fn read_idle_steps(lines: &mut Lines, horizon: u32, n: usize) -> Result<Idles, Fault>
    requires { n ≤ last_step }
    ensures { Reads (idle_steps_lem horizon n) lines.old lines.new (seen idles_of result) }
{
    let mut idles = [0; STEPS];
    let mut before: u32 = 0;
    for place in idles[..n].iter_mut() {
        let step = lines.rising(
            b"idle=",
            Opening::MAX_STEP,
            before,
            horizon,
            FaultKind::Step,
        )?;
        *place = step;
        before = step;
    }
    Ok(Idles { count: n, idles })
}

// Reads the number of idle steps and the steps: none where the number's line is missing.
pub fn read_idles(lines: &mut Lines, horizon: u32) -> Result<Idles, Fault>
    ensures { Reads (idles horizon) lines.old lines.new (seen idles_said result) }
{
    match lines.optional(b"idles=", Job::MIN_IDLES, Job::MAX_IDLES)? {
        // Kept as a cast: std has no `From<u32>` for a usize, and a `try_from` would have an arm that nothing reaches.
        Some(n) => read_idle_steps(lines, horizon, n as usize),
        None => Ok(Idles {
            count: 0,
            idles: [0; STEPS],
        }),
    }
}
