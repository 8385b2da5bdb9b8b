// The new job's text of carrying on, put into a lent output by the writer of job texts.
#![tactic(auto)]

mod lists;
mod numbers;
mod part;

ghost use Rattle.std.specs.Prelude.{◌≡◌, ◌++◌, ◌≤◌, ◌-◌, map, length, drop};
ghost use Rattle.lines.specs.Text.{line_of, texts, optional_text};
ghost use Rattle.line_writing.specs.Puts.{Puts, Room};
ghost use Rattle.jobs.specs.Views.{job_of};
ghost use Rattle.job_grammar.specs.Optionals.{idle_lines};
ghost use Rattle.job_grammar.specs.Rendering.{idles_text, opening_text, job_text_lem};
ghost use Rattle.part_lines.specs.Rendering.{part_text};
ghost use Rattle.job_text.specs.Views.{text_in};
ghost use Rattle.carry.specs.Carry.{passed, later, renumbered};
ghost use Rattle.carried_writing.specs.Left.{parts_left, text_left};

use crate::part::put_part_left;
use form_writing::lists::{put_count, put_idles, put_openings};
use job_text::accepted::AcceptedText;
use jobs::{Accepted, Job};
use later_steps::{OpeningLists, count_to, opening_lists, renumbered};
use line_writing::output::Out;
use log_text::past::past_count;
use model::PARTS;

// Puts the lines of the idle steps after a step, renumbered; none where none is left.
fn put_idles_left(out: &mut Out, job: &Accepted, step: u32)
    requires { Room out.old (optional_text idles_text (idle_lines (later step (job_of job.now.job).idles))) }
    ensures { Puts out.old (optional_text idles_text (idle_lines (later step (job_of job.now.job).idles))) out.new }
{
    let idles = &job.job.idles[..job.job.idle_count];
    let n = count_to(idles, step);
    let steps = renumbered(idles, n, step);
    put_idles(out, &steps[..idles.len() - n]);
}

// Puts the number of openings after a step, and these openings, renumbered with their fees.
fn put_openings_left(out: &mut Out, job: &Accepted, step: u32, past: usize)
    requires past { past ≡ passed (job_of job.now.job) step }
    requires steps_in_bounds { let os = map (renumbered step) (drop past (job_of job.now.job).openings) in Room out.old (line_of "openings=" (length os) ++ texts opening_text os) }
    ensures { let os = map (renumbered step) (drop past (job_of job.now.job).openings) in Puts out.old (line_of "openings=" (length os) ++ texts opening_text os) out.new }
{
    let n = job.job.opening_count;
    let OpeningLists { steps, fees } = opening_lists(&job.job);
    let later = renumbered(&steps[..n], past, step);
    put_count(out, b"openings=", n - past, Job::MAX_OPENINGS, true);
    put_openings(out, &later[..n - past], &fees[past..n]);
}

// Puts the number of parts, and the parts, each with what is left of it.
// Kept with a place: what a part's lines say, the part, and what is left of it stand in three arrays.
fn put_parts_left(out: &mut Out, text: &AcceptedText, past: usize, lefts: &[u32; PARTS])
    requires past_few { past ≤ text.now.job.job.opening_count }
    requires lefts_in_bounds { let t = text_in text.now in let ps = parts_left (length t.openings) past lefts.now t.parts in Room out.old (line_of "parts=" (length ps) ++ texts part_text ps) }
    ensures { let t = text_in text.now in let ps = parts_left (length t.openings) past lefts.now t.parts in Puts out.old (line_of "parts=" (length ps) ++ texts part_text ps) out.new }
{
    let m = text.job.job.part_count;
    put_count(out, b"parts=", m, Job::MAX_PARTS, true);
    for k in 0..m {
        put_part_left(out, text, past, lefts[k], k);
    }
}

// Puts the text of the job that is left behind a step: the horizon is shorter by the step, idle steps and openings are renumbered, and of each part is left what is handed over. No line says a walk number.
pub fn put_carried(out: &mut Out, text: &AcceptedText, step: u32, lefts: &[u32; PARTS])
    requires step_low { step ≤ text.now.job.job.horizon }
    requires lefts_in_bounds { Room out.old (job_text_lem (text_left (text_in text.now) step lefts.now)) }
    ensures { Puts out.old (job_text_lem (text_left (text_in text.now) step lefts.now)) out.new }
{
    let past = past_count(&text.job.job, step);
    out.put_line(b"horizon=", u64::from(text.job.job.horizon - step));
    put_idles_left(out, &text.job, step);
    put_openings_left(out, &text.job, step, past);
    put_parts_left(out, text, past, lefts);
}
