// The lines of a job, and the whole job text.
ghost use Rattle.std.specs.Prelude.{◌≡◌};
ghost use Rattle.lines.specs.Parser.{finish, whole};
ghost use Rattle.lines.specs.Reads.{Reads, seen, outcome};
ghost use Rattle.job_text.specs.Views.{text_of, text_in};
ghost use Rattle.job_grammar.specs.Grammar.{job_lines, read_job_text};

use crate::accepted::AcceptedText;
use crate::text::JobText;
use job_sections::idles::read_idles;
use job_sections::openings::read_openings;
use job_sections::parts::{Parts, read_parts};
use job_sections::walk::read_walk;
use jobs::{Accepted, Job};
use lines::fault::Fault;
use lines::rows::Lines;

// Reads the lines of a job.
pub fn read_job_lines(lines: &mut Lines) -> Result<JobText, Fault>
    ensures { Reads job_lines lines.old lines.new (seen text_of result) }
{
    let horizon = lines.field(b"horizon=", Job::MIN_HORIZON, Job::MAX_HORIZON)?;
    let steps = read_idles(lines, horizon)?;
    let walk = read_walk(lines)?;
    // Kept as casts, here and of m: std has no `From<u32>` for a usize, and a `try_from` would have an arm that nothing reaches.
    let n = lines.field(b"openings=", 0, Job::MAX_OPENINGS)? as usize;
    let openings = read_openings(lines, horizon, n)?;
    let m = lines.field(b"parts=", Job::MIN_PARTS, Job::MAX_PARTS)? as usize;
    let Parts { said, parts } = read_parts(lines, m, n)?;
    let idles = steps.idles;
    let job = Job {
        horizon,
        idle_count: steps.count,
        idles,
        opening_count: n,
        openings,
        part_count: m,
        parts,
    };
    Ok(JobText { walk, said, job })
}

// Reads the lines of a job and nothing behind them, however long the text is: bytes after the last line are fault 2.
// Kept apart from the last lines of `read_plan` and `read_log`: one function over the three readers needs a closure with a contract, and is no plainer.
pub fn read_all(text: &[u8]) -> Result<JobText, Fault>
    ensures { outcome (seen text_of result) ≡ finish (whole job_lines text.now 1) }
{
    let mut lines = Lines::of(text);
    let said = read_job_lines(&mut lines)?;
    lines.end()?;
    Ok(said)
}

// Reads the whole job text: a text over the limit is fault 1. A call of its own, so that what it needs of the stack is given back before a search.
#[inline(never)]
pub fn read_job(text: &[u8]) -> Result<AcceptedText, Fault>
    ensures { outcome (seen text_in result) ≡ read_job_text text.now }
{
    if Job::MAX_BYTES < text.len() {
        return Err(Fault::TOO_LONG);
    }
    let read = read_all(text)?;
    let said = read.said;
    let job = Accepted::of(read.job);
    Ok(AcceptedText {
        walk: read.walk,
        said,
        job,
    })
}
