// How long a walk may become, without walking: the nodes of the walk that drops a node only if its bound is missing.
#![tactic(auto)]

ghost use Rattle.std.specs.Prelude.{◌≡◌};
ghost use Rattle.longest_walk.specs.Count.{open_count, least_life, least_left};
ghost use Rattle.jobs.specs.Views.{job_of};
ghost use Rattle.counting.specs.Count.{plain_lem, counted_job_lem, count_said};
ghost use Rattle.counting.specs.Promise.{CountPromise};

use clock::positions_of;
use coming_out::records::has_holder;
use fault_lines::fault::fault_span;
use job_text::whole::read_job;
use jobs::{Accepted, Part};
use lines::fault::FaultKind;
use node_counts::PartGaps;
use part_records::{left_of, life_of};
use reach::last_change;

// What the call hands over: the result number; which text is at fault (1 the job, else 0) and its line (else 0); the count;
// and where the line at fault stands in its text.
// Kept as numbers of which some stand for none: the C interface hands them out.
#[repr(C)]
#[derive(Clone, Copy)]
pub struct Counted {
    pub result: u32,
    pub text: u32,
    pub line: u32,
    pub count: u32,
    pub fault_start: usize,
    pub fault_length: usize,
}

// The least life of a job's parts, and the least first life.
#[derive(Clone, Copy)]
struct Least {
    life: u32,
    left: u32,
}

// The least lives of an accepted job.
// Kept as a loop over places: a rule of the project, that the numbers of a record are read by thin functions over the slice that is lent.
fn least_of(job: &Accepted) -> Least
    ensures { (result.life ≡ least_life (job_of job.now.job)) × (result.left ≡ least_left (job_of job.now.job)) }
{
    let mut life = Part::MAX_LIFE;
    let mut left = Part::MAX_LEFT;
    let parts = &job.job.parts[..job.job.part_count];
    for i in 0..parts.len() {
        life = life.min(life_of(parts, i));
        left = left.min(left_of(parts, i));
    }
    Least { life, left }
}

// The count of an accepted job.
// Kept as a cast: std has no From for it, and a life is at most 1000.
fn count_job(job: &Accepted) -> u32
    ensures { result ≡ open_count (job_of job.now.job) }
{
    let placed = positions_of(job);
    let least = least_of(job);
    let gaps = PartGaps {
        life: least.life as i32,
        end: placed.end,
        first: last_change(least.life, least.left),
        positions: &placed.at[..job.job.opening_count],
    };
    gaps.count()
}

impl Counted {
    // What is handed over where the job text is not at fault: a result number and a count.
    fn plain(number: u32, count: u32) -> Counted
        ensures { result ≡ plain_lem number count }
    {
        Counted {
            result: number,
            text: 0,
            line: 0,
            count,
            fault_start: 0,
            fault_length: 0,
        }
    }
}

// What is handed over for an accepted job: the number of a holder's fault where it has one, else its count.
fn counted_job(job: &Accepted) -> Counted
    ensures { result ≡ counted_job_lem (job_of job.now.job) }
{
    if has_holder(&job.job) {
        return Counted::plain(FaultKind::Holder.number(), 0);
    }
    Counted::plain(0, count_job(job))
}

// How long the walk of a job text may become: every number that is handed over is the defined one (`count_said`). The result is 0 exactly if the job is accepted and has no holder; the
// count is then the defined one, up to the cap; and below the cap no walk of this job has more nodes (`CountPromise`). A job with a holder is refused with 12, behind every fault of its text.
pub fn count(job: &[u8]) -> Counted
    ensures { (result ≡ count_said job.now) × CountPromise job.now result }
{
    match read_job(job) {
        Ok(text) => counted_job(&text.job),
        Err(fault) => {
            let span = fault_span(job, fault.line);
            // Kept as a cast: std has no From for it, and a fault's line is at most one more than the text has bytes, which a limit bounds.
            Counted {
                result: fault.kind.number(),
                text: 1,
                line: fault.line as u32,
                count: 0,
                fault_start: span.start,
                fault_length: span.length,
            }
        }
    }
}
