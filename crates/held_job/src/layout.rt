// A job's numbers with what holders and removals add to them, laid out in arrays for the searches over openings and removals.
ghost use Rattle.jobs.specs.Views.{job_of};
ghost use Rattle.held_tables.specs.Numbers.{Holds};
ghost use Rattle.held_job.specs.LaidOut.{LaidOut};

use crate::holders::{HolderNumbers, holder_numbers_of};
use held_tables::numbers::HeldNumbers;
use job_numbers::{Numbers, numbers_of, prices_of};
use jobs::Accepted;
use model::PRICES;

// The arrays of a job: its own numbers, what holders and removals add to them, and the prices with it.
#[derive(Drop)]
pub struct Layout {
    pub numbers: Numbers,
    pub holders: HolderNumbers,
    pub prices: [u32; PRICES],
}

// The arrays of an accepted job.
pub fn layout_of(job: &Accepted) -> Layout
    ensures { LaidOut job.now.job result }
{
    let numbers = numbers_of(job);
    let holders = holder_numbers_of(&job.job);
    let prices = prices_of(job, &holders.charges);
    Layout {
        numbers,
        holders,
        prices,
    }
}

impl Layout {
    // The job in these arrays, as the searches over openings and removals take it.
    pub fn held<'a>(&'a self, job: &Accepted) -> HeldNumbers<'a>
        requires { LaidOut job.now.job self.now }
        ensures { Holds (job_of job.now.job) result }
    {
        HeldNumbers {
            job: self.numbers.flat(job, &self.prices),
            needs: &self.holders.needs,
            removals: &self.holders.removals[..self.holders.holding],
        }
    }
}
