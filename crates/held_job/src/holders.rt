// What holders and removals add to a job's numbers: the charges, who comes out with whom, and the removals that are decided.
ghost use Rattle.jobs.specs.Views.{job_of};
ghost use Rattle.held_job.specs.Removed.{HolderNumbersOf};

use coming_out::come_out;
use coming_out::records::{holders_of, removals_of};
use holding_parts::{charges, holding_of, inner_removals, needs};
use jobs::Job;
use model::{PAIRS, PARTS};

// What is added to each part's prices; of the parts that are somebody's holder, those that come out with each part; their removals; and how many they are.
// Kept as an array of removals with its count: there is no heap.
#[derive(Drop)]
pub struct HolderNumbers {
    pub charges: [u32; PARTS],
    pub needs: [bool; PAIRS],
    pub removals: [u32; PARTS],
    pub holding: usize,
}

// What holders and removals add to the numbers of a job.
pub fn holder_numbers_of(job: &Job) -> HolderNumbers
    ensures { HolderNumbersOf (job_of job.now) result }
{
    let count = job.part_count;
    let paid = removals_of(job);
    let holders = holders_of(job);
    let outs = come_out(&holders, count);
    let holding = holding_of(&holders, count);
    let marks = holding.marks;
    HolderNumbers {
        charges: charges(paid, marks),
        needs: needs(&outs, count, holding),
        removals: inner_removals(paid, holding),
        holding: holding.count,
    }
}
