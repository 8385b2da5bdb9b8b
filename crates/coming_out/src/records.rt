// Who holds whom, whether anybody does, and the removals, from a job's part records.
ghost use Rattle.std.specs.Prelude.{◌≡◌, ltb, length, ◌<◌};
ghost use Rattle.model.specs.Limits.{most_parts};
ghost use Rattle.part_records.specs.Records.{record_at};
ghost use Rattle.base.specs.Chosen.{numbers_of_lem};
ghost use Rattle.model.specs.Model.{has_holder_lem};
ghost use Rattle.jobs.specs.Views.{job_of};
ghost use Rattle.coming_out.specs.Rows.{HeldBy, Removals};

use crate::fill::{matrix_of, row_of};
use jobs::Job;
use model::{PAIRS, PARTS};
use part_records::{part_at, removal_of};

// The holders of each part.
pub fn holders_of(job: &Job) -> [bool; PAIRS]
    ensures { HeldBy (job_of job.now) job.now.part_count result }
{
    matrix_of(
        job.part_count,
        |q|
            requires { q < most_parts }
            ensures { result ≡ (record_at job.entry.now.parts q).holders }
        { part_at(&job.parts, q).holders },
    )
}

// Some part has a holder.
pub fn has_holder(job: &Job) -> bool
    ensures { result ≡ has_holder_lem (job_of job.now) }
{
    let parts = &job.parts[..job.part_count];
    (0..parts.len()).any(
        |q|
            requires { q < length parts.now }
            ensures { result ≡ ltb 0 (length (numbers_of_lem (record_at parts.entry.now q).holders)) }
        { part_at(parts, q).holders.contains(&true) },
    )
}

// The removal of each part.
pub fn removals_of(job: &Job) -> [u32; PARTS]
    ensures { Removals (job_of job.now) result }
{
    row_of(
        job.part_count,
        0,
        |q|
            requires { q < most_parts }
            ensures { result ≡ (record_at job.entry.now.parts q).removal }
        { removal_of(&job.parts, q) },
    )
}
