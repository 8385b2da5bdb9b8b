// Each line's tables, filled from its job, and its first level.
#![tactic(auto)]

ghost use Rattle.jobs.specs.Views.{job_of};
ghost use Rattle.hall_jobs.specs.Views.{hall_of};
ghost use Rattle.hall_tables.specs.Filled.{LineFilled, LinesFilled};

use branch::Bound;
use hall_jobs::HallJobs;
use hall_lines::{LineRows, LineTables};
use hall_roots::begin_line;
use held_job::layout::layout_of;
use held_tables::fill_held;
use jobs::Accepted;
use least::TABLE;
use part_classes::classes_of;

// A line's tables are filled from its job, and its first level is written. The line's floor, if it has a plan.
// A call of its own, so that what laying a job out needs of the stack does not lie beside what the walk needs.
#[inline(never)]
fn fill_line(
    job: &Accepted,
    tab: &mut [u64; TABLE],
    tables: &mut LineTables,
    own: &mut LineRows,
) -> Bound
    ensures { LineFilled (job_of job.now.job) tables.new own.new result }
{
    let layout = layout_of(job);
    let numbers = layout.held(job);
    let classes = classes_of(&numbers.needs(), numbers.job.lives.len());
    numbers.job.fill_rows(tab, &mut tables.t);
    fill_held(&numbers, &classes, tab, &mut tables.u);
    begin_line(tables, own)
}

// Each line's tables and its first level, over which the hall's floor is answered, if each line has a plan.
// Kept as a loop over places: a line's job, its tables and its rows meet at one place.
pub fn fill_lines(hall: &HallJobs, lines: &mut [LineTables; 4], rows: &mut [LineRows; 4]) -> Bound
    ensures { LinesFilled (hall_of hall.now) lines.new rows.new result }
{
    let mut tab = [0; TABLE];
    let mut floor = 0;
    for d in 0..hall.count {
        let own = fill_line(&hall.jobs[d], &mut tab, &mut lines[d], &mut rows[d]);
        let Bound::Sum(own) = own else {
            return Bound::Missing;
        };
        floor += own;
    }
    Bound::Sum(floor)
}
