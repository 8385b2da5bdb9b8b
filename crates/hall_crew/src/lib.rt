// The steps of a hall's crew, from its jobs: those at which some line is open, with the openings that each line has before each of them.
#![tactic(auto)]

ghost use Rattle.std.specs.Prelude.{◌≡◌, List, [], ◌∷◌, ◌++◌, ℕ, ◌<◌, ◌≤◌, cond, get_or, true};
ghost use Rattle.model.specs.Limits.{most_openings};
ghost use Rattle.hall_model.specs.Agenda.{some_open};
ghost use Rattle.hall_steps.specs.Table.{CrewTable};
ghost use Rattle.hall_jobs.specs.Views.{jobs_of, hall_of};
ghost use Rattle.hall_crew.specs.Crew.{Behind, Rowed};

use hall_jobs::HallJobs;
use hall_steps::CrewSteps;

// Whether some line is open at the step.
fn some_opens(hall: &HallJobs, step: u32) -> bool
    ensures { result ≡ some_open (jobs_of hall.now) step }
{
    hall.jobs[..hall.count]
        .iter()
        .any(|line| line.job.opens(step))
}

// The openings that each line has behind the step, from those that it has before it.
// Kept as a loop over places: the lines' jobs and their rows meet at one place, and zipped a proof has an iterator of both, and not the place.
fn row_behind(hall: &HallJobs, step: u32, row: [usize; 4]) -> [usize; 4]
    requires { (d : ℕ) → d < hall.now.count → get_or row d 0 ≤ most_openings }
    ensures { Behind (jobs_of hall.now) step row result }
{
    let mut next = row;
    for d in 0..hall.count {
        next[d] += usize::from(hall.jobs[d].job.opens(step));
    }
    next
}

// A step is looked at, behind those in the table: it is asked if some line is open there.
fn look_at(ats: &mut CrewSteps, hall: &HallJobs, step: u32)
    requires rows { (done : List ℕ) × Rowed (jobs_of hall.now) done ats.old }
    requires room { some_open (jobs_of hall.now) step ≡ true → ats.old.steps < most_openings }
    ensures rows { (done : List ℕ) → Rowed (jobs_of hall.now) done ats.old → Rowed (jobs_of hall.now) (done ++ cond (some_open (jobs_of hall.now) step) (step ∷ []) []) ats.new }
    ensures lines { ats.new.lines ≡ ats.old.lines }
    ensures call { ats.new.call ≡ ats.old.call }
{
    if !some_opens(hall, step) {
        return;
    }
    let row = row_behind(hall, step, ats.before[ats.steps]);
    ats.steps += 1;
    ats.before[ats.steps] = row;
}

// The steps of the hall's crew.
pub fn crew_steps(hall: &HallJobs) -> CrewSteps
    ensures { CrewTable (hall_of hall.now) result }
{
    let mut ats = CrewSteps {
        before: [[0; 4]; 65],
        steps: 0,
        lines: hall.count,
        call: u64::from(hall.call),
    };
    for step in 1..hall.jobs[0].job.horizon + 1 {
        look_at(&mut ats, hall, step);
    }
    ats
}
