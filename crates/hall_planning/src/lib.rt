// The hall planner: the cheapest plans of a hall's lines, with the crew's calls.
#![tactic(auto)]

ghost use Rattle.std.specs.Prelude.{◌≤◌, length};
ghost use Rattle.model.specs.Limits.{most_walk};
ghost use Rattle.answers.specs.Said.{lent, Replied};
ghost use Rattle.hall_model.specs.Promise.{hall_answer};
ghost use Rattle.hall_jobs.specs.Views.{hall_of};
ghost use Rattle.hall_printing.specs.Lines.{hall_reply};
ghost use Rattle.hall_planning.specs.Hall.{hall_said, hall_room};
ghost use Rattle.hall_planning.specs.Promise.{HallPromise};

use answers::{Answer, JOB, refuse};
use findings::finding_of;
use hall_jobs::HallJobs;
use hall_printing::answer_hall;
use hall_search::search_hall;
use hall_text::reading::read_hall;
use planning::{ROOM, walk_number};

// Answers the call for an accepted hall text: by the search of its lines.
fn plan_hall(hall: &HallJobs, walk: u32, out: &mut [u8]) -> Answer
    requires { walk ≤ most_walk }
    ensures { Replied hall_room (hall_reply (hall_of hall.now) (hall_answer (hall_of hall.now) walk)) out.old out.new result }
{
    let found = search_hall(hall, walk);
    let finding = finding_of(found.count, found.floor, found.cost, found.over);
    answer_hall(finding, hall, &found.plans, out)
}

// The plans of a hall text, walked up to the walk number of the call: every number that is handed over and every byte of the output are the defined ones (`Replied`). The answer is 6 exactly if the
// text is accepted and some line has no plan, 7 exactly if each has one and the whole walk has more nodes than the walk number; with 0 the plans printed keep every life, and no set of plans that does costs
// less with calls included (`HallPromise`).
pub fn hall(text: &[u8], walk: u64, out: &mut [u8]) -> Answer
    ensures replied { Replied hall_room (hall_said text.now walk) out.old out.new result }
    ensures hall_promise { HallPromise text.now walk (length out.old) (lent hall_room (length out.old) (hall_said text.now walk)) }
{
    // Kept in each call: the arm for a fault is one call of `refuse`, and one function for all calls would take the rest of each as a closure over the text and the output.
    match read_hall(text) {
        Ok(hall) => plan_hall(&hall, walk_number(walk), out),
        Err(fault) => refuse(text, JOB, fault, ROOM, out),
    }
}
