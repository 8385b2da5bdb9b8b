// What the search of a hall hands back.
ghost use Rattle.std.specs.Prelude.{◌≡◌};
ghost use Rattle.hall_search.specs.Found.{hall_found_by};

use branch::Bound;
use jobs::Plan;
use search_state::Solved;

// The nodes walked, whether there are more, the incumbent's cost with its calls if there is one, the hall's floor, and the incumbent's plan of each line: the first `count` of the hall count.
// Kept as a flag, as in `search::Found`: `over` is a fact of its own.
#[derive(Drop)]
pub struct HallFound {
    pub count: u64,
    pub over: bool,
    pub cost: Option<u64>,
    pub floor: Bound,
    pub plans: [Plan; 4],
}

// What a walk found, with the plans of its incumbent.
pub fn found_by(solved: Solved, plans: [Plan; 4]) -> HallFound
    ensures { result ≡ hall_found_by solved plans }
{
    HallFound {
        count: solved.count,
        over: solved.over,
        cost: solved.cost,
        floor: solved.floor,
        plans,
    }
}
