// The plan of nothing.
ghost use Rattle.std.specs.Prelude.{◌≡◌, ℕ, ◌≤◌};
ghost use Rattle.model.specs.Limits.{most_openings, most_parts};
ghost use Rattle.jobs.specs.Views.{model_plan, empty_plan};

use crate::{Changes, Plan};
use model::{OPENINGS, PARTS};

impl Plan {
    // The plan of no stops and no changes.
    pub fn empty() -> Plan
        ensures { (n m : ℕ) → n ≤ most_openings → m ≤ most_parts → model_plan n m result ≡ empty_plan n m }
    {
        let none = Changes {
            at: [false; OPENINGS],
        };
        Plan {
            stops: [false; OPENINGS],
            changes: [none; PARTS],
        }
    }
}
