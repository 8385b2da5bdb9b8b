// What a search found, as a planner says it: of a line or of a hall, whose plans stand beside it.
#![tactic(auto)]

ghost use Rattle.std.specs.Prelude.{◌≡◌};
ghost use Rattle.findings.specs.Finding.{finding_number, found};

use branch::Bound;

// What a planner finds of what it accepts; the plan, or the plans, stand beside it.
// Kept as an enum of its own: an Option of the walk's numbers with a cost that may be missing and a flag for a cut would have a case more, a whole walk that found no plan.
#[derive(Clone, Copy)]
pub enum Finding {
    // 6: no plan keeps the lives.
    NoPlan,
    // 0: the cheapest plan.
    Optimum { nodes: u64, floor: u64, cost: u64 },
    // 7: the cheapest plan of the nodes walked.
    Cut { nodes: u64, floor: u64, cost: u64 },
    // 7, and none of the nodes walked is a full plan.
    CutBare { nodes: u64, floor: u64 },
}

// What a search found, by the nodes walked, the floor, the incumbent's cost and whether there are more nodes: no floor or no plan in the whole walk is 6, a walk cut short is 7.
pub fn finding_of(nodes: u64, floor: Bound, cost: Option<u64>, over: bool) -> Finding
    ensures { result ≡ found nodes floor cost over }
{
    let Bound::Sum(floor) = floor else {
        return Finding::NoPlan;
    };
    match cost {
        Some(cost) if over => Finding::Cut { nodes, floor, cost },
        Some(cost) => Finding::Optimum { nodes, floor, cost },
        None if over => Finding::CutBare { nodes, floor },
        None => Finding::NoPlan,
    }
}

// The result number of a finding.
pub fn number_of(f: Finding) -> u32
    ensures { result ≡ finding_number f }
{
    match f {
        Finding::NoPlan => 6,
        Finding::Optimum { .. } => 0,
        Finding::Cut { .. } => 7,
        Finding::CutBare { .. } => 7,
    }
}
