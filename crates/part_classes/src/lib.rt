// Classes of parts: parts that need the same holding parts. A class is led by its first part.
#![tactic(auto)]

pub mod classes;

ghost use Rattle.std.specs.Prelude.{◌≡◌, ◌+◌, ◌<◌, ◌≤◌, MatchOption, true, get_or};
ghost use Rattle.lane_rows.specs.Layout.{lane_count_lem};
ghost use Rattle.held_places.specs.Arrays.{needs_at};
ghost use Rattle.part_classes.specs.Grouped.{same_needs_lem, class_at, grouping, Grouped};

use classes::Classes;
use held_places::needs::Needs;
use model::PARTS;

// Kept with the limits of p, q and m in the clauses, here and below: a part's number is a plain one, and a type of bounded numbers would be taken apart at each index.

// Parts p and q need the same of the holding parts.
fn same_needs(needs: &Needs, p: usize, q: usize) -> bool
    requires { (p < lane_count_lem) × (q < lane_count_lem) }
    ensures same { result ≡ same_needs_lem needs.now.marks.now needs.now.holding p q }
    ensures rows { result ≡ true → needs_at needs.now.holding needs.now.marks.now p ≡ needs_at needs.now.holding needs.now.marks.now q }
{
    needs.of(p) == needs.of(q)
}

// The first class that needs what part q needs, if there is one.
fn class_like(needs: &Needs, classes: &Classes, q: usize) -> Option<usize>
    requires { q < lane_count_lem }
    ensures { MatchOption result (class_at needs.now.marks.now needs.now.holding (grouping classes.now) q ≡ classes.now.count)
        (λ c. (c ≡ class_at needs.now.marks.now needs.now.holding (grouping classes.now) q) × (c < classes.now.count)
        × (needs_at needs.now.holding needs.now.marks.now (get_or classes.now.leads c 0) ≡ needs_at needs.now.holding needs.now.marks.now q)) }
{
    classes.leads[..classes.count]
        .iter()
        .position(|lead| same_needs(needs, *lead, q))
}

// The classes with part q: in one that is there, or in one more, which it leads.
fn add_part(needs: &Needs, classes: &mut Classes, q: usize)
    requires { (q < lane_count_lem) × Grouped needs.now.marks.now needs.now.holding q (grouping classes.old) }
    ensures { Grouped needs.now.marks.now needs.now.holding (q + 1) (grouping classes.new) }
{
    match class_like(needs, classes, q) {
        Some(c) => classes.lanes[q] = c,
        None => {
            let c = classes.count;
            classes.lanes[q] = c;
            classes.leads[c] = q;
            classes.count += 1;
        }
    }
}

// The classes of m parts, by their needs of the holding parts.
// Kept as a range: q is the number of a part, by which its row of needs is read.
pub fn classes_of(needs: &Needs, m: usize) -> Classes
    requires { m ≤ lane_count_lem }
    ensures { Grouped needs.now.marks.now needs.now.holding m (grouping result) }
{
    let mut classes = Classes {
        lanes: [0; PARTS],
        leads: [0; PARTS],
        count: 0,
    };
    for q in 0..m {
        add_part(needs, &mut classes, q);
    }
    classes
}
