// A line's first level: nothing is decided.
#![tactic(auto)]

ghost use Rattle.std.specs.Prelude.{◌≡◌};
ghost use Rattle.lane_rows.specs.Tables.{Tables};
ghost use Rattle.held_rows.specs.Held.{HeldSheet, plain, Classed};
ghost use Rattle.held_lanes.specs.Tables.{HeldTables};
ghost use Rattle.hall_roots.specs.Root.{LineBegun};

use branch::Bound;
use hall_lines::{Level, LineRows, LineTables};
use held_lanes::TOPS;
use held_walk::first_marks;
use lane_rows::{base_row, first_sums};

// The line's first level over its tables: its first row and marks, its part sums and its term. The line's floor, if it has a plan.
pub fn begin_line(tables: &LineTables, own: &mut LineRows) -> Bound
    requires { (sheet : HeldSheet) × (Tables (plain sheet) tables.now.t) × (HeldTables sheet tables.now.u) × Classed sheet }
    ensures { (sheet : HeldSheet) → Tables (plain sheet) tables.now.t → HeldTables sheet tables.now.u → Classed sheet
        → LineBegun sheet tables.now own.new result }
{
    base_row(&mut own.w);
    first_marks(&tables.u, &mut own.v);
    let g = u64::from(tables.u[TOPS]);
    let Bound::Sum(x) = first_sums(&tables.t, g) else {
        return Bound::Missing;
    };
    own.n[0] = Level {
        rows: 1,
        sums: x,
        term: g,
        mask: 0,
    };
    let floor = g + x;
    Bound::Sum(floor)
}
