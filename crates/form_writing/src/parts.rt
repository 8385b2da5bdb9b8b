// The lines of a form's parts, put into a lent slice.
ghost use Rattle.std.specs.Prelude.{◌≤◌};
ghost use Rattle.lines.specs.Text.{texts};
ghost use Rattle.line_writing.specs.Puts.{Puts, Room};
ghost use Rattle.form_facts.specs.Facts.{parts_of, PartsAgree};
ghost use Rattle.form_facts.specs.Views.{lists_of};
ghost use Rattle.part_writing.specs.Cut.{part_cut_lem};
ghost use Rattle.form_writing.specs.Cut.{parts_cut};
ghost use Rattle.model.specs.Limits.{most_openings};

use crate::lists::put_count;
use first_parts::{behind_first, part_first};
use form_facts::lists::FormParts;
use jobs::Job;
use line_writing::output::Out;
use part_writing::put_part;

// Puts the lines of the parts, whose lists agree.
// Kept with `PartsAgree` as a condition, and with the limit of n, as in `first_parts`: the caller asks whether the lists agree once, and a type that carries the answer would be made and taken apart for each part.
fn put_parts(out: &mut Out, parts: &FormParts, n: usize)
    requires n_le_most_openings { (n ≤ most_openings) × PartsAgree n (lists_of parts.now) }
    requires prices_in_bounds { Room out.old (texts part_cut_lem (parts_of n (lists_of parts.now))) }
    ensures { Puts out.old (texts part_cut_lem (parts_of n (lists_of parts.now))) out.new }
{
    let mut rest = *parts;
    // Kept as a `while`: a part takes as many holders and prices off its lists as it says, so what is left of the lists is the count.
    while 0 < rest.lives.len() {
        put_part(out, part_first(&rest, n));
        rest = behind_first(&rest, n);
    }
}

// Puts the number of parts, and the parts if they are not too many and their lists agree.
pub fn put_counted(out: &mut Out, parts: &FormParts, n: usize)
    requires n_le_most_openings { n ≤ most_openings }
    requires prices_in_bounds { Room out.old (parts_cut n (lists_of parts.now)) }
    ensures { Puts out.old (parts_cut n (lists_of parts.now)) out.new }
{
    let m = parts.lives.len();
    // Kept as a cast: std has no `From<u32>` for a usize, and a `try_from` would have an arm that nothing reaches.
    let good = m <= Job::MAX_PARTS as usize && parts.agree(n);
    put_count(out, b"parts=", m, Job::MAX_PARTS, good);
    if good {
        put_parts(out, parts, n);
    }
}
