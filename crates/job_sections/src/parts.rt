// The parts of a job text.
ghost use Rattle.std.specs.Prelude.{◌≡◌, ◌≤◌, map, take, IfOk};
ghost use Rattle.lines.specs.Reads.{Reads, seen};
ghost use Rattle.jobs.specs.Views.{part_of_lem};
ghost use Rattle.part_lines.specs.Grammar.{meant_part};
ghost use Rattle.job_grammar.specs.Grammar as grammar;
ghost use Rattle.job_sections.specs.Views.{parts_said, Meant};
ghost use Rattle.model.specs.Limits.{most_openings, most_parts};

use jobs::Part;
use lines::fault::Fault;
use lines::rows::Lines;
use model::PARTS;
use part_lines::said::PartSaid;
use part_lines::{blank_part, put_rule_prices, read_part};

// Parts read: what their lines say and mean.
// Kept as two arrays: the job takes its parts alone.
#[derive(Clone, Copy)]
pub struct Parts {
    pub said: [PartSaid; PARTS],
    pub parts: [Part; PARTS],
}

// Reads the lines of m parts, with n openings: all but the prices of their rules.
fn list_parts(lines: &mut Lines, m: usize, n: usize) -> Result<Parts, Fault>
    requires { (m ≤ most_parts) × (n ≤ most_openings) }
    ensures reads { Reads (grammar.parts m n) lines.old lines.new (seen (parts_said m n) result) }
    ensures means { IfOk result (λ r. Meant n r.said r.parts) }
{
    // Kept as a range: two arrays are filled, and of an array that is written through a zip nothing is known after it.
    let mut said = [PartSaid::nothing(); PARTS];
    let mut parts = [blank_part(); PARTS];
    for i in 0..m {
        // Kept as casts: std has no `From<usize>` for a u32, and a `try_from` would have an arm that nothing reaches.
        let read = read_part(lines, m as u32, n, i as u32 + 1)?;
        said[i] = read.said;
        parts[i] = read.part;
    }
    Ok(Parts { said, parts })
}

// Reads m parts, with a price for each of n openings.
// Kept with the limits of m and n in the clause: the parts are read before the job is made that counts them.
pub fn read_parts(lines: &mut Lines, m: usize, n: usize) -> Result<Parts, Fault>
    requires { (m ≤ most_parts) × (n ≤ most_openings) }
    ensures reads { Reads (grammar.parts m n) lines.old lines.new (seen (parts_said m n) result) }
    ensures means { IfOk result (λ r. map (meant_part n) (parts_said m n r) ≡ map (part_of_lem n) (take m r.parts)) }
{
    let Parts {
        said,
        parts: listed,
    } = list_parts(lines, m, n)?;
    let parts = put_rule_prices(said, listed, m, n);
    Ok(Parts { said, parts })
}
