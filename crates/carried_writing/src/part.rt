// The lines of one part of the new job.
ghost use Rattle.std.specs.Prelude.{◌≡◌, ◌≤◌, ◌<◌, length, get_or};
ghost use Rattle.line_writing.specs.Puts.{Puts, Room};
ghost use Rattle.covers.specs.Views.{cover_there};
ghost use Rattle.jobs.proofs.Jobs.{part_at};
ghost use Rattle.jobs.specs.Views.{part_of_lem};
ghost use Rattle.part_lines.specs.Rendering.{part_text};
ghost use Rattle.part_lines.specs.Views.{blank_said, part_lines_lem};
ghost use Rattle.part_writing.specs.Views.{cover_said};
ghost use Rattle.carried_writing.specs.Lists.{lows_said};
ghost use Rattle.carried_writing.specs.Left.{part_left};

use crate::lists::{holders_of, pairs_of};
use form_facts::lists::QuoteLists;
use job_text::accepted::AcceptedText;
use line_writing::output::Out;
use model::OPENINGS;
use part_lines::said::PartSaid;
use part_writing::{Cover, Part, Prices, put_part};

// The low ends of a part's prices, where they are pairs: a rule gives single prices only.
fn lows_said(said: &PartSaid) -> [Option<u32>; OPENINGS]
    ensures { result ≡ lows_said said.now }
{
    match said.rule {
        Some(_) => [None; OPENINGS],
        None => said.lows,
    }
}

// A part's lines of removal, where they stand.
// Kept with a flag: it is the mark by which the part's struct says whether they do.
fn cover_of<'a>(covered: bool, removal: u32, holders: &'a [u32]) -> Option<Cover<'a>>
    requires { length holders.now < 4294967296 }
    ensures { cover_said result ≡ cover_there covered (record { removal = removal; holders = holders.now }) }
{
    if covered {
        Some(Cover { removal, holders })
    } else {
        None
    }
}

// Puts the lines of the part at a place with this left: its life, its lines of removal as they stood, and its prices at the openings left, one by one.
// Kept with a place: what the part's lines say and the part stand in two arrays.
pub(crate) fn put_part_left(out: &mut Out, text: &AcceptedText, past: usize, left: u32, k: usize)
    requires place { k < text.now.job.job.part_count }
    requires past_few { past ≤ text.now.job.job.opening_count }
    requires left_in_bounds { let j = text.now.job.job in Room out.old (part_text (part_left j.opening_count past left (part_lines_lem (get_or text.now.said k blank_said) (part_of_lem j.opening_count (part_at j k))))) }
    ensures { let j = text.now.job.job in Puts out.old (part_text (part_left j.opening_count past left (part_lines_lem (get_or text.now.said k blank_said) (part_of_lem j.opening_count (part_at j k))))) out.new }
{
    let said = &text.said[k];
    let n = text.job.job.opening_count;
    let part = &text.job.job.parts[k];
    let holders = holders_of(&part.holders);
    let cover = cover_of(said.covered, part.removal, holders.all());
    let lows = lows_said(said);
    let pairs = pairs_of(&lows[past..n]);
    let prices = Prices::Listed(QuoteLists {
        banded: pairs.marks.all(),
        lows: pairs.ends.all(),
        highs: &part.prices[past..n],
    });
    let life = part.life;
    put_part(
        out,
        Part {
            life,
            left,
            cover,
            prices,
        },
    );
}
