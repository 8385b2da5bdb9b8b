// The order form: a job text written from lists of numbers.
#![tactic(auto)]

ghost use Rattle.std.specs.Prelude.{◌≡◌, ◌≤◌, length};
ghost use Rattle.lines.specs.Parser.{finish, whole};
ghost use Rattle.job_grammar.specs.Grammar.{job_lines};
ghost use Rattle.lines.specs.Wrote.{Wrote};
ghost use Rattle.form_facts.specs.Facts.{part_lists};
ghost use Rattle.form_facts.specs.Views.{lists_of};
ghost use Rattle.form_writing.specs.Cut.{form_cut, longest_cut};
ghost use Rattle.answers.specs.Said.{lent, plainly, Replied};
ghost use Rattle.form.specs.Form.{filled};
ghost use Rattle.form.specs.Write.{form_reply, write_said, write_room};
ghost use Rattle.form.specs.Promise.{WritePromise};

use answers::{Answer, JOB, refuse, reply};
use form_facts::lists::{CoverLists, FormParts, QuoteLists, RuleLists};
use form_writing::whole::{FormLists, put_form};
use job_text::whole::read_all;
use jobs::Job;
use line_writing::output::Out;

// The room that a job text must have: as much as a text may have bytes.
pub const ROOM: usize = Job::MAX_BYTES;

// The most bytes of the text that is read: more than a job text may have, where numbers are out of their ranges.
const LONGEST: usize = 45257;

// Answers the writer's call with a text.
fn answer(text: &[u8], out: &mut [u8]) -> Answer
    requires { length text.now ≤ write_room }
    ensures { Replied write_room (plainly 0 text.now) out.old out.new result }
{
    reply(0, ROOM, out, |lines| lines.put_bytes(text))
}

// The answer to the text that a form's lists make: its first fault, else the text itself. There is no text of the caller's, and so no line at fault.
fn answer_text(text: &[u8], out: &mut [u8]) -> Answer
    requires { length text.now ≤ longest_cut }
    ensures { Replied write_room (form_reply (finish (whole job_lines text.now 1))) out.old out.new result }
{
    match read_all(text) {
        Ok(_) => answer(text, out),
        Err(fault) => refuse(b"", JOB, fault, ROOM, out),
    }
}

// The lists of a form's parts.
// Kept as a row of lists: they are what the C interface hands over, put together here.
fn parts_of<'a>(
    lives: &'a [u32],
    lefts: &'a [u32],
    covered: &'a [u32],
    removals: &'a [u32],
    insides: &'a [u32],
    holders: &'a [u32],
    ruled: &'a [u32],
    bases: &'a [u32],
    drops: &'a [u32],
    leasts: &'a [u32],
    banded: &'a [u32],
    lows: &'a [u32],
    prices: &'a [u32],
) -> FormParts<'a>
    ensures { lists_of result ≡ part_lists lives.now lefts.now covered.now removals.now insides.now holders.now ruled.now bases.now drops.now leasts.now banded.now lows.now prices.now }
{
    FormParts {
        lives,
        lefts,
        covers: CoverLists {
            covered,
            removals,
            insides,
            holders,
        },
        rules: RuleLists {
            ruled,
            bases,
            drops,
            leasts,
        },
        quotes: QuoteLists {
            banded,
            lows,
            highs: prices,
        },
    }
}

// Writes the text of a form's lists from the start of a slice on, and answers how long it is.
fn write_text(form: &FormLists, text: &mut [u8]) -> usize
    requires { length (form_cut form.now.horizon form.now.idles.now form.now.openings.now form.now.fees.now (lists_of form.now.parts)) ≤ length text.old }
    ensures { Wrote text.old 0 (form_cut form.now.horizon form.now.idles.now form.now.openings.now form.now.fees.now (lists_of form.now.parts)) text.new result }
{
    let mut lines = Out { bytes: text, at: 0 };
    put_form(&mut lines, form);
    lines.at
}

// Writes the job text of a form: every number that is handed over and every byte of the output are the defined ones (`Replied`);
// the text reads back as what the form states, and an accepted text without a walk line comes back byte for byte (`WritePromise`).
// Kept as a row of lists: the C interface hands them over so.
pub fn write(
    horizon: u32,
    idles: &[u32],
    openings: &[u32],
    fees: &[u32],
    lives: &[u32],
    lefts: &[u32],
    covered: &[u32],
    removals: &[u32],
    insides: &[u32],
    holders: &[u32],
    ruled: &[u32],
    bases: &[u32],
    drops: &[u32],
    leasts: &[u32],
    banded: &[u32],
    lows: &[u32],
    prices: &[u32],
    out: &mut [u8],
) -> Answer
    ensures replied { Replied write_room (write_said (filled horizon idles.now openings.now fees.now lives.now lefts.now covered.now removals.now insides.now holders.now ruled.now bases.now drops.now leasts.now banded.now lows.now prices.now)) out.old out.new result }
    ensures write_promise { WritePromise (filled horizon idles.now openings.now fees.now lives.now lefts.now covered.now removals.now insides.now holders.now ruled.now bases.now drops.now leasts.now banded.now lows.now prices.now) (length out.old)
        (lent write_room (length out.old) (write_said (filled horizon idles.now openings.now fees.now lives.now lefts.now covered.now removals.now insides.now holders.now ruled.now bases.now drops.now leasts.now banded.now lows.now prices.now))) }
{
    let parts = parts_of(
        lives, lefts, covered, removals, insides, holders, ruled, bases, drops, leasts, banded,
        lows, prices,
    );
    let form = FormLists {
        horizon,
        idles,
        openings,
        fees,
        parts,
    };
    let mut text = [0u8; LONGEST];
    let n = write_text(&form, &mut text);
    answer_text(&text[..n], out)
}
