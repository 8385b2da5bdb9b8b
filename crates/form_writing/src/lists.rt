// The lines of lists of numbers, put into a lent slice.
ghost use Rattle.std.specs.Prelude.{suc, ◌≡◌, ◌≤◌, true, cond, length};
ghost use Rattle.lines.specs.Text.{line, texts, optional_text};
ghost use Rattle.line_writing.specs.Puts.{Puts, Room};
ghost use Rattle.job_grammar.specs.Optionals.{idle_lines};
ghost use Rattle.job_grammar.specs.Rendering.{opening_text};
ghost use Rattle.form_facts.specs.Facts.{paired};
ghost use Rattle.form_writing.specs.Cut.{idles_cut};

use jobs::Job;
use line_writing::output::Out;
use part_writing::put_values;

// Puts the line of a count where it is good, else the number past its range, which no reader takes.
// Kept with a flag: it picks a number, and not one of two bodies.
pub fn put_count(out: &mut Out, key: &[u8], n: usize, most: u32, good: bool)
    requires n_bound { good ≡ true → n ≤ most }
    requires n_in_bounds { Room out.old (line key.now (cond good n (suc most))) }
    ensures { Puts out.old (line key.now (cond good n (suc most))) out.new }
{
    // Kept as a cast: std has no `From<usize>` for a u64, and a `try_from` would have an arm that nothing reaches.
    let count = if good { n as u64 } else { u64::from(most) + 1 };
    out.put_line(key, count);
}

// Puts the number of idle steps, and the steps if there are not too many.
pub fn put_idles(out: &mut Out, idles: &[u32])
    requires { Room out.old (optional_text idles_cut (idle_lines idles.now)) }
    ensures { Puts out.old (optional_text idles_cut (idle_lines idles.now)) out.new }
{
    let n = idles.len();
    if n == 0 {
        return;
    }
    // Kept as a cast: std has no `From<u32>` for a usize, and a `try_from` would have an arm that nothing reaches.
    let good = n <= Job::MAX_IDLES as usize;
    put_count(out, b"idles=", n, Job::MAX_IDLES, good);
    if good {
        put_values(out, b"idle=", idles);
    }
}

// Puts the lines of an opening.
fn put_opening(out: &mut Out, step: u32, fee: u32)
    requires { Room out.old (opening_text (record { step = step; fee = fee })) }
    ensures { Puts out.old (opening_text (record { step = step; fee = fee })) out.new }
{
    out.put_line(b"opening=", u64::from(step));
    out.put_line(b"fee=", u64::from(fee));
}

// Puts the lines of the openings, which have as many fees.
pub fn put_openings(out: &mut Out, openings: &[u32], fees: &[u32])
    requires fees_len { length fees.now ≡ length openings.now }
    requires fees_in_bounds { Room out.old (texts opening_text (paired openings.now fees.now)) }
    ensures { Puts out.old (texts opening_text (paired openings.now fees.now)) out.new }
{
    for (step, fee) in openings.iter().zip(fees) {
        put_opening(out, *step, *fee);
    }
}
