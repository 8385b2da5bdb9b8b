// The whole text of a form's lists.
ghost use Rattle.std.specs.Prelude.{◌≡◌, ◌≤◌, length};
ghost use Rattle.line_writing.specs.Puts.{Puts, Room};
ghost use Rattle.form_facts.specs.Views.{lists_of};
ghost use Rattle.form_writing.specs.Cut.{body_cut, rest_cut, form_cut};
ghost use Rattle.model.specs.Limits.{most_openings};

use crate::lists::{put_count, put_idles, put_openings};
use crate::parts::put_counted;
use form_facts::lists::FormParts;
use jobs::Job;
use line_writing::output::Out;

// The lists of a form.
// Kept as lists side by side: the C interface hands them over so.
#[derive(Clone, Copy)]
pub struct FormLists<'a> {
    pub horizon: u32,
    pub idles: &'a [u32],
    pub openings: &'a [u32],
    pub fees: &'a [u32],
    pub parts: FormParts<'a>,
}

// Puts what follows the number of openings.
fn put_body(out: &mut Out, form: &FormLists)
    requires openings_len_bound { (length form.now.openings.now ≤ most_openings) × (length form.now.fees.now ≡ length form.now.openings.now) }
    requires prices_in_bounds { Room out.old (body_cut form.now.openings.now form.now.fees.now (lists_of form.now.parts)) }
    ensures { Puts out.old (body_cut form.now.openings.now form.now.fees.now (lists_of form.now.parts)) out.new }
{
    put_openings(out, form.openings, form.fees);
    put_counted(out, &form.parts, form.openings.len());
}

// Puts the text from the number of openings on: the number, and what follows it if they are not too many and have as many fees.
fn put_rest(out: &mut Out, form: &FormLists)
    requires { Room out.old (rest_cut form.now.openings.now form.now.fees.now (lists_of form.now.parts)) }
    ensures { Puts out.old (rest_cut form.now.openings.now form.now.fees.now (lists_of form.now.parts)) out.new }
{
    let n = form.openings.len();
    // Kept as a cast: std has no `From<u32>` for a usize, and a `try_from` would have an arm that nothing reaches.
    let good = n <= Job::MAX_OPENINGS as usize && form.fees.len() == n;
    put_count(out, b"openings=", n, Job::MAX_OPENINGS, good);
    if good {
        put_body(out, form);
    }
}

// Puts the text of a form's lists.
pub fn put_form(out: &mut Out, form: &FormLists)
    requires { Room out.old (form_cut form.now.horizon form.now.idles.now form.now.openings.now form.now.fees.now (lists_of form.now.parts)) }
    ensures { Puts out.old (form_cut form.now.horizon form.now.idles.now form.now.openings.now form.now.fees.now (lists_of form.now.parts)) out.new }
{
    out.put_line(b"horizon=", u64::from(form.horizon));
    put_idles(out, form.idles);
    put_rest(out, form);
}
