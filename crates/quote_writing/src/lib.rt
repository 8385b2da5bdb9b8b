// The lines of a form's prices, put into a lent slice to be read.
#![tactic(auto)]

ghost use Rattle.std.specs.Prelude.{◌≡◌, Some, None, cond, eqb, ◌<◌, length, get_or};
ghost use Rattle.lines.specs.Text.{texts};
ghost use Rattle.line_writing.specs.Puts.{Puts, Room};
ghost use Rattle.quotes.specs.Rendering.{quote_text};
ghost use Rattle.form_facts.specs.Views.{quotes_said, QuotesMarked};
ghost use Rattle.quotes.specs.Views.{quote_of};

use form_facts::lists::QuoteLists;
use line_writing::output::Out;

// The low end at place j of a price with this mark, if it is a pair.
fn low_at(mark: u32, lows: &[u32], j: usize) -> Option<u32>
    requires { mark ≡ 1 → j < length lows.now }
    ensures { result ≡ cond (eqb mark 1) (Some (get_or lows.now j 0)) None }
{
    (mark == 1).then(|| lows[j])
}

// Puts a price: the lines of both ends where it is a pair, else one line.
fn put_quote(out: &mut Out, low: Option<u32>, high: u32)
    requires { Room out.old (quote_text (quote_of low high)) }
    ensures { Puts out.old (quote_text (quote_of low high)) out.new }
{
    match low {
        None => out.put_line(b"price=", u64::from(high)),
        Some(low) => {
            out.put_line(b"low=", u64::from(low));
            out.put_line(b"high=", u64::from(high));
        }
    }
}

// Puts prices: those whose mark is 1 are pairs with the next low end.
pub fn put_quotes(out: &mut Out, quotes: QuoteLists)
    requires marked { QuotesMarked quotes }
    requires highs_in_bounds { Room out.old (texts quote_text (quotes_said quotes)) }
    ensures { Puts out.old (texts quote_text (quotes_said quotes.entry)) out.new }
{
    let QuoteLists {
        banded,
        lows,
        highs,
    } = quotes;
    // Kept with j counted by hand: a price uses as many low ends as its mark says, none or one.
    let mut j: usize = 0;
    for (high, mark) in highs.iter().zip(banded) {
        let low = low_at(*mark, lows, j);
        put_quote(out, low, *high);
        // Kept as a cast: std has no `From<u32>` for a usize, and a `try_from` would have an arm that nothing reaches.
        j += *mark as usize;
    }
}
