// Quoted prices, single or from a low end to a high end: their lines, read from a text.
#![tactic(auto)]

ghost use Rattle.std.specs.Prelude.{◌≡◌, ◌≤◌};
ghost use Rattle.lines.specs.Parser.{row, checked, times};
ghost use Rattle.lines.specs.Reads.{Reads, seen};
ghost use Rattle.model.specs.Limits.{dearest, most_openings};
ghost use Rattle.quotes.specs.Grammar.{at_least, quote};
ghost use Rattle.quotes.specs.Views.{quote_told, quotes_told};

use jobs::Part;
use lines::fault::{Fault, FaultKind};
use lines::rows::Lines;
use model::OPENINGS;

// A price as it stands: its low end is there where it is a pair.
#[derive(Clone, Copy)]
pub struct Quote {
    pub low: Option<u32>,
    pub high: u32,
}

// Prices as they stand, the first of which count.
// Kept as two arrays: no heap, and the high ends become a part's prices as they are.
#[derive(Clone, Copy)]
pub struct Quotes {
    pub lows: [Option<u32>; OPENINGS],
    pub highs: [u32; OPENINGS],
}

// The high end of a pair: no less than its low end, else fault 13.
fn read_high(lines: &mut Lines, low: u32) -> Result<u32, Fault>
    ensures { Reads (checked 13 (at_least low) (row "high=" 1 dearest)) lines.old lines.new result }
{
    lines.checked(
        b"high=",
        Part::MIN_PRICE,
        Part::MAX_PRICE,
        FaultKind::High,
        |high| low <= high,
    )
}

// A price: a pair where its first line is `low`, else a single one.
fn read_quote(lines: &mut Lines) -> Result<Quote, Fault>
    ensures { Reads quote lines.old lines.new (seen quote_told result) }
{
    match lines.optional(b"low=", Part::MIN_PRICE, Part::MAX_PRICE)? {
        Some(low) => {
            let high = read_high(lines, low)?;
            Ok(Quote {
                low: Some(low),
                high,
            })
        }
        None => {
            let high = lines.field(b"price=", Part::MIN_PRICE, Part::MAX_PRICE)?;
            Ok(Quote { low: None, high })
        }
    }
}

// Reads n prices, each a single one or a pair.
// Kept with the limit of n in the clause: they are read before the job is made that counts its openings.
pub fn read_quotes(lines: &mut Lines, n: usize) -> Result<Quotes, Fault>
    requires { n ≤ most_openings }
    ensures { Reads (times n quote) lines.old lines.new (seen (quotes_told n) result) }
{
    // Kept as a range: two arrays are filled, and of an array that is written through a zip nothing is known after it.
    let mut lows = [None; OPENINGS];
    let mut highs = [0; OPENINGS];
    for i in 0..n {
        let quote = read_quote(lines)?;
        lows[i] = quote.low;
        highs[i] = quote.high;
    }
    Ok(Quotes { lows, highs })
}
