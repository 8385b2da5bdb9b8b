// The lines of one part of a form, put into a lent slice to be read.
#![tactic(auto)]

pub mod cover;

ghost use Rattle.std.specs.Prelude.{◌<◌, length};
ghost use Rattle.lines.specs.Text.{line, texts, optional_text};
ghost use Rattle.line_writing.specs.Puts.{Puts, Room};
ghost use Rattle.price_rules.specs.Rendering.{prices_text};
ghost use Rattle.part_writing.specs.Cut.{inside_cut, cover_cut, part_cut_lem};
ghost use Rattle.part_writing.specs.Views.{cover_said, prices_said, part_said, PricesMarked};

pub use cover::Cover;
use form_facts::lists::QuoteLists;
use line_writing::output::Out;
use price_rules::{Rule, put_rule};
use quote_writing::put_quotes;

// What says a part's prices.
// Kept as an enum of its own: a rule and a list are two ways to say them, and neither is a fault or nothing.
#[derive(Clone, Copy)]
pub enum Prices<'a> {
    ByRule(Rule),
    Listed(QuoteLists<'a>),
}

// What the lines of a part say.
#[derive(Clone, Copy)]
pub struct Part<'a> {
    pub life: u32,
    pub left: u32,
    pub cover: Option<Cover<'a>>,
    pub prices: Prices<'a>,
}

// Puts the line of a key and each value.
pub fn put_values(out: &mut Out, key: &[u8], values: &[u32])
    requires { Room out.old (texts (line key.now) values.now) }
    ensures { Puts out.old (texts (line key.now) values.now) out.new }
{
    for value in values {
        out.put_line(key, u64::from(*value));
    }
}

// Puts the number of holders, and the holders if there are not too many.
fn put_inside(out: &mut Out, holders: &[u32])
    requires { (length holders.now < 4294967296) × Room out.old (inside_cut holders.now) }
    ensures { Puts out.old (inside_cut holders.now) out.new }
{
    // Kept as a cast: std has no `From<usize>` for a u64, and a `try_from` would have an arm that nothing reaches.
    let n = holders.len() as u64;
    out.put_line(b"inside=", n);
    if n <= u64::from(jobs::Part::MAX_INSIDE) {
        put_values(out, b"holder=", holders);
    }
}

// Puts a part's lines of removal, where they stand.
fn put_cover(out: &mut Out, cover: Option<Cover>)
    requires { Room out.old (optional_text cover_cut (cover_said cover)) }
    ensures { Puts out.old (optional_text cover_cut (cover_said cover.entry)) out.new }
{
    if let Some(cover) = cover {
        out.put_line(b"removal=", u64::from(cover.removal));
        put_inside(out, cover.holders);
    }
}

// Puts the lines of a part's prices: the rule's where there is one, else those of each price.
fn put_prices(out: &mut Out, prices: Prices)
    requires marked { PricesMarked prices }
    requires room { Room out.old (prices_text (prices_said prices)) }
    ensures { Puts out.old (prices_text (prices_said prices.entry)) out.new }
{
    match prices {
        Prices::ByRule(rule) => put_rule(out, rule),
        Prices::Listed(quotes) => put_quotes(out, quotes),
    }
}

// Puts the lines of a part.
pub fn put_part(out: &mut Out, part: Part)
    requires marked { PricesMarked part.prices }
    requires room { Room out.old (part_cut_lem (part_said part)) }
    ensures { Puts out.old (part_cut_lem (part_said part.entry)) out.new }
{
    out.put_line(b"life=", u64::from(part.life));
    out.put_line(b"left=", u64::from(part.left));
    put_cover(out, part.cover);
    put_prices(out, part.prices);
}
