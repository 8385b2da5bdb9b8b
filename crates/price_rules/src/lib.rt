// A part's prices by a rule: its lines, read from a text and written, and the generator of the prices that it stands for.
#![tactic(auto)]

ghost use Rattle.std.specs.Prelude.{◌≡◌, ◌-◌, ◌≤◌, length, take, drop, replicate};
ghost use Rattle.lines.specs.Reads.{Reads, seen};
ghost use Rattle.line_writing.specs.Puts.{Puts, Room};
ghost use Rattle.model.specs.Limits.{most_openings};
ghost use Rattle.price_rules.specs.Rule.{rule_prices_lem};
ghost use Rattle.price_rules.specs.Grammar.{after_base, rule};
ghost use Rattle.price_rules.specs.Rendering.{rule_text};
ghost use Rattle.price_rules.specs.Views.{rule_of, rule_there};

use line_writing::output::Out;
use lines::fault::Fault;
use lines::rows::Lines;
use model::OPENINGS;

// A rule in place of a part's prices: opening k, counted from 0, has price base minus k times drop, or least if that is larger.
#[derive(Clone, Copy)]
pub struct Rule {
    pub base: u32,
    pub drop: u32,
    pub least: u32,
}

impl Rule {
    // The smallest base.
    pub const MIN_BASE: u32 = 1;

    // The largest base.
    pub const MAX_BASE: u32 = 1000000;

    // The largest drop; the smallest is 0.
    pub const MAX_DROP: u32 = 1000000;

    // The smallest least price.
    pub const MIN_LEAST: u32 = 1;

    // The largest least price.
    pub const MAX_LEAST: u32 = 1000000;
}

// What follows the base: how far the price drops from opening to opening, and the least that it drops to.
fn read_after_base(lines: &mut Lines, base: u32) -> Result<Rule, Fault>
    ensures { Reads (after_base base) lines.old lines.new (seen rule_of result) }
{
    let drop = lines.field(b"drop=", 0, Rule::MAX_DROP)?;
    let least = lines.field(b"least=", Rule::MIN_LEAST, Rule::MAX_LEAST)?;
    Ok(Rule { base, drop, least })
}

// A rule's lines, which may be missing.
pub fn read_rule(lines: &mut Lines) -> Result<Option<Rule>, Fault>
    ensures { Reads rule lines.old lines.new (seen rule_there result) }
{
    match lines.optional(b"base=", Rule::MIN_BASE, Rule::MAX_BASE)? {
        Some(base) => {
            let read = read_after_base(lines, base)?;
            Ok(Some(read))
        }
        None => Ok(None),
    }
}

// Puts a rule's lines.
pub fn put_rule(out: &mut Out, rule: Rule)
    requires { Room out.old (rule_text (rule_of rule)) }
    ensures { Puts out.old (rule_text (rule_of rule)) out.new }
{
    out.put_line(b"base=", u64::from(rule.base));
    out.put_line(b"drop=", u64::from(rule.drop));
    out.put_line(b"least=", u64::from(rule.least));
}

// A rule's price for each entry: from opening to opening the drop is taken off what is left of the base.
fn put_prices(rule: Rule, prices: &mut [u32])
    ensures { prices.new ≡ rule_prices_lem (rule_of rule) (length prices.old) }
{
    let mut left = rule.base;
    for price in prices.iter_mut() {
        *price = left.max(rule.least);
        left = left.saturating_sub(rule.drop);
    }
}

// A rule's prices at the first n openings, and 0 past the last.
// Kept with the limit of n in the clause: a rule stands by itself, and the count of openings is its job's.
pub fn rule_prices(rule: Rule, n: usize) -> [u32; OPENINGS]
    requires { n ≤ most_openings }
    ensures { (take n result ≡ rule_prices_lem (rule_of rule) n) × (drop n result ≡ replicate (most_openings - n) 0) }
{
    let mut prices = [0; OPENINGS];
    put_prices(rule, &mut prices[..n]);
    prices
}
