// The first part of a form's lists that agree, and the lists behind it.
// Kept as conditions: what lists have of their first part is one record for its removal (`FirstCover`) and one for its prices (`FirstPrices`), and a type that carries them would be made and taken apart for each part.
// Kept with the limit of n in the clauses: it counts the form's openings, whose lists don't stand beside the parts'.
#![tactic(auto)]

ghost use Rattle.std.specs.Prelude.{◌≡◌, ◌≤◌, ◌<◌, length, cond, eqb, get_or, take, drop, None, Some};
ghost use Rattle.price_rules.specs.Grammar.{by_list, by_rule_lem};
ghost use Rattle.form_facts.specs.Facts.{PartsAgree, quotes_in};
ghost use Rattle.form_facts.specs.Views.{lists_of};
ghost use Rattle.part_writing.specs.Views.{cover_said, prices_said, part_said, PricesMarked};
ghost use Rattle.first_parts.specs.Fronts.{inside_first, listed_first, pairs_first, rule_first, first_part, behind_first, FirstCover, FirstPrices};
ghost use Rattle.model.specs.Limits.{most_openings};

use form_facts::agree::sum;
use form_facts::lists::{CoverLists, FormParts, QuoteLists, RuleLists};
use part_writing::{Cover, Part, Prices};
use price_rules::Rule;

// How many holders the first part has.
fn inside_first(parts: &FormParts) -> usize
    requires { FirstCover (lists_of parts.now) }
    ensures value { result ≡ inside_first (lists_of parts.now) }
    ensures few { result < 4294967296 }
{
    if parts.covers.covered[0] == 1 {
        // Kept as a cast: std has no `From<u32>` for a usize, and a `try_from` would have an arm that nothing reaches.
        parts.covers.insides[0] as usize
    } else {
        0
    }
}

// How many prices of the list the first part has, with n openings.
fn listed_first(parts: &FormParts, n: usize) -> usize
    requires { FirstPrices n (lists_of parts.now) }
    ensures { result ≡ listed_first n (lists_of parts.now) }
{
    if parts.rules.ruled[0] == 1 { 0 } else { n }
}

// The first part's lines of removal, where they stand.
fn cover_first<'a>(parts: &FormParts<'a>) -> Option<Cover<'a>>
    requires { FirstCover (lists_of parts.now) }
    ensures { let x = lists_of parts.now in cover_said result ≡ cond (eqb (get_or x.covered 0 0) 1) (Some (record { removal = get_or x.removals 0 0; holders = take (inside_first x) x.holders })) None }
{
    let covers = parts.covers;
    if covers.covered[0] != 1 {
        return None;
    }
    // Kept as a cast: std has no `From<u32>` for a usize, and a `try_from` would have an arm that nothing reaches.
    let inside = covers.insides[0] as usize;
    Some(Cover {
        removal: covers.removals[0],
        holders: &covers.holders[..inside],
    })
}

// The first part's rule where it has one, else its prices, with n openings.
fn prices_first<'a>(parts: &FormParts<'a>, n: usize) -> Prices<'a>
    requires { FirstPrices n (lists_of parts.now) }
    ensures said { let x = lists_of parts.now in prices_said result ≡ cond (eqb (get_or x.ruled 0 0) 1) (by_rule_lem (rule_first x)) (by_list (take (listed_first n x) (quotes_in x))) }
    ensures marked { PricesMarked result }
{
    let rules = parts.rules;
    if rules.ruled[0] == 1 {
        return Prices::ByRule(Rule {
            base: rules.bases[0],
            drop: rules.drops[0],
            least: rules.leasts[0],
        });
    }
    let quotes = parts.quotes;
    Prices::Listed(QuoteLists {
        banded: &quotes.banded[..n],
        lows: quotes.lows,
        highs: &quotes.highs[..n],
    })
}

// The first part, with n openings.
pub fn part_first<'a>(parts: &FormParts<'a>, n: usize) -> Part<'a>
    requires { (n ≤ most_openings) × PartsAgree n (lists_of parts.now) × (0 < length parts.now.lives.now) }
    ensures said { part_said result ≡ first_part n (lists_of parts.now) }
    ensures marked { PricesMarked result.prices }
{
    let cover = cover_first(parts);
    let prices = prices_first(parts, n);
    Part {
        life: parts.lives[0],
        left: parts.lefts[0],
        cover,
        prices,
    }
}

// The lists of lines of removal behind the first part's.
fn covers_behind<'a>(parts: &FormParts<'a>) -> CoverLists<'a>
    requires { FirstCover (lists_of parts.now) }
    ensures covered { result.covered.now ≡ drop 1 (lists_of parts.now).covered }
    ensures removals { let x = lists_of parts.now in result.removals.now ≡ drop (get_or x.covered 0 0) x.removals }
    ensures insides { let x = lists_of parts.now in result.insides.now ≡ drop (get_or x.covered 0 0) x.insides }
    ensures holders { let x = lists_of parts.now in result.holders.now ≡ drop (inside_first x) x.holders }
{
    let inside = inside_first(parts);
    let covers = parts.covers;
    // Kept as a cast: std has no `From<u32>` for a usize, and a `try_from` would have an arm that nothing reaches.
    let mark = covers.covered[0] as usize;
    CoverLists {
        covered: &covers.covered[1..],
        removals: &covers.removals[mark..],
        insides: &covers.insides[mark..],
        holders: &covers.holders[inside..],
    }
}

// The lists of rules behind the first part's.
// Kept beside `covers_behind`: all three lists go on by the mark here, two by the mark and one by the holders there, and lists handed back by one function would have no names.
fn rules_behind<'a>(parts: &FormParts<'a>, n: usize) -> RuleLists<'a>
    requires { FirstPrices n (lists_of parts.now) }
    ensures ruled { result.ruled.now ≡ drop 1 (lists_of parts.now).ruled }
    ensures bases { let x = lists_of parts.now in result.bases.now ≡ drop (get_or x.ruled 0 0) x.bases }
    ensures drops { let x = lists_of parts.now in result.drops.now ≡ drop (get_or x.ruled 0 0) x.drops }
    ensures leasts { let x = lists_of parts.now in result.leasts.now ≡ drop (get_or x.ruled 0 0) x.leasts }
{
    let rules = parts.rules;
    // Kept as a cast: std has no `From<u32>` for a usize, and a `try_from` would have an arm that nothing reaches.
    let mark = rules.ruled[0] as usize;
    RuleLists {
        ruled: &rules.ruled[1..],
        bases: &rules.bases[mark..],
        drops: &rules.drops[mark..],
        leasts: &rules.leasts[mark..],
    }
}

// The lists of prices behind the first part's, with n openings.
fn quotes_behind<'a>(parts: &FormParts<'a>, n: usize) -> QuoteLists<'a>
    requires { FirstPrices n (lists_of parts.now) }
    ensures banded { let x = lists_of parts.now in result.banded.now ≡ drop (listed_first n x) x.banded }
    ensures lows { let x = lists_of parts.now in result.lows.now ≡ drop (pairs_first n x) x.lows }
    ensures highs { let x = lists_of parts.now in result.highs.now ≡ drop (listed_first n x) x.prices }
{
    let listed = listed_first(parts, n);
    let quotes = parts.quotes;
    // Kept as a cast: std has no `From<u64>` for a usize, and a `try_from` would have an arm that nothing reaches.
    let pairs = sum(&quotes.banded[..listed]) as usize;
    QuoteLists {
        banded: &quotes.banded[listed..],
        lows: &quotes.lows[pairs..],
        highs: &quotes.highs[listed..],
    }
}

// The lists behind the first part.
pub fn behind_first<'a>(parts: &FormParts<'a>, n: usize) -> FormParts<'a>
    requires { (n ≤ most_openings) × PartsAgree n (lists_of parts.now) × (0 < length parts.now.lives.now) }
    ensures { lists_of result ≡ behind_first n (lists_of parts.now) }
{
    let covers = covers_behind(parts);
    let rules = rules_behind(parts, n);
    let quotes = quotes_behind(parts, n);
    FormParts {
        lives: &parts.lives[1..],
        lefts: &parts.lefts[1..],
        covers,
        rules,
        quotes,
    }
}
