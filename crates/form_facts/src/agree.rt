// Whether the lists of a form's parts agree in length.
ghost use Rattle.std.specs.Prelude.{◌≡◌, ◌&&◌, ◌*◌, ◌≤◌, Some, None, IfSome, cond, eqb, length};
ghost use Rattle.form_facts.specs.Facts.{sum_of, all_marks, covers_agree_lem, prices_agree_lem, bands_agree_lem, parts_agree_lem};
ghost use Rattle.form_facts.specs.Views.{lists_of};
ghost use Rattle.model.specs.Limits.{most_parts, most_openings};

use crate::lists::{CoverLists, FormParts, QuoteLists, RuleLists};

// The sum of at most 1,024 numbers.
pub fn sum(values: &[u32]) -> u64
    requires { length values.now ≤ most_parts * most_openings }
    ensures { result ≡ sum_of values.now }
{
    values.iter().map(|value| u64::from(*value)).sum()
}

// Whether each number is 0 or 1.
fn are_marks(marks: &[u32]) -> bool
    ensures { result ≡ all_marks marks.now }
{
    marks.iter().all(|mark| *mark <= 1)
}

// How many of n marks are 1, if there are so many and each is 0 or 1.
fn count_marks(marks: &[u32], n: usize) -> Option<usize>
    requires { n ≤ most_parts * most_openings }
    ensures value { result ≡ cond (eqb (length marks.now) n && all_marks marks.now) (Some (sum_of marks.now)) None }
    ensures few { IfSome result (λ count. count ≤ n) }
{
    // Kept as a cast: std has no `From<u64>` for a usize, and a `try_from` would have an arm that nothing reaches.
    (marks.len() == n && are_marks(marks)).then(|| sum(marks) as usize)
}

impl CoverLists<'_> {
    // Whether there are a mark for each of m parts, as many removals and insides as marks that are 1, and the holders that the insides count.
    fn covers_agree(&self, m: usize) -> bool
        requires { m ≤ most_parts }
        ensures { let x = self.now in result ≡ covers_agree_lem m x.covered.now (length x.removals.now) x.insides.now (length x.holders.now) }
    {
        let Some(count) = count_marks(self.covered, m) else {
            return false;
        };
        // Kept as a cast: std has no `From<usize>` for a u64, and a `try_from` would have an arm that nothing reaches.
        self.removals.len() == count
            && self.insides.len() == count
            && self.holders.len() as u64 == sum(self.insides)
    }
}

impl RuleLists<'_> {
    // Whether there are a mark for each of m parts, as many bases, drops and leasts as marks that are 1, and a price for each part without a rule and each of n openings.
    // Kept with the limits of m and n in the clauses, here and in `agree`: a form has lists of any length, and these two alone are known to be few.
    fn prices_agree(&self, m: usize, prices: usize, n: usize) -> bool
        requires { (m ≤ most_parts) × (n ≤ most_openings) }
        ensures { let x = self.now in result ≡ prices_agree_lem m x.ruled.now (length x.bases.now) (length x.drops.now) (length x.leasts.now) prices n }
    {
        let Some(count) = count_marks(self.ruled, m) else {
            return false;
        };
        self.bases.len() == count
            && self.drops.len() == count
            && self.leasts.len() == count
            && prices == (m - count) * n
    }
}

impl QuoteLists<'_> {
    // Whether there are a mark for each price, and as many low ends as marks that are 1.
    fn bands_agree(&self) -> bool
        requires { length self.now.highs.now ≤ most_parts * most_openings }
        ensures { let x = self.now in result ≡ bands_agree_lem x.banded.now (length x.lows.now) (length x.highs.now) }
    {
        let Some(count) = count_marks(self.banded, self.highs.len()) else {
            return false;
        };
        self.lows.len() == count
    }
}

impl FormParts<'_> {
    // Whether there is a left for each part, and the lists of their covers, of their rules, at n openings, and of pairs agree.
    pub fn agree(&self, n: usize) -> bool
        requires { (length self.now.lives.now ≤ most_parts) × (n ≤ most_openings) }
        ensures { result ≡ parts_agree_lem n (lists_of self.now) }
    {
        let m = self.lives.len();
        self.lefts.len() == m
            && self.covers.covers_agree(m)
            && self.rules.prices_agree(m, self.quotes.highs.len(), n)
            && self.quotes.bands_agree()
    }
}
