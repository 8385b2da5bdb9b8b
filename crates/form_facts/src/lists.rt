// The lists of a form's parts.
// Kept as lists with marks beside them, in the structs here and in what is handed them: the C interface hands them over so.

// A mark for each part, 1 where its lines of removal stand; for each of these its removal, and how many of the holders, which stand part by part, are its.
#[derive(Clone, Copy)]
pub struct CoverLists<'a> {
    pub covered: &'a [u32],
    pub removals: &'a [u32],
    pub insides: &'a [u32],
    pub holders: &'a [u32],
}

// A mark for each part, 1 where it has a rule; for each of these its base, its drop and its least.
#[derive(Clone, Copy)]
pub struct RuleLists<'a> {
    pub ruled: &'a [u32],
    pub bases: &'a [u32],
    pub drops: &'a [u32],
    pub leasts: &'a [u32],
}

// Prices: their high ends, a mark for each, 1 where it is a pair, and the low ends of the pairs.
#[derive(Clone, Copy)]
pub struct QuoteLists<'a> {
    pub banded: &'a [u32],
    pub lows: &'a [u32],
    pub highs: &'a [u32],
}

// The lists of a form's parts: a life and a left for each, their lines of removal, their rules, and the prices of those without a rule.
#[derive(Clone, Copy)]
pub struct FormParts<'a> {
    pub lives: &'a [u32],
    pub lefts: &'a [u32],
    pub covers: CoverLists<'a>,
    pub rules: RuleLists<'a>,
    pub quotes: QuoteLists<'a>,
}
