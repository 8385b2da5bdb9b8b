// A part's holders and its pairs of prices, as the lists of numbers that the writer takes.
ghost use Rattle.std.specs.Prelude.{◌≡◌, ◌≤◌, ◌<◌, [], ◌∷◌, ◌++◌, length};
ghost use Rattle.base.specs.Chosen.{numbers_of_lem};
ghost use Rattle.model.specs.Limits.{most_openings};
ghost use Rattle.carried_writing.specs.Lists.{held, pair_mark, low_in, Paired};

use crate::numbers::Numbers;
use model::{OPENINGS, PARTS};

impl Numbers {
    // The empty list.
    fn none() -> Numbers
        ensures { held result ≡ [] }
    {
        Numbers {
            at: [0; OPENINGS],
            count: 0,
        }
    }

    // One number more, behind the others.
    fn push(&mut self, number: u32)
        requires { length (held self.old) < most_openings }
        ensures { held self.new ≡ held self.old ++ number ∷ [] }
    {
        self.at[self.count] = number;
        self.count += 1;
    }

    // The list as a slice.
    pub(crate) fn all(&self) -> &[u32]
        ensures { result.now ≡ held self.now }
    {
        &self.at[..self.count]
    }
}

// The numbers of the parts that marks stand for.
pub(crate) fn holders_of(marks: &[bool; PARTS]) -> Numbers
    ensures { held result ≡ numbers_of_lem marks.now }
{
    let mut holders = Numbers::none();
    for (j, &mark) in marks.iter().enumerate() {
        if mark {
            // Kept as a cast: std has no `From<usize>` for a u32, and a `try_from` would have an arm that nothing reaches.
            holders.push(j as u32 + 1);
        }
    }
    holders
}

// Prices that are pairs: a mark for each price, 1 where it is one, and the low ends of the pairs.
#[derive(Clone, Copy)]
pub struct Pairs {
    pub marks: Numbers,
    pub ends: Numbers,
}

impl Pairs {
    // One price more, by its low end, where it is a pair.
    fn push(&mut self, low: Option<u32>)
        requires { (length (held self.old.marks) < most_openings) × (length (held self.old.ends) < most_openings) }
        ensures marks { held self.new.marks ≡ held self.old.marks ++ pair_mark low ∷ [] }
        ensures ends { held self.new.ends ≡ held self.old.ends ++ low_in low }
    {
        match low {
            Some(end) => {
                self.marks.push(1);
                self.ends.push(end);
            }
            None => self.marks.push(0),
        }
    }
}

// The prices with these low ends, of which those of single ones are not there.
pub(crate) fn pairs_of(lows: &[Option<u32>]) -> Pairs
    requires { length lows.now ≤ most_openings }
    ensures { Paired lows.now result }
{
    let mut pairs = Pairs {
        marks: Numbers::none(),
        ends: Numbers::none(),
    };
    for &low in lows {
        pairs.push(low);
    }
    pairs
}
