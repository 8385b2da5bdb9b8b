// Which of the parts that are somebody's holder come out with each part.
ghost use Rattle.std.specs.Prelude.{◌≡◌, ◌<◌, ◌≤◌, length};
ghost use Rattle.model.specs.Limits.{most_parts};
ghost use Rattle.held_places.specs.Arrays.{needs_at};

use model::{PAIRS, PARTS};

// For each part sixteen marks, of which the first `holding` count: which of the holding parts come out with it.
// Kept as marks with a count: no heap, fixed memory, and the rows of all parts are lent as one slice.
#[derive(Clone, Copy)]
pub struct Needs<'a> {
    pub marks: &'a [bool; PAIRS],
    pub holding: usize,
    pub ghost few: { holding ≤ most_parts },
}

impl<'a> Needs<'a> {
    // What part q needs.
    // Kept with the limit of q in the clause: a part's number is a plain one, and a type of bounded numbers would be taken apart at the index.
    pub fn of(&self, q: usize) -> &[bool]
        requires { q < most_parts }
        ensures row { result.now ≡ needs_at self.now.holding self.now.marks.now q }
        ensures long { length result.now ≡ self.now.holding }
    {
        let marks = self.marks;
        &marks[q * PARTS..q * PARTS + self.holding]
    }
}
