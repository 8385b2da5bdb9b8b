// What is wrong with a text, and on which line.
ghost use Rattle.std.specs.Prelude.{◌≡◌};
ghost use Rattle.lines.specs.Fault.{number_of_lem};

// What is wrong with a line; `number` is its result number.
// A fault is known by its number alone, so that `Other` of a number that has a name here says what the name says.
// Kept as an enum of its own: it has neither the shape of an Option nor of a Result, it is the Err of the readers' Results.
#[derive(Clone, Copy, PartialEq, Eq)]
pub enum FaultKind {
    // The text has too many bytes.
    TooLong,
    // The line is not the one due here, or not well formed, or the text goes on behind its last line.
    Form,
    // A value is out of its range.
    Range,
    // Idle steps or openings don't rise, or lie past the horizon.
    Step,
    // More is left of a first life than the life.
    Left,
    // A plan's stop or part is none of the job's, or they don't rise.
    Visit,
    // A holder is none of the other parts, or they don't rise.
    Holder,
    // A price's high end is below its low end.
    High,
    // What a text of another grammar has wrong with it: any number.
    Other(u32),
}

impl FaultKind {
    // The result number of what is wrong.
    // Kept as a match, and not as discriminants: one of the kinds carries its number.
    pub fn number(self) -> u32
        ensures { result ≡ number_of_lem self }
    {
        match self {
            FaultKind::TooLong => 1,
            FaultKind::Form => 2,
            FaultKind::Range => 3,
            FaultKind::Step => 4,
            FaultKind::Left => 5,
            FaultKind::Visit => 9,
            FaultKind::Holder => 12,
            FaultKind::High => 13,
            FaultKind::Other(number) => number,
        }
    }
}

// What is wrong with a text, and on which line; on line 0 where the text is too long.
// Kept as 0, and not an Option: the C interface hands out this number.
#[derive(Clone, Copy)]
pub struct Fault {
    pub kind: FaultKind,
    pub line: usize,
}

impl Fault {
    // The fault of a text that has too many bytes.
    pub const TOO_LONG: Fault = Fault {
        kind: FaultKind::TooLong,
        line: 0,
    };
}
