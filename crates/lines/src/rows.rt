// A text that is read line by line.
ghost use Rattle.std.specs.Prelude.{◌+◌, ◌≤◌, ◌^◌, length};

// The bytes of a text that are left to read, and the number of the line that they begin with, from 1.
#[derive(Clone, Copy)]
pub struct Lines<'a> {
    pub rest: &'a [u8],
    pub line: usize,
    ghost room: { line + length rest.now ≤ 2 ^ 63 },
}
