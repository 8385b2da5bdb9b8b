// Reading a whole input into a buffer that has room for one byte more than its text may have, so that a longer text is told.
#![tactic(auto)]

ghost use Rattle.std.specs.Prelude.{suc, ◌≡◌, ◌<◌, None, IfNone, length, take};
ghost use Rattle.std.specs.Counts.{IsPrefixLen};
ghost use Rattle.std.specs.Io.KnownBytes.{Consumes, IsAtEnd};
ghost use Rattle.whole_input.specs.Limits.{limit_of};
ghost use Rattle.whole_input.specs.Input.{Nothing, Unopened, Front, Whole};

use std::io;
use std::io::Read;

// The texts that programs read. Each has a limit of its own, which a buffer's length must fit: the contracts alone read it.
// Kept as an enum: a limit handed over as a number or a const parameter would let a caller name a limit that no grammar has.
#[derive(Clone, Copy)]
pub enum Text {
    Job,
    Plan,
    Hall,
}

// What was read of an input: how many bytes, which stand at the buffer's start, and the error of the read that ended it, if one failed.
// Kept with the error beside the count: what was read before a read failed counts.
#[derive(Drop)]
pub struct Amount {
    pub count: usize,
    pub failed: Option<io::Error>,
}

impl Amount {
    // So many bytes, of which no read failed.
    fn read(count: usize) -> Amount
        ensures { (result.count ≡ count) × (result.failed ≡ None) }
    {
        Amount {
            count,
            failed: None,
        }
    }
}

// Reads nothing: "a file that can't be opened counts as an empty text".
fn read_nothing(buf: &mut [u8]) -> Amount
    ensures { Nothing buf.old buf.new result.count }
{
    Amount::read(0)
}

// Reads until the buffer is full, the input ends or a read fails.
// Kept as a `while`: a read gives as many bytes as it gives, so the place rises by varying steps.
pub fn read_full<R: Read>(input: &mut R, buf: &mut [u8]) -> Amount
    ensures counts { IsPrefixLen result.count buf.new }
    ensures consumes { Consumes (R.remaining input.old) (R.remaining input.new) (take result.count buf.new) }
    ensures ended { IfNone result.failed (result.count < length buf.new → IsAtEnd (R.remaining input.new)) }
{
    let mut done = 0;
    while done < buf.len() {
        match input.read(&mut buf[done..]) {
            Ok(0) => return Amount::read(done),
            Ok(n) => done += n,
            Err(error) => {
                return Amount {
                    count: done,
                    failed: Some(error),
                };
            }
        }
    }
    Amount::read(done)
}

// Reads an input to its end or until the buffer is full, if no read fails.
// No input is what an open answers for a file that can't be opened.
pub fn read_whole<R: Read + Drop>(opened: Option<R>, which: Text, buf: &mut [u8]) -> Amount
    requires { length buf.old ≡ suc (limit_of which) }
    ensures counts { IsPrefixLen result.count buf.new }
    ensures unopened { Unopened opened buf.old buf.new result.count }
    ensures front { Front R.remaining opened (take result.count buf.new) }
    ensures whole { Whole R.remaining opened (suc (limit_of which)) result.failed (take result.count buf.new) }
{
    match opened {
        None => read_nothing(buf),
        Some(mut input) => read_full(&mut input, buf),
    }
}
