// A program's answer on standard output.
#![tactic(auto)]

ghost use Rattle.std.specs.Prelude.{◌≡◌, ◌≤◌, OnOk, length, take};
ghost use Rattle.std.specs.Io.KnownBytes.{Appends};
ghost use Rattle.answer_output.specs.Prints.{most_printed, printed};

use answers::Answer;
use std::io;
use std::io::Write;
use std::str::from_utf8;

// The most bytes that an answer can have.
const MOST: usize = 16384;

// An answer that was printed, with its bytes, of which as many count as the answer says. No other crate can make one, and here `print_answer` alone does: who hands one over has printed it.
// Kept as an array beside the answer that has its length: there is no heap.
#[derive(Drop)]
pub struct Printout {
    answer: Answer,
    bytes: [u8; MOST],
}

// Hands the bytes of a printout to a writer.
fn hand_to<W: Write>(to: &mut W, p: &Printout, bytes: &[u8]) -> io::Result<()>
    requires { bytes.now ≡ printed p.now }
    ensures { OnOk result (Appends (W.contents to.old) (W.contents to.new) (printed p.now)) }
{
    to.write_all(bytes)
}

// The system's reason in the words of an error, without the number that the system has for it.
fn reason(words: &str) -> &str {
    match words.split_once(" (os error ") {
        Some((why, _)) => why,
        None => words,
    }
}

// Writes a line on standard error: what is lost, and why.
fn say_lost<R: Eprint + AllocGlobal>(rt: &R, lost: &[u8], error: io::Error) {
    let lost = from_utf8(lost).unwrap_or("lost");
    let _ = match format!(in rt.alloc(); "{error}") {
        Ok(words) => {
            let why = reason(words.as_str());
            eprintln!(rt; "{lost}: {why}")
        }
        Err(_) => eprintln!(rt; "{lost}: {error}"),
    };
}

// Hands the bytes of a printout to standard output; where they can't be written, a line on standard error begins with `lost` and says why, and the exit status is 0 all the same. What becomes
// of bytes that are written no contract can say.
fn hand_out<R: Print + Eprint + AllocGlobal>(
    rt: &R,
    p: Printout,
    bytes: &[u8],
    lost: &[u8],
) -> Printout
    requires { bytes.now ≡ printed p }
    ensures { result ≡ p }
{
    if let Err(error) = hand_to(&mut io::writer(rt), &p, bytes) {
        say_lost(rt, lost, error);
    }
    p
}

// Prints the bytes of an answer, which stand at the start of `out`.
pub fn print_answer<R: Print + Eprint + AllocGlobal>(
    rt: &R,
    a: Answer,
    out: &[u8],
    lost: &[u8],
) -> Printout
    requires { (a.length ≤ length out.now) × (a.length ≤ most_printed) }
    ensures { (result.answer ≡ a) × (printed result ≡ take a.length out.now) }
{
    let m = a.length;
    let mut bytes = [0u8; MOST];
    bytes[..m].copy_from_slice(&out[..m]);
    hand_out(rt, Printout { answer: a, bytes }, &out[..m], lost)
}
