// The answers of the calls: what every call hands over, and the lines of a refusal. Each call writes its own lines.
#![tactic(auto)]

ghost use Rattle.std.specs.Prelude.{◌≡◌, ℕ, List, [], ◌≤◌, ◌<◌, length};
ghost use denote.Ref.{MutBor};
ghost use Rattle.line_writing.specs.declared.output.Out.{Out};
ghost use Rattle.line_writing.specs.Puts.{Puts, Room};
ghost use Rattle.lines.specs.Fault.{number_of_lem};
ghost use Rattle.answers.specs.Said.{two_lines, three_lines, fault_lines_lem, Said, Printable, longest_refusal, plainly, refusal, handed, Replied};

use fault_lines::fault::fault_span;
use line_writing::output::Out;
use lines::fault::Fault;

// The number by which an answer names the job text.
// Kept as numbers, here and in `Answer`, with 0 where there is no text and no line: the C interface hands them over.
pub const JOB: u32 = 1;

// The number by which an answer names the plan text.
pub const PLAN: u32 = 2;

// What a call hands over: the result number; which text is at fault (1 the job, 2 the plan, else 0) and its line (else 0);
// how many bytes were written; and where the line at fault stands in its text.
#[repr(C)]
#[derive(Drop)]
pub struct Answer {
    pub result: u32,
    pub text: u32,
    pub line: u32,
    pub length: usize,
    pub fault_start: usize,
    pub fault_length: usize,
}

impl Answer {
    // An answer that is no text's fault, of which so many bytes were written.
    pub fn plain(res: u32, written: usize) -> Answer
        ensures { result ≡ handed (plainly res []) written }
    {
        Answer {
            result: res,
            text: 0,
            line: 0,
            length: written,
            fault_start: 0,
            fault_length: 0,
        }
    }

    // The answer where the output is too short: 8, and nothing is written.
    pub fn no_room() -> Answer
        ensures { result ≡ handed (plainly 8 []) 0 }
    {
        Answer::plain(8, 0)
    }
}

// Hands over an answer with what `put` puts at the start of an output that has so much room; a shorter output stays, and the answer is 8.
fn hand_over<F: FnOnce(&mut Out)>(answer: Answer, need: usize, out: &mut [u8], put: F) -> Answer
    requires { (o : MutBor Out) → o.now.at ≡ 0 → need ≤ length o.now.bytes.now → F.pre put o }
    ensures { (s : Said) → answer ≡ handed s 0 → length s.bytes ≤ need → ((o p : MutBor Out) → o.now.at ≡ 0 → F.post put o tt p → Puts o.now s.bytes p.now) → Replied need s out.old out.new result }
{
    if out.len() < need {
        return Answer::no_room();
    }
    let mut lines = Out { bytes: out, at: 0 };
    put(&mut lines);
    Answer {
        length: lines.at,
        ..answer
    }
}

// Answers a call that needs so much room and has no text at fault: with this number, and with the bytes that `put` puts.
pub fn reply<F: FnOnce(&mut Out)>(number: u32, need: usize, out: &mut [u8], put: F) -> Answer
    requires { (o : MutBor Out) → o.now.at ≡ 0 → need ≤ length o.now.bytes.now → F.pre put o }
    ensures { (xs : List ℕ) → length xs ≤ need → ((o p : MutBor Out) → o.now.at ≡ 0 → F.post put o tt p → Puts o.now xs p.now) → Replied need (plainly number xs) out.old out.new result }
{
    hand_over(Answer::plain(number, 0), need, out, put)
}

// Puts the line of a result number, and a line of a key and its value.
pub fn put_two(out: &mut Out, number: u32, key: &[u8], value: u64)
    requires { Printable value × Room out.old (two_lines number key.now value) }
    ensures { Puts out.old (two_lines number key.now value) out.new }
{
    out.put_line(b"result=", u64::from(number));
    out.put_line(key, value);
}

// Puts the line of a result number, and two lines, each of a key and its value.
pub fn put_three(out: &mut Out, number: u32, key: &[u8], value: u64, next: &[u8], more: u64)
    requires { Printable value × Printable more × Room out.old (three_lines number key.now value next.now more) }
    ensures { Puts out.old (three_lines number key.now value next.now more) out.new }
{
    put_two(out, number, key, value);
    out.put_line(next, more);
}

// Puts the three lines of a text's fault.
fn put_fault(out: &mut Out, number: u32, text: u32, line: u32)
    requires { Room out.old (fault_lines_lem number text line) }
    ensures { Puts out.old (fault_lines_lem number text line) out.new }
{
    put_three(
        out,
        number,
        b"text=",
        u64::from(text),
        b"line=",
        u64::from(line),
    );
}

// The answer of a call that needs so much room to a fault of text number `which`.
// Kept as a number for the text: the C interface hands it over.
pub fn refuse(text: &[u8], which: u32, fault: Fault, need: usize, out: &mut [u8]) -> Answer
    requires { (fault.line < 4294967296) × (longest_refusal ≤ need) }
    ensures { Replied need (refusal which text.now (number_of_lem fault.kind) fault.line) out.old out.new result }
{
    let number = fault.kind.number();
    let span = fault_span(text, fault.line);
    // Kept as `as`: the contract has the line below 2 to the 32nd, and std has no `From` of a usize.
    let at = fault.line as u32;
    let answer = Answer {
        result: number,
        text: which,
        line: at,
        length: 0,
        fault_start: span.start,
        fault_length: span.length,
    };
    hand_over(
        answer,
        need,
        out,
        |lines| put_fault(lines, number, which, at),
    )
}
