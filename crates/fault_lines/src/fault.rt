// The line at fault, as it stands in the caller's own text.
ghost use Rattle.std.specs.Prelude.{◌≡◌, length};
ghost use Rattle.fault_lines.specs.Fault.{before_break, skipped, fault_line_lem, fault_span_lem};

// Where a line stands in a text.
// Kept as 0 and 0 where there is none, and not an Option: the C interface hands out these two numbers.
#[derive(Clone, Copy)]
pub struct Span {
    pub start: usize,
    pub length: usize,
}

impl Span {
    // No line.
    const NOWHERE: Span = Span {
        start: 0,
        length: 0,
    };
}

// How many bytes stand before the first byte 10, or before the end.
fn line_length(s: &[u8]) -> usize
    ensures { result ≡ length (before_break s.now) }
{
    s.iter().position(|b| *b == b'\n').unwrap_or(s.len())
}

// What follows the first k lines.
fn skip_lines(text: &[u8], k: usize) -> &[u8]
    ensures { result.now ≡ skipped k text.now }
{
    let mut rest = text;
    for _ in 0..k {
        let n = line_length(rest);
        if rest.len() <= n {
            return &[];
        }
        rest = &rest[n + 1..];
    }
    rest
}

// Where the line with this number, from 1, stands: its start, and its length without its byte 10.
pub fn fault_span(text: &[u8], line: usize) -> Span
    ensures { result ≡ fault_span_lem line text.now }
{
    if line == 0 {
        return Span::NOWHERE;
    }
    let rest = skip_lines(text, line - 1);
    if rest.is_empty() {
        return Span::NOWHERE;
    }
    Span {
        start: text.len() - rest.len(),
        length: line_length(rest),
    }
}

// The line with this number, from 1, up to its byte 10 or the text's end; empty for line 0 and for a missing line.
pub fn fault_line(text: &[u8], line: usize) -> &[u8]
    ensures { result.now ≡ fault_line_lem line text.now }
{
    let span = fault_span(text, line);
    let start = span.start;
    let end = start + span.length;
    &text[start..end]
}
