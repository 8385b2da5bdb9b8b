// One line at the front of a text.
ghost use Rattle.std.specs.Prelude.{◌≡◌, ◌≤◌, length};
ghost use Rattle.lines.specs.Line.{digits, number_from, read_line_lem, read_value_lem};

// How many digits s begins with.
fn digit_run(s: &[u8]) -> usize
    ensures { result ≡ length (digits s.now) }
{
    s.iter()
        .position(|b| !b.is_ascii_digit())
        .unwrap_or(s.len())
}

// The number that digits write.
// Kept as a loop: tried as a fold, whose closure must be shown not to overflow at each turn, from a law of what the turns before have made of v; the loop's invariant says that in one line.
fn number(ds: &[u8]) -> u64
    requires { (length ds.now ≤ 10) × (digits ds.now ≡ ds.now) }
    ensures { result ≡ number_from 0 ds.now }
{
    let mut v: u64 = 0;
    for d in ds {
        v = v * 10 + u64::from(*d - b'0');
    }
    v
}

// A value and byte 10 at the front of s: 1 to 10 digits, no leading zero. The value, and how many bytes these are.
fn read_value(s: &[u8]) -> Option<(u64, usize)>
    ensures { result ≡ read_value_lem s.now }
{
    let n = digit_run(s);
    if n < 1 {
        return None;
    }
    if 10 < n {
        return None;
    }
    if s.len() <= n {
        return None;
    }
    if s[n] != b'\n' {
        return None;
    }
    let zero = s[0] == b'0';
    if zero && 1 < n {
        return None;
    }
    Some((number(&s[..n]), n + 1))
}

// The line `key=value` at the front of s: its value, and how many bytes it has.
pub fn read_line(s: &[u8], key: &[u8]) -> Option<(u64, usize)>
    ensures { result ≡ read_line_lem key.now s.now }
{
    let behind = s.strip_prefix(key)?;
    let (value, n) = read_value(behind)?;
    Some((value, key.len() + n))
}
