// Reading a text line by line: what is read is taken off the front, and the first fault ends it.
ghost use Rattle.std.specs.Prelude.{◌≡◌, ℕ, Bool, true, ◌≤◌, ◌<◌, IfOk};
ghost use Rattle.lines.specs.Parser.{row_at, optional_at, checked, rising, end};
ghost use Rattle.lines.specs.Fault.{number_of_lem};
ghost use Rattle.lines.specs.Reads.{Reads, fault_at, closed};

use crate::fault::{Fault, FaultKind};
use crate::read::read_line;
use crate::rows::Lines;

impl<'a> Lines<'a> {
    // A whole text, from its first line on.
    pub fn of(text: &'a [u8]) -> Lines<'a>
        ensures rest { result.rest.now ≡ text.now }
        ensures line { result.line ≡ 1 }
    {
        Lines {
            rest: text,
            line: 1,
        }
    }

    // A fault of the line that is next.
    pub fn fault(&self, kind: FaultKind) -> Fault
        ensures { result ≡ fault_at self.now kind }
    {
        Fault {
            kind,
            line: self.line,
        }
    }

    // The line `key=value` with a value from lo to hi: fault 2 before fault 3.
    pub fn field(&mut self, key: &[u8], lo: u32, hi: u32) -> Result<u32, Fault>
        ensures reads { Reads (row_at key.now lo hi) self.old self.new result }
        ensures within { IfOk result (λ v. (lo ≤ v) × (v ≤ hi)) }
    {
        let Some((value, length)) = read_line(self.rest, key) else {
            return Err(self.fault(FaultKind::Form));
        };
        if value < u64::from(lo) {
            return Err(self.fault(FaultKind::Range));
        }
        if u64::from(hi) < value {
            return Err(self.fault(FaultKind::Range));
        }
        *self = Lines {
            rest: &self.rest[length..],
            line: self.line + 1,
        };
        // Kept as a cast: the value is at most hi by then, and a `try_from` would have an arm that nothing reaches.
        Ok(value as u32)
    }

    // The line `key=value` that may be missing: it is where the text does not go on with the key.
    // Kept as a key and the ends of a range, here and below: each line of the grammar has its own, and a struct of them would be made for one call.
    pub fn optional(&mut self, key: &[u8], lo: u32, hi: u32) -> Result<Option<u32>, Fault>
        ensures { Reads (optional_at key.now lo hi) self.old self.new result }
    {
        if self.rest.starts_with(key) {
            Ok(Some(self.field(key, lo, hi)?))
        } else {
            Ok(None)
        }
    }

    // The line `key=value` with a value from lo to hi that is good: else a fault of this kind on that line, after 2 and 3.
    pub fn checked<F: FnOnce(u32) -> bool>(
        &mut self,
        key: &[u8],
        lo: u32,
        hi: u32,
        kind: FaultKind,
        good: F,
    ) -> Result<u32, Fault>
        requires { F.IsAlwaysCallable good }
        ensures reads { (ok : ℕ → Bool) → ((v : ℕ) (t : Bool) → F.post good v t → t ≡ ok v) → Reads (checked (number_of_lem kind) ok (row_at key.now lo hi)) self.old self.new result }
        ensures within { IfOk result (λ v. (lo ≤ v) × (v ≤ hi) × F.post good v true) }
    {
        let broken = self.fault(kind);
        let v = self.field(key, lo, hi)?;
        if good(v) { Ok(v) } else { Err(broken) }
    }

    // The line of a number from 1 to hi, which is after the number before and at most `most`: else a fault of this kind, after 2 and 3.
    pub fn rising(
        &mut self,
        key: &[u8],
        hi: u32,
        before: u32,
        most: u32,
        kind: FaultKind,
    ) -> Result<u32, Fault>
        ensures reads { Reads (checked (number_of_lem kind) (rising before most) (row_at key.now 1 hi)) self.old self.new result }
        ensures within { IfOk result (λ v. (before < v) × (v ≤ most) × (v ≤ hi)) }
    {
        self.checked(key, 1, hi, kind, |v| before < v && v <= most)
    }

    // The end of the text: bytes behind the last line are fault 2 on the line after it.
    pub fn end(&self) -> Result<(), Fault>
        ensures { closed self.now result ≡ end self.now.rest.now self.now.line }
    {
        if self.rest.is_empty() {
            Ok(())
        } else {
            Err(self.fault(FaultKind::Form))
        }
    }
}
