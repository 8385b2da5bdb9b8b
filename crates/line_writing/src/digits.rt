// The decimal digits of a number, found by subtracting powers of ten, and written.
ghost use Rattle.std.specs.Prelude.{◌≡◌, ◌+◌, ◌*◌, ◌^◌, ◌≤◌, ◌<◌};
ghost use Rattle.lines.specs.Text.{decimal};
ghost use Rattle.line_writing.specs.Padded.{padded};
ghost use Rattle.line_writing.specs.Puts.{Puts, Room};

use crate::output::Out;

// The powers of ten of the ten digits, the lowest first.
const POWERS: [u64; 10] = [
    1, 10, 100, 1000, 10000, 100000, 1000000, 10000000, 100000000, 1000000000,
];

// A number's first digit, and the rest behind it.
#[derive(Drop)]
struct Digit {
    digit: u8,
    rest: u64,
}

// The power of ten that has k zeros.
fn power_of_ten(k: usize) -> u64
    requires { k < 10 }
    ensures { result ≡ 10 ^ k }
{
    POWERS[k]
}

// How often a power is subtracted from n until n is below it, and what is left then.
// Kept as a loop of subtractions: a rule of the project, no division on the way to a digit.
fn digit_of(n: u64, power: u64) -> Digit
    requires { (0 < power) × (n < 10 * power) }
    ensures { (n ≡ result.digit * power + result.rest) × (result.rest < power) × (result.digit < 10) }
{
    let mut digit: u8 = 0;
    let mut rest = n;
    while power <= rest {
        rest -= power;
        digit += 1;
    }
    Digit { digit, rest }
}

// How many digits n is written with: the powers above n are skipped, the last one never is.
// Kept as a loop over the zeros: a rule of the project, that no digit is found by dividing, is proved of this code and of all that it calls, and an iterator's `rposition` would be one more call.
fn digit_count(n: u64) -> usize
    requires { n < 10000000000 }
    ensures { (result ≤ 10) × (n < 10 ^ result) × (decimal n ≡ padded result n) }
{
    for k in (1..10).rev() {
        if power_of_ten(k) <= n {
            return k + 1;
        }
    }
    1
}

impl<'a> Out<'a> {
    // Puts n's last `count` digits.
    // Kept as a loop over the zeros, for the rule of no dividing: an iterator over the powers would be one more call on the way to a digit.
    fn put_digits(&mut self, n: u64, count: usize)
        requires { (count ≤ 10) × (n < 10 ^ count) × Room self.old (padded count n) }
        ensures { Puts self.old (padded count n) self.new }
    {
        let mut rest = n;
        for k in (0..count).rev() {
            let found = digit_of(rest, power_of_ten(k));
            self.bytes[self.at] = b'0' + found.digit;
            self.at += 1;
            rest = found.rest;
        }
    }

    // Puts n's decimal digits.
    pub fn put_number(&mut self, n: u64)
        requires n_bound { n < 10000000000 }
        requires n_in_bounds { Room self.old (decimal n) }
        ensures { Puts self.old (decimal n) self.new }
    {
        self.put_digits(n, digit_count(n));
    }
}
