//! Reads and writes numbers in the format that headers, property lengths and mergeinfo use.
ghost use Rattle.std.specs.Prelude.{◌≡◌, ◌<◌, ◌^◌, ◌==◌, ◌||◌, ℕ, IfSome, Some, bytes_eq, get_or, length, nat_lt, not};
ghost use Rattle.dump_text.specs.Number.{number_of, spelled_number};

use std::marker::Model;

/// A longer run of digits is no number (this project's own rule), so that the sum of two numbers fits a `u64`.
const MOST_DIGITS: usize = 18;

/// Reads a number of 1 to 18 ASCII digits, with or without leading zeros.
pub fn number(bytes: &[u8]) -> Option<u64>
    ensures value { result ≡ number_of bytes.now }
    ensures small { IfSome result (λ n. n < 10 ^ 18) }
{
    if bytes.is_empty() || bytes.len() > MOST_DIGITS {
        return None;
    }
    let mut value = 0u64;
    for digit in bytes {
        if !digit.is_ascii_digit() {
            return None;
        }
        value = value * 10 + u64::from(*digit - b'0');
    }
    Some(value)
}

/// Whether the filter would write these digits for their number, which means that there is no leading zero. It looks
/// only at the length and the first byte, so bytes that are no number give an answer too.
pub fn is_shortest(digits: &[u8]) -> bool
    ensures spelled { (n : ℕ) → number_of digits.now ≡ Some n → result ≡ bytes_eq digits.now (spelled_number n) }
    ensures first { result ≡ (nat_lt (length digits.now) 2 || not (get_or digits.now 0 0 == 48)) }
{
    digits.len() < 2 || digits[0] != b'0'
}

/// The number of digits of the largest `u64`.
const ROOM: usize = 20;

/// The digits of a number, without leading zeros.
#[derive(Drop)]
pub struct Digits {
    bytes: [u8; ROOM],
    start: usize,
}

impl Model for Digits {
    ghost use Rattle.std.specs.Prelude.{List, ℕ, ◌≤◌, drop};

    ghost Value = { List ℕ };

    ghost view = { λ d. drop d.start d.bytes };

    ghost invariant = { λ d. d.start ≤ 20 };
}

impl Digits {
    /// The digits as ASCII.
    pub fn bytes(&self) -> &[u8]
        ensures { result.now ≡ self.now }
    {
        &self.bytes[self.start..]
    }
}

/// The digits that the filter writes for a number.
pub fn spell(n: u64) -> Digits
    ensures { result ≡ spelled_number n }
{
    let mut bytes = [b'0'; ROOM];
    let mut start = ROOM - 1;
    let mut left = n;
    while left >= 10 && start > 0 {
        bytes[start] = b'0' + (left % 10) as u8;
        left /= 10;
        start -= 1;
    }
    bytes[start] = b'0' + (left % 10) as u8;
    Digits { bytes, start }
}
