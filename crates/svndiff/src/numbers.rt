//! Numbers of a delta: seven bits a byte.
ghost use Rattle.std.specs.Prelude.{◌≡◌, ◌<◌, ◌≤◌, drop, length, IfSome, option_map};
ghost use Rattle.svndiff.specs.Svndiff.{number_from};
ghost use Rattle.svndiff.specs.steps.Readings.{number_with};

/// A number, and the place after it.
#[derive(Clone, Copy)]
pub(crate) struct Number {
    pub(crate) value: u64,
    pub(crate) after: usize,
}

/// A number has no more bytes.
const LONGEST: usize = 10;

/// The bits from this on are lost when seven are added.
const LOST: u64 = 0x0200_0000_0000_0000;

/// The number at a place of some bytes.
pub(crate) fn number_at(bytes: &[u8], at: usize) -> Option<Number>
    requires { at ≤ length bytes.now }
    ensures value { number_from 0 0 (drop at bytes.now) ≡ option_map (number_with bytes.now) result }
    ensures after { IfSome result (λ it. at < it.after) }
    ensures within { IfSome result (λ it. it.after ≤ length bytes.now) }
{
    let mut value = 0u64;
    for (read, byte) in bytes[at..].iter().enumerate() {
        if read >= LONGEST {
            return None;
        }
        value = value % LOST * 128 + u64::from(*byte % 128);
        if *byte < 128 {
            return Some(Number {
                value,
                after: at + read + 1,
            });
        }
    }
    None
}
