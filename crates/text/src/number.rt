// Numbers in decimal.
ghost use Rattle.std.specs.Prelude.{◌≡◌, ℕ, ◌≤◌, ℤ, pos, MatchOption};
ghost use Rattle.text.specs.Decimal.{Magnitude, Number};

use crate::name::is_digit;

// The largest magnitude of a num, and how many digits it has.
pub const LARGEST: u32 = 30_000;

const DIGITS: usize = 5;

// The number that the bytes write without a sign. A loop over the digits, and no `parse`, which asks for a text: finding that
// the bytes are one, and then reading it, takes twice the time, and looks at all bytes of a text that is too long.
pub fn read_magnitude(bytes: &[u8]) -> Option<u16>
    ensures { MatchOption result ((n : ℕ) → Magnitude bytes.now n → ⊥) (λ n. Magnitude bytes.now n) }
{
    let length = bytes.len();
    if length == 0 || length > DIGITS {
        return None;
    }
    if bytes[0] == b'0' && length > 1 {
        return None;
    }
    let mut n: u32 = 0;
    for b in bytes {
        if !is_digit(*b) {
            return None;
        }
        n = n * 10 + u32::from(*b - b'0');
    }
    if n > LARGEST {
        return None;
    }
    // A cast: `try_from` would need a branch for what cannot be.
    Some(n as u16)
}

// The num that the bytes write without a sign.
fn read_plain(bytes: &[u8]) -> Option<i16>
    ensures { MatchOption result ((n : ℕ) → Magnitude bytes.now n → ⊥)
        (λ z. (n : ℕ) × (z ≡ pos n) × Magnitude bytes.now n) }
{
    i16::try_from(read_magnitude(bytes)?).ok()
}

// The num that the bytes write: a minus stands before a negative one, and nothing before another.
pub fn read_number(bytes: &[u8]) -> Option<i16>
    ensures { MatchOption result ((z : ℤ) → Number bytes.now z → ⊥) (λ z. Number bytes.now z) }
{
    let Some((b'-', behind)) = bytes.split_first() else {
        return read_plain(bytes);
    };
    let z = read_plain(behind)?;
    (z > 0).then_some(-z)
}
