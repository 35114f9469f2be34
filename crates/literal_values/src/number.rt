//! Digits.
ghost use Rattle.std.specs.Prelude.{◌≡◌, ◌<◌, ◌≤◌, ◌^◌, MatchOption};
ghost use Rattle.hs_lex.specs.Numbers.{digit_of, one_more, value_of};
ghost use Rattle.literal_values.specs.Values.{capped};

/// A digit's value.
fn digit(byte: u8) -> u64
    ensures { result ≡ digit_of byte }
{
    if byte <= 57 {
        byte.saturating_sub(48) as u64
    } else if byte <= 70 {
        byte.saturating_sub(55) as u64
    } else {
        byte.saturating_sub(87) as u64
    }
}

/// The value with one digit more, if it fits.
fn next_value(base: u64, value: u64, byte: u8) -> Option<u64>
    ensures { MatchOption result (2 ^ 64 ≤ one_more base value byte) (λ next. next ≡ one_more base value byte) }
{
    let more = value.checked_mul(base)?;
    more.checked_add(digit(byte))
}

/// The value of digits, or the limit where it is more.
pub fn number(base: u64, digits: &[u8], limit: u64) -> u64
    requires { 0 < base }
    ensures { result ≡ capped limit (value_of base digits.now) }
{
    let mut value: u64 = 0;
    let mut left = digits;
    'digits: while let Some((byte, rest)) = left.split_first() {
        let Some(next) = next_value(base, value, *byte) else {
            return limit;
        };
        if next > limit {
            return limit;
        }
        value = next;
        left = rest;
    }
    value
}

/// The number of a character, by its digits.
pub fn code(base: u64, digits: &[u8]) -> u32
    requires { 0 < base }
    ensures { result ≡ capped 4294967295 (value_of base digits.now) }
{
    let value = number(base, digits, 4294967295);
    value as u32
}
