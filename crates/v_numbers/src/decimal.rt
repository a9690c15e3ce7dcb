ghost use Rattle.std.specs.Prelude.{◌≡◌, ◌≤◌, ◌^◌, min, [], ◌∷◌};
ghost use Rattle.v_meaning.specs.Literals.{decimal_value, number_behind, digit_value, digits_in};

use crate::digit::{counts, digit_value};

// The value of a decimal number of any length, or the limit where it is greater.
pub fn decimal_up_to(bytes: &[u8], limit: u64) -> u64
    requires { limit ≤ 2 ^ 32 }
    ensures { result ≡ min (decimal_value bytes.now) limit }
{
    let mut value = 0;
    for byte in bytes {
        value = next(value, *byte, limit);
    }
    value
}

// The value with one byte more behind it, which means nothing or is a digit.
fn next(value: u64, byte: u8, limit: u64) -> u64
    requires small { limit ≤ 2 ^ 32 }
    requires within { value ≤ limit }
    ensures { result ≡ min (number_behind value 10 digit_value (digits_in (byte ∷ []))) limit }
{
    if counts(byte) {
        (value * 10 + digit_value(byte) as u64).min(limit)
    } else {
        value
    }
}
