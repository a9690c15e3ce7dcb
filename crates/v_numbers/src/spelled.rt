ghost use Rattle.std.specs.Prelude.{◌≡◌, ◌==◌, ◌||◌, nat_lt};
ghost use Rattle.v_meaning.specs.Literals.{decimal_value, digit_in, has_digit, is_unsized, is_x, is_z};
ghost use Rattle.v_meaning.specs.Literals.{is_wrong_number};

use crate::decimal::decimal_up_to;
use crate::digit::{is_x, is_z};
use v_syntax::Spelling;

/// Whether a number is wrong: a size of 0 or over 128, a decimal number of 2 ^ 31 or more, or an x or z digit in a number
/// without a size.
pub fn is_wrong(spelling: &Spelling) -> bool
    ensures { result ≡ is_wrong_number spelling.now }
{
    match spelling {
        Spelling::Decimal(digits) => decimal_up_to(digits.bytes(), 1 << 31) == 1 << 31,
        Spelling::Based(_) => has_unknown(spelling) || has_impedance(spelling),
        Spelling::Sized(size, _) => is_wrong_size(size.bytes()),
    }
}

// Whether a size is 0 or over 128.
fn is_wrong_size(bytes: &[u8]) -> bool
    ensures { result ≡ (decimal_value bytes.now == 0 || nat_lt 128 (decimal_value bytes.now)) }
{
    let size = decimal_up_to(bytes, 129);
    size == 0 || size == 129
}

/// Whether a number has an x digit, also one that its size cuts off.
pub fn has_unknown(spelling: &Spelling) -> bool
    ensures { result ≡ digit_in is_x spelling.now }
{
    match spelling {
        Spelling::Decimal(_) => false,
        Spelling::Based(digits) => any_x(digits.bytes()),
        Spelling::Sized(_, digits) => any_x(digits.bytes()),
    }
}

/// Whether a number has a z or ? digit, also one that its size cuts off.
pub fn has_impedance(spelling: &Spelling) -> bool
    ensures { result ≡ digit_in is_z spelling.now }
{
    match spelling {
        Spelling::Decimal(_) => false,
        Spelling::Based(digits) => any_z(digits.bytes()),
        Spelling::Sized(_, digits) => any_z(digits.bytes()),
    }
}

/// Whether a number has no size, so that its width is 32.
pub fn is_unsized(spelling: &Spelling) -> bool
    ensures { result ≡ is_unsized spelling.now }
{
    match spelling {
        Spelling::Decimal(_) | Spelling::Based(_) => true,
        Spelling::Sized(_, _) => false,
    }
}

fn any_x(bytes: &[u8]) -> bool
    ensures { result ≡ has_digit is_x bytes.now }
{
    for byte in bytes {
        if is_x(*byte) {
            return true;
        }
    }
    false
}

fn any_z(bytes: &[u8]) -> bool
    ensures { result ≡ has_digit is_z bytes.now }
{
    for byte in bytes {
        if is_z(*byte) {
            return true;
        }
    }
    false
}
