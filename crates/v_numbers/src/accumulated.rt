ghost use Rattle.std.specs.Prelude.{◌≡◌, ◌≤◌, ◌^◌, ◌+◌, ◌-◌, ◌*◌, ◌%◌, [], ◌∷◌, if◌then◌else◌};
ghost use Rattle.v_meaning.specs.Literals.{begins, digit_value, digits_in, is_x, is_z, number_behind};
ghost use Rattle.v_numbers.specs.Ones.{ones_where};

use crate::digit::{Base, counts, digit_value, is_x, is_z};
use lz_base::mask;

// The bits of a number modulo 2 ^ 128, as far as its digits have been read: which are 1, x and z.
#[derive(Clone, Copy)]
pub struct Masks {
    pub ones: u128,
    pub unknown: u128,
    pub impedance: u128,
}

// The bits of all digits. Where the first digit is x or z, its bits go on above it.
pub fn masks_of(base: Base, bytes: &[u8]) -> Masks
    requires { base.bits ≤ 4 }
    ensures ones { result.ones % 2 ^ 128 ≡ number_behind 0 base.radix digit_value (digits_in bytes.now) % 2 ^ 128 }
    ensures unknown { result.unknown % 2 ^ 128 ≡ number_behind (if begins is_x (digits_in bytes.now) then 2 ^ 128 - 1 else 0) (2 ^ base.bits) (ones_where is_x base.bits) (digits_in bytes.now) % 2 ^ 128 }
    ensures impedance { result.impedance % 2 ^ 128 ≡ number_behind (if begins is_z (digits_in bytes.now) then 2 ^ 128 - 1 else 0) (2 ^ base.bits) (ones_where is_z base.bits) (digits_in bytes.now) % 2 ^ 128 }
{
    let mut masks = above(bytes);
    for byte in bytes {
        masks = next(masks, base, *byte);
    }
    masks
}

// The bits above the first digit.
fn above(bytes: &[u8]) -> Masks
    ensures ones { result.ones ≡ 0 }
    ensures unknown { result.unknown ≡ if begins is_x (digits_in bytes.now) then 2 ^ 128 - 1 else 0 }
    ensures impedance { result.impedance ≡ if begins is_z (digits_in bytes.now) then 2 ^ 128 - 1 else 0 }
{
    for byte in bytes {
        if counts(*byte) {
            return above_digit(*byte);
        }
    }
    Masks {
        ones: 0,
        unknown: 0,
        impedance: 0,
    }
}

fn above_digit(byte: u8) -> Masks
    ensures ones { result.ones ≡ 0 }
    ensures unknown { result.unknown ≡ if is_x byte then 2 ^ 128 - 1 else 0 }
    ensures impedance { result.impedance ≡ if is_z byte then 2 ^ 128 - 1 else 0 }
{
    Masks {
        ones: 0,
        unknown: if is_x(byte) { u128::MAX } else { 0 },
        impedance: if is_z(byte) { u128::MAX } else { 0 },
    }
}

// The bits with one byte more, which means nothing or is a digit.
fn next(masks: Masks, base: Base, byte: u8) -> Masks
    requires { base.bits ≤ 4 }
    ensures ones { result.ones ≡ number_behind masks.ones base.radix digit_value (digits_in (byte ∷ [])) % 2 ^ 128 }
    ensures unknown { result.unknown ≡ number_behind masks.unknown (2 ^ base.bits) (ones_where is_x base.bits) (digits_in (byte ∷ [])) % 2 ^ 128 }
    ensures impedance { result.impedance ≡ number_behind masks.impedance (2 ^ base.bits) (ones_where is_z base.bits) (digits_in (byte ∷ [])) % 2 ^ 128 }
{
    if counts(byte) {
        let width = 1 << base.bits;
        Masks {
            ones: behind(masks.ones, base.radix, digit_value(byte) as u128),
            unknown: behind(masks.unknown, width, ones_if(is_x(byte), base.bits)),
            impedance: behind(masks.impedance, width, ones_if(is_z(byte), base.bits)),
        }
    } else {
        masks
    }
}

// A digit behind a number, modulo 2 ^ 128.
#[tactic(auto, using(crate::proofs::Wrapped::wrapped_twice))]
fn behind(before: u128, radix: u128, digit: u128) -> u128
    ensures { result ≡ (before * radix + digit) % 2 ^ 128 }
{
    before.wrapping_mul(radix).wrapping_add(digit)
}

// A digit of ones where it holds.
fn ones_if(holds: bool, bits: u32) -> u128
    requires { bits ≤ 4 }
    ensures { result ≡ if holds then 2 ^ bits - 1 else 0 }
{
    if holds { mask(bits) } else { 0 }
}
