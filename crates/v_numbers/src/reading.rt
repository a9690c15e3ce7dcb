ghost use Rattle.std.specs.Prelude.{◌≡◌, ◌≤◌, ◌==◌, ◌||◌, nat_lt, false, min};
ghost use Rattle.v_meaning.specs.Literals.{based_literal, decimal_value, behind_mark, behind_sign, digits_in, literal, literal_of};
ghost use Rattle.v_meaning.specs.Literals.{is_wrong_number};
ghost use Rattle.v_numbers.specs.Fit.{IsFit};

use crate::accumulated::masks_of;
use crate::decimal::decimal_up_to;
use crate::digit::base_of;
use lz_base::cut;
use v_meaning::Literal;
use v_syntax::Spelling;

/// What a number stands for, one that is not wrong. Digits that are too many for its width are cut on the left; a leftmost
/// x or z goes on to the left where they are too few.
pub fn literal(spelling: &Spelling) -> Literal
    requires { is_wrong_number spelling.now ≡ false }
    ensures value { result ≡ literal_of spelling.now }
    ensures fit { IsFit result }
{
    match spelling {
        Spelling::Decimal(digits) => literal_behind(32, true, b'd', digits.bytes()),
        Spelling::Based(digits) => based(32, digits.bytes()),
        Spelling::Sized(size, digits) => based(width_of(size.bytes()), digits.bytes()),
    }
}

/// How many bits a number has, or 129 where it has more. A wrong number has as many as it is written with.
#[tactic(auto, using(crate::proofs::Widths::based_width))]
pub fn width_up_to_129(spelling: &Spelling) -> u32
    ensures { result ≡ min (literal_of spelling.now).width 129 }
{
    match spelling {
        Spelling::Decimal(_) | Spelling::Based(_) => 32,
        Spelling::Sized(size, _) => decimal_up_to(size.bytes(), 129) as u32,
    }
}

// The size of a number, which is not wrong.
fn width_of(bytes: &[u8]) -> u32
    requires { (decimal_value bytes.now == 0 || nat_lt 128 (decimal_value bytes.now)) ≡ false }
    ensures value { result ≡ decimal_value bytes.now }
    ensures has_bit { 1 ≤ result }
    ensures within { result ≤ 128 }
{
    decimal_up_to(bytes, 129) as u32
}

// The literal of a base and its digits: an apostrophe, a sign or none, the letter of the base, and digits.
fn based(width: u32, bytes: &[u8]) -> Literal
    requires has_bit { 1 ≤ width }
    requires within { width ≤ 128 }
    ensures { result ≡ based_literal width bytes.now }
{
    match bytes.split_first() {
        None => literal_behind(width, false, 0, bytes),
        Some((_, rest)) => behind_mark(width, rest),
    }
}

// What stands behind the apostrophe.
fn behind_mark(width: u32, bytes: &[u8]) -> Literal
    requires has_bit { 1 ≤ width }
    requires within { width ≤ 128 }
    ensures { result ≡ behind_mark width bytes.now }
{
    match bytes.split_first() {
        Some((b's', rest)) | Some((b'S', rest)) => behind_sign(width, true, rest),
        _ => behind_sign(width, false, bytes),
    }
}

// What stands behind the sign.
fn behind_sign(width: u32, signed: bool, bytes: &[u8]) -> Literal
    requires has_bit { 1 ≤ width }
    requires within { width ≤ 128 }
    ensures { result ≡ behind_sign width signed bytes.now }
{
    match bytes.split_first() {
        None => literal_behind(width, signed, 0, bytes),
        Some((letter, rest)) => literal_behind(width, signed, *letter, rest),
    }
}

// The literal of the digits behind the letter of a base.
fn literal_behind(width: u32, signed: bool, letter: u8, bytes: &[u8]) -> Literal
    requires has_bit { 1 ≤ width }
    requires within { width ≤ 128 }
    ensures { result ≡ literal width signed letter (digits_in bytes.now) }
{
    let masks = masks_of(base_of(letter), bytes);
    Literal {
        width,
        signed,
        ones: cut(masks.ones, width),
        unknown: cut(masks.unknown, width),
        impedance: cut(masks.impedance, width),
    }
}
