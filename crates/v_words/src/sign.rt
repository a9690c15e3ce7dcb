ghost use Rattle.std.specs.Prelude.{◌≡◌, ◌≤◌, ◌<◌, ◌^◌};
ghost use Rattle.lz_base.specs.Bits.{is_negative};
ghost use Rattle.v_meaning.specs.Senses.{extended, less};

use lz_base::mask;

/// Whether the top bit is 1.
pub fn is_negative(width: u32, value: u128) -> bool
    requires has_bit { 1 ≤ width }
    requires within { width ≤ 128 }
    ensures { result ≡ is_negative width value }
{
    (value >> (width - 1)) & 1 == 1
}

/// Whether a word is less than another one of its width. Where `signed`, a word whose top bit is 1 stands for its value
/// less 2 ^ width (IEEE Std 1364-2005, 5.1.7).
pub fn is_less(width: u32, signed: bool, left: u128, right: u128) -> bool
    requires has_bit { 1 ≤ width }
    requires within { width ≤ 128 }
    ensures { result ≡ less width signed left right }
{
    if signed && is_negative(width, left) != is_negative(width, right) {
        is_negative(width, left)
    } else {
        left < right
    }
}

/// A value of width `from` at the width `to`, which is not less: where `signed`, with copies of the top bit above it,
/// else with zeros (5.5.2).
#[tactic(auto, using(crate::proofs::Powers::power_grows))]
pub fn extend(from: u32, value: u128, to: u32, signed: bool) -> u128
    requires has_bit { 1 ≤ from }
    requires grows { from ≤ to }
    requires within { to ≤ 128 }
    requires fits { value < 2 ^ from }
    ensures value { result ≡ extended from value to signed }
    ensures below { result < 2 ^ to }
{
    if signed && is_negative(from, value) {
        value + (mask(to) - mask(from))
    } else {
        value
    }
}
