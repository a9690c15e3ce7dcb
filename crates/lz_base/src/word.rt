ghost use Rattle.std.specs.Prelude.{◌≡◌, ◌≤◌, ◌<◌, ◌^◌, ◌-◌, ◌%◌, ◌↔◌, IsTrue};
ghost use Rattle.lz_base.specs.Bits.{bit_of, resized};

use crate::masks::{cut, mask};
use std::marker::Model;

/// A word: a width from 1 to 128 bits, and a value below 2^width. Bit 0 is the least.
#[derive(Clone, Copy, Debug, PartialEq, Eq)]
pub struct Word {
    pub width: u32,
    pub value: u128,
}

impl Model for Word {
    ghost use Rattle.std.specs.Prelude.{◌≤◌, ◌<◌, ◌^◌};
    ghost use Rattle.lz_base.specs.WordValue.{WordValue};

    ghost Value = { WordValue };

    ghost view = { λ w. record { width = w.width; value = w.value } };

    ghost invariant = { λ w. (1 ≤ w.width) × (w.width ≤ 128) × (w.value < 2 ^ w.width) };

    ghost inverse = { λ w. record { width = w.width; value = w.value } };
}

impl Word {
    /// The word of this width and value.
    pub fn new(width: u32, value: u128) -> Word
        requires has_bit { 1 ≤ width }
        requires within { width ≤ 128 }
        requires fits { value < 2 ^ width }
        ensures { result ≡ record { width = width; value = value } }
    {
        Word { width, value }
    }

    /// Whether bit `i` is 1.
    pub fn bit(&self, i: u32) -> bool
        requires { i < self.now.width }
        ensures { IsTrue result ↔ (bit_of self.now.value i ≡ 1) }
    {
        (self.value >> i) & 1 == 1
    }

    /// The word at another width. It is cut to its low bits, or extended: where `signed`, by copies of its top bit,
    /// else by zeros.
    pub fn resize(&self, width: u32, signed: bool) -> Word
        requires has_bit { 1 ≤ width }
        requires within { width ≤ 128 }
        ensures { result ≡ record { width = width; value = resized self.now.width self.now.value width signed } }
    {
        Word {
            width,
            value: resized(self, width, signed),
        }
    }
}

// The value at another width.
#[tactic(auto, using(crate::proofs::Powers::power_grows, std::proofs::lemmas::Nat::mod_below, std::proofs::lemmas::Nat::pow_pos))]
fn resized(word: &Word, width: u32, signed: bool) -> u128
    requires has_bit { 1 ≤ width }
    requires within { width ≤ 128 }
    ensures value { result ≡ resized word.now.width word.now.value width signed }
    ensures fits { result < 2 ^ width }
{
    if width <= word.width {
        cut(word.value, width)
    } else if signed && word.bit(word.width - 1) {
        word.value + (mask(width) - mask(word.width))
    } else {
        word.value
    }
}
