ghost use Rattle.std.specs.Prelude.{◌≡◌, ◌≤◌, ◌-◌, [], ◌∷◌, ◌++◌, true, false, length, take, slice_index, IfOk};
ghost use Rattle.g_net.specs.Network.{NetworkValue};
ghost use Rattle.g_rules.specs.Literals.{inverted_of};
ghost use Rattle.g_arith.specs.Sums.{IsInverse};
ghost use Rattle.g_arith.specs.Words.{HasBit};

use g_net::sources_first;
use g_rules::{inverse, inverted, inverted_values};
use lz_base::{Items, Num, OutOfMemory};
use std::alloc::Global;

/// The literal of the constant 0.
pub const ZERO: Num = 0;

/// The literal of the constant 1.
pub const ONE: Num = 1;

/// The literals of a word, bit 0 first. Contracts see them as a list.
pub type Bits = Items<Num>;

/// Law: the literals 0 and 1 are there, and are the constants.
pub fn constants()
    ensures zero { (n : NetworkValue) → HasBit n 0 (λ sources. false) }
    ensures one { (n : NetworkValue) → HasBit n 1 (λ sources. true) }
{
    sources_first();
}

/// The word with each literal inverted.
pub fn inverses(alloc: Global, word: &[Num]) -> Result<Bits, OutOfMemory>
    ensures { IfOk result (λ bits. IsInverse word.now bits) }
{
    inverted_values();
    let mut bits = Items::new(alloc);
    for literal in word {
        bits.push(inverse(*literal))?;
    }
    Ok(bits)
}

/// The word with its top literal inverted where it is asked.
pub fn with_top(alloc: Global, word: &[Num], invert: bool) -> Result<Bits, OutOfMemory>
    requires { 1 ≤ length word.now }
    ensures { IfOk result (λ bits. bits ≡ take (length word.now - 1) word.now ++ inverted_of (slice_index word.now (length word.now - 1)) invert ∷ []) }
{
    let top = word.len() - 1;
    let mut bits = Items::from_slice(alloc, &word[..top])?;
    bits.push(inverted(word[top], invert))?;
    Ok(bits)
}
