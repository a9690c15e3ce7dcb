ghost use Rattle.std.specs.Prelude.{◌≡◌, ◌<◌, ◌≤◌, ◌/◌, ◌^◌, ◌⊎◌, ℕ, [], ◌++◌, length, replicate, IfOk};
ghost use Rattle.g_net.specs.Network.{LiteralsBelow, node_count};
ghost use Rattle.g_arith.specs.Moves.{moved};
ghost use Rattle.g_arith.specs.Operators.{shifted};
ghost use Rattle.g_arith.specs.Words.{Adds, HasNumber, number_in, bit_in};

use crate::choices::choose;
use crate::comparisons::equal;
use crate::words::{Bits, ZERO, constants};
use g_build::Builder;
use lz_base::{Items, Num, OutOfMemory};
use std::alloc::Global;

// So many copies of a literal.
fn copies(alloc: Global, count: usize, literal: Num) -> Result<Bits, OutOfMemory>
    ensures { IfOk result (λ bits. bits ≡ replicate count literal) }
{
    let mut bits = Items::new(alloc);
    for i in 0..count {
        bits.push(literal)?;
    }
    Ok(bits)
}

// The literals of one slice and then those of another.
fn joined(alloc: Global, low: &[Num], high: &[Num]) -> Result<Bits, OutOfMemory>
    ensures { IfOk result (λ bits. bits ≡ low.now ++ high.now) }
{
    let mut bits = Items::from_slice(alloc, low)?;
    bits.append(Items::from_slice(alloc, high)?)?;
    Ok(bits)
}

// The word moved by so many places, with copies of a literal where none of its own comes to stand.
fn move_by(
    alloc: Global,
    word: &[Num],
    places: usize,
    left: bool,
    fill: Num,
) -> Result<Bits, OutOfMemory>
    requires { places ≤ length word.now }
    ensures { IfOk result (λ bits. bits ≡ moved left places fill word.now) }
{
    let fills = copies(alloc, places, fill)?;
    if left {
        joined(alloc, fills.as_slice(), &word[..word.len() - places])
    } else {
        joined(alloc, &word[places..], fills.as_slice())
    }
}

// How many low bits of an amount of so many bits stand for less than the width.
fn stage_count(width: usize, bits: usize) -> usize
    ensures within { result ≤ bits }
    ensures few { (k : ℕ) → k < result → 2 ^ k < width }
    ensures enough { (result ≡ bits) ⊎ (width ≤ 2 ^ result) }
{
    let mut places: Num = 1;
    for count in 0..bits {
        if width as Num <= places {
            return count;
        }
        places = 2 * places;
    }
    bits
}

// The word moved by the number of an amount each of whose bits stands for less than the width.
fn by_stages(
    alloc: Global,
    builder: &mut Builder<'_>,
    x: &[Num],
    amount: &[Num],
    left: bool,
    fill: Num,
) -> Result<Bits, OutOfMemory>
    requires no_output { builder.old.part.outputs ≡ [] }
    requires word { LiteralsBelow (node_count builder.old.part) x.now }
    requires amount { LiteralsBelow (node_count builder.old.part) amount.now }
    requires fill { fill / 2 < node_count builder.old.part }
    requires few { (k : ℕ) → k < length amount.now → 2 ^ k < length x.now }
    ensures number { IfOk result (λ bits. HasNumber builder.new.part bits (length x.now) (λ sources. shifted left (length x.now) (bit_in builder.old.part sources fill) (number_in builder.old.part sources x.now) (number_in builder.old.part sources amount.now))) }
    ensures adds { Adds builder.old.part builder.new.part }
    ensures book { builder.new.book ≡ builder.old.book }
{
    let mut word = Items::from_slice(alloc, x)?;
    let mut places: Num = 1;
    for i in 0..amount.len() {
        let moved = move_by(alloc, word.as_slice(), places as usize, left, fill)?;
        word = choose(alloc, builder, amount[i], moved.as_slice(), word.as_slice())?;
        places = 2 * places;
    }
    Ok(word)
}

/// A word moved to the left or to the right by the number of an amount. Copies of a literal come in where no bit of the
/// word comes to stand: below bit 0, or above the top bit.
pub fn shift(
    alloc: Global,
    builder: &mut Builder<'_>,
    x: &[Num],
    amount: &[Num],
    left: bool,
    fill: Num,
) -> Result<Bits, OutOfMemory>
    requires no_output { builder.old.part.outputs ≡ [] }
    requires word { LiteralsBelow (node_count builder.old.part) x.now }
    requires amount { LiteralsBelow (node_count builder.old.part) amount.now }
    requires fill { fill / 2 < node_count builder.old.part }
    ensures number { IfOk result (λ bits. HasNumber builder.new.part bits (length x.now) (λ sources. shifted left (length x.now) (bit_in builder.old.part sources fill) (number_in builder.old.part sources x.now) (number_in builder.old.part sources amount.now))) }
    ensures adds { Adds builder.old.part builder.new.part }
    ensures book { builder.new.book ≡ builder.old.book }
{
    constants();
    let count = stage_count(x.len(), amount.len());
    let moved = by_stages(alloc, builder, x, &amount[..count], left, fill)?;
    if count == amount.len() {
        return Ok(moved);
    }
    // A bit above these moves every bit out.
    let above = &amount[count..];
    let zeros = copies(alloc, above.len(), ZERO)?;
    let none = equal(builder, above, zeros.as_slice())?;
    let fills = copies(alloc, x.len(), fill)?;
    let bits = choose(alloc, builder, none, moved.as_slice(), fills.as_slice())?;
    Ok(bits)
}
