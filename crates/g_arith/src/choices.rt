ghost use Rattle.std.specs.Prelude.{◌≡◌, ◌<◌, ◌/◌, [], length, if◌then◌else◌, IfOk};
ghost use Rattle.g_net.specs.Network.{LiteralsBelow, node_count};
ghost use Rattle.g_arith.specs.Words.{Adds, HasBit, HasNumber, number_in, bit_in};

use crate::gates::{and, complement, xor};
use crate::words::{Bits, ONE, ZERO, constants};
use g_build::Builder;
use lz_base::{Items, Num, OutOfMemory};
use std::alloc::Global;

// The first literal where the condition holds, and else the second.
fn choose_bit(builder: &mut Builder<'_>, condition: Num, x: Num, y: Num) -> Result<Num, OutOfMemory>
    requires no_output { builder.old.part.outputs ≡ [] }
    requires condition { condition / 2 < node_count builder.old.part }
    requires first { x / 2 < node_count builder.old.part }
    requires second { y / 2 < node_count builder.old.part }
    ensures bit { IfOk result (λ literal. HasBit builder.new.part literal (λ sources. if bit_in builder.old.part sources condition then bit_in builder.old.part sources x else bit_in builder.old.part sources y)) }
    ensures adds { Adds builder.old.part builder.new.part }
    ensures book { builder.new.book ≡ builder.old.book }
{
    let differ = xor(builder, x, y)?;
    let change = and(builder, complement(condition), differ)?;
    let literal = xor(builder, x, change)?;
    Ok(literal)
}

/// The first word where the condition holds, and else the second. Both have one width. Where the condition is a constant,
/// no gate is asked for.
pub fn choose(
    alloc: Global,
    builder: &mut Builder<'_>,
    condition: Num,
    x: &[Num],
    y: &[Num],
) -> Result<Bits, OutOfMemory>
    requires no_output { builder.old.part.outputs ≡ [] }
    requires condition { condition / 2 < node_count builder.old.part }
    requires same_width { length y.now ≡ length x.now }
    requires first { LiteralsBelow (node_count builder.old.part) x.now }
    requires second { LiteralsBelow (node_count builder.old.part) y.now }
    ensures number { IfOk result (λ bits. HasNumber builder.new.part bits (length x.now) (λ sources. if bit_in builder.old.part sources condition then number_in builder.old.part sources x.now else number_in builder.old.part sources y.now)) }
    ensures adds { Adds builder.old.part builder.new.part }
    ensures book { builder.new.book ≡ builder.old.book }
{
    constants();
    if condition == ONE {
        let bits = Items::from_slice(alloc, x)?;
        return Ok(bits);
    }
    if condition == ZERO {
        let bits = Items::from_slice(alloc, y)?;
        return Ok(bits);
    }
    let mut bits = Items::new(alloc);
    for i in 0..x.len() {
        let literal = choose_bit(builder, condition, x[i], y[i])?;
        bits.push(literal)?;
    }
    Ok(bits)
}
