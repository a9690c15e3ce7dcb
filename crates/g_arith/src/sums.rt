ghost use Rattle.std.specs.Prelude.{◌≡◌, ◌<◌, ◌/◌, [], length, IfOk};
ghost use Rattle.g_net.specs.Network.{LiteralsBelow, node_count};
ghost use Rattle.g_arith.specs.Operators.{added, subtracted};
ghost use Rattle.g_arith.specs.Sums.{IsSum};
ghost use Rattle.g_arith.specs.Words.{Adds, HasNumber, number_in, bit_in};

use crate::words::{Bits, ONE, constants, inverses};
use g_build::Builder;
use lz_base::{Items, Num, OutOfMemory};
use std::alloc::Global;

/// The sum of two words of one width and a carry, and its carry out.
pub fn sum(
    alloc: Global,
    builder: &mut Builder<'_>,
    x: &[Num],
    y: &[Num],
    carry: Num,
) -> Result<(Bits, Num), OutOfMemory>
    requires no_output { builder.old.part.outputs ≡ [] }
    requires same_width { length y.now ≡ length x.now }
    requires first { LiteralsBelow (node_count builder.old.part) x.now }
    requires second { LiteralsBelow (node_count builder.old.part) y.now }
    requires carry { carry / 2 < node_count builder.old.part }
    ensures sum { IfOk result (λ r. IsSum builder.old.part builder.new.part x.now y.now carry r.0 r.1) }
    ensures adds { Adds builder.old.part builder.new.part }
    ensures book { builder.new.book ≡ builder.old.book }
{
    let mut bits = Items::new(alloc);
    let mut carry = carry;
    for i in 0..x.len() {
        let (bit, next) = builder.carry(x[i], y[i], carry)?;
        bits.push(bit)?;
        carry = next;
    }
    Ok((bits, carry))
}

/// The sum of two words of one width and a carry, at their width: what is carried out is lost.
pub fn add(
    alloc: Global,
    builder: &mut Builder<'_>,
    x: &[Num],
    y: &[Num],
    carry: Num,
) -> Result<Bits, OutOfMemory>
    requires no_output { builder.old.part.outputs ≡ [] }
    requires same_width { length y.now ≡ length x.now }
    requires first { LiteralsBelow (node_count builder.old.part) x.now }
    requires second { LiteralsBelow (node_count builder.old.part) y.now }
    requires carry { carry / 2 < node_count builder.old.part }
    ensures number { IfOk result (λ bits. HasNumber builder.new.part bits (length x.now) (λ sources. added (length x.now) (number_in builder.old.part sources x.now) (number_in builder.old.part sources y.now) (bit_in builder.old.part sources carry))) }
    ensures adds { Adds builder.old.part builder.new.part }
    ensures book { builder.new.book ≡ builder.old.book }
{
    let (bits, _) = sum(alloc, builder, x, y, carry)?;
    Ok(bits)
}

/// The difference of two words of one width, at their width.
pub fn subtract(
    alloc: Global,
    builder: &mut Builder<'_>,
    x: &[Num],
    y: &[Num],
) -> Result<Bits, OutOfMemory>
    requires no_output { builder.old.part.outputs ≡ [] }
    requires same_width { length y.now ≡ length x.now }
    requires first { LiteralsBelow (node_count builder.old.part) x.now }
    requires second { LiteralsBelow (node_count builder.old.part) y.now }
    ensures number { IfOk result (λ bits. HasNumber builder.new.part bits (length x.now) (λ sources. subtracted (length x.now) (number_in builder.old.part sources x.now) (number_in builder.old.part sources y.now))) }
    ensures adds { Adds builder.old.part builder.new.part }
    ensures book { builder.new.book ≡ builder.old.book }
{
    constants();
    let inverted = inverses(alloc, y)?;
    let bits = add(alloc, builder, x, inverted.as_slice(), ONE)?;
    Ok(bits)
}
