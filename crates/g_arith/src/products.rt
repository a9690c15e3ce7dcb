ghost use Rattle.std.specs.Prelude.{◌≡◌, ◌+◌, ◌<◌, ◌/◌, [], length, IfOk};
ghost use Rattle.g_net.specs.Network.{LiteralsBelow, node_count};
ghost use Rattle.g_arith.specs.Products.{masked, multiplied, with_above};
ghost use Rattle.g_arith.specs.Words.{Adds, HasNumber, number_in, bit_in};

use crate::sums::add;
use crate::words::{Bits, ZERO};
use g_build::Builder;
use g_net::sources_first;
use g_rules::Shape;
use lz_base::{Items, Num, OutOfMemory};
use std::alloc::Global;

// The word where the bit is 1, and else 0.
fn masked(
    alloc: Global,
    builder: &mut Builder<'_>,
    word: &[Num],
    bit: Num,
) -> Result<Bits, OutOfMemory>
    requires no_output { builder.old.part.outputs ≡ [] }
    requires word { LiteralsBelow (node_count builder.old.part) word.now }
    requires bit { bit / 2 < node_count builder.old.part }
    ensures number { IfOk result (λ bits. HasNumber builder.new.part bits (length word.now) (λ sources. masked (number_in builder.old.part sources word.now) (bit_in builder.old.part sources bit))) }
    ensures adds { Adds builder.old.part builder.new.part }
    ensures book { builder.new.book ≡ builder.old.book }
{
    let mut bits = Items::new(alloc);
    for i in 0..word.len() {
        let masked = builder.gate(Shape::And(word[i], bit))?;
        bits.push(masked)?;
    }
    Ok(bits)
}

// The sum of a row and of twice the word above it, which is one literal shorter, at the width of the row.
fn with_above(
    alloc: Global,
    builder: &mut Builder<'_>,
    row: &[Num],
    above: &[Num],
) -> Result<Bits, OutOfMemory>
    requires no_output { builder.old.part.outputs ≡ [] }
    requires same_width { length row.now ≡ length above.now + 1 }
    requires row { LiteralsBelow (node_count builder.old.part) row.now }
    requires above { LiteralsBelow (node_count builder.old.part) above.now }
    ensures number { IfOk result (λ bits. HasNumber builder.new.part bits (length row.now) (λ sources. with_above (length row.now) (number_in builder.old.part sources row.now) (number_in builder.old.part sources above.now))) }
    ensures adds { Adds builder.old.part builder.new.part }
    ensures book { builder.new.book ≡ builder.old.book }
{
    sources_first();
    let sum = add(alloc, builder, &row[1..], above, ZERO)?;
    let mut bits = Items::new(alloc);
    bits.push(row[0])?;
    bits.append(sum)?;
    Ok(bits)
}

/// The product of two words of one width, at their width: what passes it is lost.
///
/// It is made of a row for each bit of the second word, the first word masked by the bit, from the top bit down. Each row
/// needs one literal less of the first word than the row below it.
pub fn multiply(
    alloc: Global,
    builder: &mut Builder<'_>,
    x: &[Num],
    y: &[Num],
) -> Result<Bits, OutOfMemory>
    requires no_output { builder.old.part.outputs ≡ [] }
    requires same_width { length y.now ≡ length x.now }
    requires first { LiteralsBelow (node_count builder.old.part) x.now }
    requires second { LiteralsBelow (node_count builder.old.part) y.now }
    ensures number { IfOk result (λ bits. HasNumber builder.new.part bits (length x.now) (λ sources. multiplied (length x.now) (number_in builder.old.part sources x.now) (number_in builder.old.part sources y.now))) }
    ensures adds { Adds builder.old.part builder.new.part }
    ensures book { builder.new.book ≡ builder.old.book }
{
    let mut product = Items::new(alloc);
    for i in 0..x.len() {
        let bit = y[x.len() - 1 - i];
        let row = masked(alloc, builder, &x[..i + 1], bit)?;
        product = with_above(alloc, builder, row.as_slice(), product.as_slice())?;
    }
    Ok(product)
}
