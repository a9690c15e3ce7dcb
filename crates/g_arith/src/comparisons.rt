ghost use Rattle.std.specs.Prelude.{◌≡◌, ◌==◌, ◌≤◌, [], length, IfOk};
ghost use Rattle.g_net.specs.Network.{LiteralsBelow, node_count};
ghost use Rattle.g_arith.specs.Operators.{is_less};
ghost use Rattle.g_arith.specs.Words.{Adds, HasBit, number_in};

use crate::gates::{and, complement, xor};
use crate::sums::sum;
use crate::words::{ONE, constants, inverses, with_top};
use g_build::Builder;
use g_rules::inverted_values;
use lz_base::{Num, OutOfMemory};
use std::alloc::Global;

/// Whether the first of two words of one width is the less, as signed words where it is asked.
pub fn less(
    alloc: Global,
    builder: &mut Builder<'_>,
    x: &[Num],
    y: &[Num],
    signed: bool,
) -> Result<Num, OutOfMemory>
    requires no_output { builder.old.part.outputs ≡ [] }
    requires width { 1 ≤ length x.now }
    requires same_width { length y.now ≡ length x.now }
    requires first { LiteralsBelow (node_count builder.old.part) x.now }
    requires second { LiteralsBelow (node_count builder.old.part) y.now }
    ensures less { IfOk result (λ literal. HasBit builder.new.part literal (λ sources. is_less (length x.now) signed (number_in builder.old.part sources x.now) (number_in builder.old.part sources y.now))) }
    ensures adds { Adds builder.old.part builder.new.part }
    ensures book { builder.new.book ≡ builder.old.book }
{
    constants();
    inverted_values();
    // With the top bits inverted, signed words are in order as unsigned ones.
    let x_turned = with_top(alloc, x, signed)?;
    let y_turned = with_top(alloc, y, signed)?;
    let inverted = inverses(alloc, y_turned.as_slice())?;
    // A difference that is not negative has a carry out.
    let (_, carry) = sum(
        alloc,
        builder,
        x_turned.as_slice(),
        inverted.as_slice(),
        ONE,
    )?;
    Ok(complement(carry))
}

/// Whether two words of one width are equal.
pub fn equal(builder: &mut Builder<'_>, x: &[Num], y: &[Num]) -> Result<Num, OutOfMemory>
    requires no_output { builder.old.part.outputs ≡ [] }
    requires same_width { length y.now ≡ length x.now }
    requires first { LiteralsBelow (node_count builder.old.part) x.now }
    requires second { LiteralsBelow (node_count builder.old.part) y.now }
    ensures equal { IfOk result (λ literal. HasBit builder.new.part literal (λ sources. number_in builder.old.part sources x.now == number_in builder.old.part sources y.now)) }
    ensures adds { Adds builder.old.part builder.new.part }
    ensures book { builder.new.book ≡ builder.old.book }
{
    constants();
    let mut same = ONE;
    for i in 0..x.len() {
        let differ = xor(builder, x[i], y[i])?;
        same = and(builder, same, complement(differ))?;
    }
    Ok(same)
}
