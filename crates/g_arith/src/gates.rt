ghost use Rattle.std.specs.Prelude.{◌≡◌, ◌<◌, ◌/◌, ◌&&◌, [], true, List, Bool, IfOk};
ghost use Rattle.std.specs.Bool.{xor};
ghost use Rattle.g_net.specs.Network.{node_count};
ghost use Rattle.g_net.specs.Run.{literal_value};
ghost use Rattle.g_arith.specs.Words.{Adds, HasBit, bit_in};

use g_build::Builder;
use g_rules::{Shape, inverse, inverted_values};
use lz_base::{Num, OutOfMemory};

/// The inverse of a literal.
pub fn complement(literal: Num) -> Num
    ensures node { result / 2 ≡ literal / 2 }
    ensures value { (values : List Bool) → literal_value values result ≡ xor true (literal_value values literal) }
{
    inverted_values();
    inverse(literal)
}

/// Whether both literals are 1.
pub fn and(builder: &mut Builder<'_>, a: Num, b: Num) -> Result<Num, OutOfMemory>
    requires no_output { builder.old.part.outputs ≡ [] }
    requires first { a / 2 < node_count builder.old.part }
    requires second { b / 2 < node_count builder.old.part }
    ensures bit { IfOk result (λ literal. HasBit builder.new.part literal (λ sources. bit_in builder.old.part sources a && bit_in builder.old.part sources b)) }
    ensures adds { Adds builder.old.part builder.new.part }
    ensures book { builder.new.book ≡ builder.old.book }
{
    let literal = builder.gate(Shape::And(a, b))?;
    Ok(literal)
}

/// Whether two literals differ.
pub fn xor(builder: &mut Builder<'_>, a: Num, b: Num) -> Result<Num, OutOfMemory>
    requires no_output { builder.old.part.outputs ≡ [] }
    requires first { a / 2 < node_count builder.old.part }
    requires second { b / 2 < node_count builder.old.part }
    ensures bit { IfOk result (λ literal. HasBit builder.new.part literal (λ sources. xor (bit_in builder.old.part sources a) (bit_in builder.old.part sources b))) }
    ensures adds { Adds builder.old.part builder.new.part }
    ensures book { builder.new.book ≡ builder.old.book }
{
    let literal = builder.gate(Shape::Xor(a, b))?;
    Ok(literal)
}
