ghost use Rattle.std.specs.Prelude.{◌≡◌, ℕ, List, Bool};
ghost use Rattle.std.specs.Bool.{xor};
ghost use Rattle.g_net.specs.Run.{literal_value};
ghost use Rattle.g_rules.specs.Literals.{literal_node, inverse_of, inverted_of, even_of, is_inverse};

use lz_base::Num;

/// Whether the literal is the inverse of its node.
pub fn is_inverse(literal: Num) -> bool
    ensures { result ≡ is_inverse literal }
{
    literal % 2 == 1
}

/// The inverse of a literal: its number with the lowest bit changed.
pub fn inverse(literal: Num) -> Num
    ensures { result ≡ inverse_of literal }
{
    if literal % 2 == 0 {
        literal + 1
    } else {
        literal - 1
    }
}

/// The literal, inverted where it is asked.
pub fn inverted(literal: Num, invert: bool) -> Num
    ensures { result ≡ inverted_of literal invert }
{
    if invert { inverse(literal) } else { literal }
}

/// The literal of the node itself.
pub fn even(literal: Num) -> Num
    ensures { result ≡ even_of literal }
{
    2 * (literal / 2)
}

/// Whether exactly one of the two holds.
#[tactic(auto, using(crate::proofs::Bits::xor_is))]
pub fn differ(a: bool, b: bool) -> bool
    ensures { result ≡ xor a b }
{
    a != b
}

/// Law: a literal that is inverted where it is asked is of the same node, and its value is inverted where it is asked.
pub fn inverted_values()
    ensures value { (values : List Bool) (literal : ℕ) (invert : Bool) → literal_value values (inverted_of literal invert) ≡ xor invert (literal_value values literal) }
    ensures node { (literal : ℕ) (invert : Bool) → literal_node (inverted_of literal invert) ≡ literal_node literal }
{}
