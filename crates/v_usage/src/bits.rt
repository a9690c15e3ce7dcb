ghost use Rattle.std.specs.Prelude.{◌≡◌, ◌+◌, ◌*◌, max, Some, min, Option, ℕ};
ghost use Rattle.v_usage.specs.Bits.{both, mapped, select_width, up_to_129, width_before, width_between};

use v_meaning::Kind;
use v_syntax::{BinaryOperator, UnaryOperator};

// Numbers of bits up to 129, of which `None` is one that is not definite.

// So many bits, up to 129.
pub(crate) fn bits(width: u32) -> Option<u32>
    ensures { result ≡ up_to_129 (Some width) }
{
    Some(width.min(129))
}

// What stands side by side.
pub(crate) fn beside(x: Option<u32>, y: Option<u32>) -> Option<u32>
    ensures { result ≡ up_to_129 (both ◌+◌ x y) }
{
    match (x, y) {
        (Some(x), Some(y)) => Some(x.saturating_add(y).min(129)),
        _ => None,
    }
}

// So many copies.
pub(crate) fn times(count: Option<u32>, x: Option<u32>) -> Option<u32>
    ensures { result ≡ up_to_129 (both ◌*◌ count x) }
{
    match (count, x) {
        (Some(count), Some(x)) => Some(count.saturating_mul(x).min(129)),
        _ => None,
    }
}

// The greater number.
pub(crate) fn wider(x: Option<u32>, y: Option<u32>) -> Option<u32>
    ensures { result ≡ up_to_129 (both max x y) }
{
    match (x, y) {
        (Some(x), Some(y)) => Some(x.max(y).min(129)),
        _ => None,
    }
}

// What is selected from a name of this kind and width.
pub(crate) fn select_width(kind: Kind, width: u32) -> u32
    ensures { result ≡ select_width kind width }
{
    match kind {
        Kind::Memory(..) => width,
        _ => 1,
    }
}

// An operator before an operand.
pub(crate) fn prefixed(operator: UnaryOperator, x: Option<u32>) -> Option<u32>
    ensures { result ≡ mapped (width_before operator) x }
{
    match x {
        Some(x) => Some(width_before(operator, x)),
        None => None,
    }
}

fn width_before(operator: UnaryOperator, x: u32) -> u32
    ensures { result ≡ width_before operator x }
{
    match operator {
        UnaryOperator::Plus | UnaryOperator::Minus | UnaryOperator::Invert => x,
        _ => 1,
    }
}

// An operator between two operands.
pub(crate) fn between(operator: BinaryOperator, x: Option<u32>, y: Option<u32>) -> Option<u32>
    ensures { result ≡ up_to_129 (both (width_between operator) x y) }
{
    match (x, y) {
        (Some(x), Some(y)) => bits(width_between(operator, x, y)),
        _ => None,
    }
}

fn width_between(operator: BinaryOperator, x: u32, y: u32) -> u32
    ensures { result ≡ width_between operator x y }
{
    match operator {
        BinaryOperator::Multiply
        | BinaryOperator::Add
        | BinaryOperator::Subtract
        | BinaryOperator::And
        | BinaryOperator::Xor
        | BinaryOperator::Xnor
        | BinaryOperator::Or => x.max(y),
        BinaryOperator::ShiftLeft | BinaryOperator::ShiftRight | BinaryOperator::ShiftRightSigned =>
            x,
        _ => 1,
    }
}
