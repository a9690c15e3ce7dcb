ghost use Rattle.std.specs.Prelude.{◌≡◌};
ghost use Rattle.v_meaning.specs.Senses.{class_of, is_through, is_signed};
ghost use Rattle.v_constants.specs.Classes.{class_in};

use v_syntax::{BinaryOperator, Cast, UnaryOperator};

/// Where the width and sign of an operator's operands come from (IEEE Std 1364-2005, 5.4.1, table 5-22).
#[derive(Clone, Copy, Debug, PartialEq, Eq)]
pub enum Class {
    /// Both take the final width and sign.
    Shared,
    /// Both share the greater of their widths, and are signed where both are.
    Compared,
    /// The left one takes the final width and sign, and the right one determines itself.
    Shifted,
    /// Both determine themselves.
    Logical,
}

/// The class of an operator.
pub fn class_of(operator: BinaryOperator) -> Class
    ensures { class_in result ≡ class_of operator }
{
    match operator {
        BinaryOperator::Multiply => Class::Shared,
        BinaryOperator::Add => Class::Shared,
        BinaryOperator::Subtract => Class::Shared,
        BinaryOperator::ShiftLeft => Class::Shifted,
        BinaryOperator::ShiftRight => Class::Shifted,
        BinaryOperator::ShiftRightSigned => Class::Shifted,
        BinaryOperator::Less => Class::Compared,
        BinaryOperator::LessEqual => Class::Compared,
        BinaryOperator::Greater => Class::Compared,
        BinaryOperator::GreaterEqual => Class::Compared,
        BinaryOperator::Equal => Class::Compared,
        BinaryOperator::NotEqual => Class::Compared,
        BinaryOperator::And => Class::Shared,
        BinaryOperator::Xor => Class::Shared,
        BinaryOperator::Xnor => Class::Shared,
        BinaryOperator::Or => Class::Shared,
        BinaryOperator::AndAlso => Class::Logical,
        BinaryOperator::OrElse => Class::Logical,
    }
}

/// Whether the operand takes the final width and sign.
pub fn is_through(operator: UnaryOperator) -> bool
    ensures { result ≡ is_through operator }
{
    matches!(
        operator,
        UnaryOperator::Plus | UnaryOperator::Minus | UnaryOperator::Invert
    )
}

/// Whether a cast is to a signed word.
pub fn is_signed(cast: Cast) -> bool
    ensures { result ≡ is_signed cast }
{
    match cast {
        Cast::Signed => true,
        Cast::Unsigned => false,
    }
}
