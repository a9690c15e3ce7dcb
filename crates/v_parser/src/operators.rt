ghost use Rattle.std.specs.Prelude.{◌≡◌, ◌≤◌};
ghost use Rattle.v_syntax.specs.Grammar.{unary_of, binary_of, rank_of};

use v_syntax::{BinaryOperator, Mark, UnaryOperator};

// The operator that a mark is before an operand.
pub(crate) fn unary_operator(mark: Mark) -> Option<UnaryOperator>
    ensures { result ≡ unary_of mark }
{
    match mark {
        Mark::Plus => Some(UnaryOperator::Plus),
        Mark::Minus => Some(UnaryOperator::Minus),
        Mark::Bang => Some(UnaryOperator::Not),
        Mark::Tilde => Some(UnaryOperator::Invert),
        Mark::Ampersand => Some(UnaryOperator::And),
        Mark::TildeAmpersand => Some(UnaryOperator::Nand),
        Mark::Bar => Some(UnaryOperator::Or),
        Mark::TildeBar => Some(UnaryOperator::Nor),
        Mark::Caret => Some(UnaryOperator::Xor),
        Mark::TildeCaret | Mark::CaretTilde => Some(UnaryOperator::Xnor),
        _ => None,
    }
}

// The operator that a mark is between two operands.
pub(crate) fn binary_operator(mark: Mark) -> Option<BinaryOperator>
    ensures { result ≡ binary_of mark }
{
    match mark {
        Mark::Star => Some(BinaryOperator::Multiply),
        Mark::Plus => Some(BinaryOperator::Add),
        Mark::Minus => Some(BinaryOperator::Subtract),
        Mark::ShiftLeft | Mark::ShiftLeftSigned => Some(BinaryOperator::ShiftLeft),
        Mark::ShiftRight => Some(BinaryOperator::ShiftRight),
        Mark::ShiftRightSigned => Some(BinaryOperator::ShiftRightSigned),
        Mark::Less => Some(BinaryOperator::Less),
        Mark::LessEqual => Some(BinaryOperator::LessEqual),
        Mark::Greater => Some(BinaryOperator::Greater),
        Mark::GreaterEqual => Some(BinaryOperator::GreaterEqual),
        Mark::EqualEqual => Some(BinaryOperator::Equal),
        Mark::BangEqual => Some(BinaryOperator::NotEqual),
        Mark::Ampersand => Some(BinaryOperator::And),
        Mark::Caret => Some(BinaryOperator::Xor),
        Mark::TildeCaret | Mark::CaretTilde => Some(BinaryOperator::Xnor),
        Mark::Bar => Some(BinaryOperator::Or),
        Mark::AndAnd => Some(BinaryOperator::AndAlso),
        Mark::OrOr => Some(BinaryOperator::OrElse),
        _ => None,
    }
}

// How loosely an operator binds.
pub(crate) fn rank(op: BinaryOperator) -> u32
    ensures { result ≡ rank_of op }
{
    match op {
        BinaryOperator::Multiply => 1,
        BinaryOperator::Add | BinaryOperator::Subtract => 2,
        BinaryOperator::ShiftLeft | BinaryOperator::ShiftRight | BinaryOperator::ShiftRightSigned =>
            3,
        BinaryOperator::Less
        | BinaryOperator::LessEqual
        | BinaryOperator::Greater
        | BinaryOperator::GreaterEqual => 4,
        BinaryOperator::Equal | BinaryOperator::NotEqual => 5,
        BinaryOperator::And => 6,
        BinaryOperator::Xor | BinaryOperator::Xnor => 7,
        BinaryOperator::Or => 8,
        BinaryOperator::AndAlso => 9,
        BinaryOperator::OrElse => 10,
    }
}
