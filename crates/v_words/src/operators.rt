ghost use Rattle.std.specs.Prelude.{◌≡◌, ◌≤◌, ◌<◌, ◌^◌, bit_and, bit_or, bit_xor};
ghost use Rattle.lz_base.specs.Bits.{is_negative};
ghost use Rattle.v_meaning.specs.Senses.{operation, operation_before, class_of, bit, parity};
ghost use Rattle.v_syntax.specs.declared.expr.BinaryOperator.TheVariants as operator;
ghost use Rattle.v_words.specs.Operands.{AreOperands};

use crate::arithmetic::{
    add, invert, multiply, shift_left, shift_right, shift_right_with_ones, subtract,
};
use crate::sign::{is_less, is_negative};
use lz_base::mask;
use v_syntax::{BinaryOperator, UnaryOperator};

/// What an operator between two operands makes of their values, at the width and sign that it works at (IEEE Std
/// 1364-2005, 5.1.5 to 5.1.10 and 5.1.12). A comparison or a logical operator answers 1 or 0. Both operands have that
/// width; a shift moves by any number, and a logical operator takes any values.
pub fn operate(operator: BinaryOperator, width: u32, signed: bool, left: u128, right: u128) -> u128
    requires has_bit { 1 ≤ width }
    requires within { width ≤ 128 }
    requires operands { AreOperands (class_of operator) width left right }
    ensures value { result ≡ operation operator width signed left right }
    ensures below { result < 2 ^ width }
{
    match operator {
        BinaryOperator::Multiply => multiply(width, left, right),
        BinaryOperator::Add => add(width, left, right),
        BinaryOperator::Subtract => subtract(width, left, right),
        BinaryOperator::ShiftLeft => shift_left(width, left, right),
        BinaryOperator::ShiftRight => shift_right(left, right),
        BinaryOperator::ShiftRightSigned => shift_right_signed(width, signed, left, right),
        BinaryOperator::Less => bit(width, is_less(width, signed, left, right)),
        BinaryOperator::LessEqual => bit(width, !is_less(width, signed, right, left)),
        BinaryOperator::Greater => bit(width, is_less(width, signed, right, left)),
        BinaryOperator::GreaterEqual => bit(width, !is_less(width, signed, left, right)),
        BinaryOperator::Equal => bit(width, left == right),
        BinaryOperator::NotEqual => bit(width, left != right),
        BinaryOperator::And => and(width, left, right),
        BinaryOperator::Xor => xor(width, left, right),
        BinaryOperator::Xnor => invert(width, xor(width, left, right)),
        BinaryOperator::Or => or(width, left, right),
        BinaryOperator::AndAlso => bit(width, left != 0 && right != 0),
        BinaryOperator::OrElse => bit(width, left != 0 || right != 0),
    }
}

/// What an operator before its operand makes of its value, at the operand's width (5.1.5, 5.1.9, 5.1.10 and 5.1.11). A
/// reduction or `!` answers 1 or 0.
pub fn operate_before(operator: UnaryOperator, width: u32, value: u128) -> u128
    requires has_bit { 1 ≤ width }
    requires within { width ≤ 128 }
    requires fits { value < 2 ^ width }
    ensures value { result ≡ operation_before operator width value }
    ensures below { result < 2 ^ width }
{
    match operator {
        UnaryOperator::Plus => value,
        UnaryOperator::Minus => subtract(width, 0, value),
        UnaryOperator::Invert => invert(width, value),
        UnaryOperator::Not => bit(width, value == 0),
        UnaryOperator::And => bit(width, value == mask(width)),
        UnaryOperator::Nand => bit(width, value != mask(width)),
        UnaryOperator::Or => bit(width, value != 0),
        UnaryOperator::Nor => bit(width, value == 0),
        UnaryOperator::Xor => bit(width, is_odd(width, value)),
        UnaryOperator::Xnor => bit(width, !is_odd(width, value)),
    }
}

// 1 where it holds, else 0, as a value of any width.
#[tactic(auto, using(crate::proofs::Powers::one_below))]
fn bit(width: u32, holds: bool) -> u128
    requires { 1 ≤ width }
    ensures value { result ≡ bit holds }
    ensures below { result < 2 ^ width }
{
    if holds { 1 } else { 0 }
}

// Whether an odd number of bits is 1.
#[tactic(auto, using(crate::proofs::Parity::parity_of_ones))]
fn is_odd(width: u32, value: u128) -> bool
    requires { value < 2 ^ width }
    ensures { result ≡ parity width value }
{
    value.count_ones() % 2 == 1
}

#[tactic(auto, using(crate::proofs::Powers::and_below))]
fn and(width: u32, left: u128, right: u128) -> u128
    requires { left < 2 ^ width }
    ensures value { result ≡ bit_and left right }
    ensures below { result < 2 ^ width }
{
    left & right
}

#[tactic(auto, using(std::proofs::lemmas::Nat::or_lt))]
fn or(width: u32, left: u128, right: u128) -> u128
    requires left_fits { left < 2 ^ width }
    requires right_fits { right < 2 ^ width }
    ensures value { result ≡ bit_or left right }
    ensures below { result < 2 ^ width }
{
    left | right
}

#[tactic(auto, using(std::proofs::lemmas::Nat::xor_lt))]
fn xor(width: u32, left: u128, right: u128) -> u128
    requires left_fits { left < 2 ^ width }
    requires right_fits { right < 2 ^ width }
    ensures value { result ≡ bit_xor left right }
    ensures below { result < 2 ^ width }
{
    left ^ right
}

// `>>>`: with copies of the top bit from above where it is signed, else with zeros (5.1.12).
fn shift_right_signed(width: u32, signed: bool, value: u128, by: u128) -> u128
    requires has_bit { 1 ≤ width }
    requires within { width ≤ 128 }
    requires fits { value < 2 ^ width }
    ensures value { result ≡ operation operator.ShiftRightSigned width signed value by }
    ensures below { result < 2 ^ width }
{
    if signed && is_negative(width, value) {
        shift_right_with_ones(width, value, by)
    } else {
        shift_right(value, by)
    }
}
