ghost use Rattle.std.specs.Prelude.{◌≡◌, ◌≤◌, ◌<◌, ◌^◌, ℕ, Bool, true};
ghost use Rattle.std.specs.List.{list_all};
ghost use Rattle.v_syntax.specs.declared.expr.BinaryOperator.{BinaryOperator};
ghost use Rattle.v_meaning.specs.Senses.{class_of, operation};
ghost use Rattle.v_constants.specs.declared.body.Body.{Body};
ghost use Rattle.v_constants.specs.Bodies.{chain_value, held, is_shifted};

use crate::body::Body;
use v_syntax::BinaryOperator;
use v_words::{extend, operate, operate_before};

/// The value at a final width and sign (IEEE Std 1364-2005, 5.5.2). Each node is visited once.
#[cycle(evaluating)]
pub fn evaluate(body: &Body, width: u32, signed: bool) -> u128
    requires has_bit { 1 ≤ width }
    requires within { width ≤ 128 }
    requires fits { (held body.now).fits width ≡ true }
    ensures value { result ≡ (held body.now).value width signed }
    ensures below { result < 2 ^ width }
{
    match body {
        Body::Leaf(from, value) => extend(*from, *value, width, signed),
        Body::Unary(operator, x) => {
            let x = evaluate(x.get(), width, signed);
            operate_before(*operator, width, x)
        }
        Body::Chain(x, links) => {
            let x = evaluate(x.get(), width, signed);
            chained(x, links.as_slice(), width, signed)
        }
        Body::Shifts(x, links) => {
            let x = evaluate(x.get(), width, signed);
            shifted(x, links.as_slice(), width, signed)
        }
    }
}

// Operators behind the first operand, from the left.
#[cycle(evaluating)]
fn chained(first: u128, links: &[(BinaryOperator, Body)], width: u32, signed: bool) -> u128
    requires has_bit { 1 ≤ width }
    requires within { width ≤ 128 }
    requires first { first < 2 ^ width }
    requires fits { list_all (λ (link : BinaryOperator × Body). (held link.1).fits width) links.now ≡ true }
    ensures value { result ≡ chain_value (λ (x : Body). (held x).value width signed) width signed first links.now }
    ensures below { result < 2 ^ width }
{
    let mut left = first;
    for (operator, x) in links {
        let right = evaluate(x, width, signed);
        left = linked(*operator, width, signed, left, right);
    }
    left
}

// Shifts of the first operand, from the left.
fn shifted(first: u128, links: &[(BinaryOperator, u128)], width: u32, signed: bool) -> u128
    requires has_bit { 1 ≤ width }
    requires within { width ≤ 128 }
    requires first { first < 2 ^ width }
    requires shifts { list_all (λ (link : BinaryOperator × ℕ). is_shifted (class_of link.0)) links.now ≡ true }
    ensures value { result ≡ chain_value (λ (n : ℕ). n) width signed first links.now }
    ensures below { result < 2 ^ width }
{
    let mut left = first;
    for (operator, by) in links {
        left = shift(*operator, width, signed, left, *by);
    }
    left
}

// An operator between two words of the width.
#[tactic(auto, using(crate::proofs::Operands::both_fit))]
fn linked(operator: BinaryOperator, width: u32, signed: bool, left: u128, right: u128) -> u128
    requires has_bit { 1 ≤ width }
    requires within { width ≤ 128 }
    requires left_fits { left < 2 ^ width }
    requires right_fits { right < 2 ^ width }
    ensures value { result ≡ operation operator width signed left right }
    ensures below { result < 2 ^ width }
{
    operate(operator, width, signed, left, right)
}

// A shift of a word of the width by any number.
#[tactic(auto, using(crate::proofs::Operands::shift_fits))]
fn shift(operator: BinaryOperator, width: u32, signed: bool, left: u128, by: u128) -> u128
    requires has_bit { 1 ≤ width }
    requires within { width ≤ 128 }
    requires shifts { is_shifted (class_of operator) ≡ true }
    requires fits { left < 2 ^ width }
    ensures value { result ≡ operation operator width signed left by }
    ensures below { result < 2 ^ width }
{
    operate(operator, width, signed, left, by)
}
