ghost use Rattle.std.specs.Prelude.{◌≡◌};
ghost use Rattle.g_rules.specs.Keeps.{KeepsValue};
ghost use Rattle.g_rules.specs.PlainRules.{and_constant_of, and_same_of, and_order_of, xor_constant_of, xor_same_of, xor_signs_of, xor_order_of};

use crate::literal::{differ, even, inverse, is_inverse};
use crate::{Rewrite, Shape};

/// An `and` with the constant 0 is 0, and one with the constant 1 is the other literal.
pub fn and_constant(shape: Shape) -> Rewrite
    ensures answer { result ≡ and_constant_of shape }
    ensures keeps { KeepsValue shape result }
{
    match shape {
        Shape::And(a, b) => {
            if a == 0 || b == 0 {
                Rewrite::Literal(0)
            } else if a == 1 {
                Rewrite::Literal(b)
            } else if b == 1 {
                Rewrite::Literal(a)
            } else {
                Rewrite::Keep
            }
        }
        Shape::Xor(_, _) => Rewrite::Keep,
    }
}

/// An `and` of equal literals is that literal, and one of a literal and its inverse is 0.
pub fn and_same(shape: Shape) -> Rewrite
    ensures answer { result ≡ and_same_of shape }
    ensures keeps { KeepsValue shape result }
{
    match shape {
        Shape::And(a, b) => {
            if a == b {
                Rewrite::Literal(a)
            } else if a == inverse(b) {
                Rewrite::Literal(0)
            } else {
                Rewrite::Keep
            }
        }
        Shape::Xor(_, _) => Rewrite::Keep,
    }
}

/// An `and` has its smaller literal first.
pub fn and_order(shape: Shape) -> Rewrite
    ensures answer { result ≡ and_order_of shape }
    ensures keeps { KeepsValue shape result }
{
    match shape {
        Shape::And(a, b) => {
            if b < a {
                Rewrite::And(b, a)
            } else {
                Rewrite::Keep
            }
        }
        Shape::Xor(_, _) => Rewrite::Keep,
    }
}

/// An `xor` with the constant 0 is the other literal, and one with the constant 1 the inverse of the other.
pub fn xor_constant(shape: Shape) -> Rewrite
    ensures answer { result ≡ xor_constant_of shape }
    ensures keeps { KeepsValue shape result }
{
    match shape {
        Shape::And(_, _) => Rewrite::Keep,
        Shape::Xor(a, b) => {
            if a == 0 {
                Rewrite::Literal(b)
            } else if b == 0 {
                Rewrite::Literal(a)
            } else if a == 1 {
                Rewrite::Literal(inverse(b))
            } else if b == 1 {
                Rewrite::Literal(inverse(a))
            } else {
                Rewrite::Keep
            }
        }
    }
}

/// An `xor` of equal literals is 0, and one of a literal and its inverse is 1.
pub fn xor_same(shape: Shape) -> Rewrite
    ensures answer { result ≡ xor_same_of shape }
    ensures keeps { KeepsValue shape result }
{
    match shape {
        Shape::And(_, _) => Rewrite::Keep,
        Shape::Xor(a, b) => {
            if a == b {
                Rewrite::Literal(0)
            } else if a == inverse(b) {
                Rewrite::Literal(1)
            } else {
                Rewrite::Keep
            }
        }
    }
}

/// An `xor` with an inverse is the `xor` of the nodes themselves, inverted where one of the two literals was an inverse.
pub fn xor_signs(shape: Shape) -> Rewrite
    ensures answer { result ≡ xor_signs_of shape }
    ensures keeps { KeepsValue shape result }
{
    match shape {
        Shape::And(_, _) => Rewrite::Keep,
        Shape::Xor(a, b) => {
            if is_inverse(a) || is_inverse(b) {
                Rewrite::Xor {
                    a: even(a),
                    b: even(b),
                    invert: differ(is_inverse(a), is_inverse(b)),
                }
            } else {
                Rewrite::Keep
            }
        }
    }
}

/// An `xor` has its smaller literal first.
pub fn xor_order(shape: Shape) -> Rewrite
    ensures answer { result ≡ xor_order_of shape }
    ensures keeps { KeepsValue shape result }
{
    match shape {
        Shape::And(_, _) => Rewrite::Keep,
        Shape::Xor(a, b) => {
            if b < a {
                Rewrite::Xor {
                    a: b,
                    b: a,
                    invert: false,
                }
            } else {
                Rewrite::Keep
            }
        }
    }
}
