ghost use Rattle.std.specs.Prelude.{◌≡◌};
ghost use Rattle.g_rules.specs.Keeps.{KeepsDeepValue};
ghost use Rattle.g_rules.specs.DeepRules.{or_else, absorbed, subsumed, cancelled, and_absorb_of, and_subsume_of, xor_cancel_of};

use crate::literal::{differ, inverse, inverted, is_inverse};
use crate::{Deep, Rewrite, Shape};
use lz_base::Num;

// The second where the first keeps the shape.
fn either(first: Rewrite, second: Rewrite) -> Rewrite
    ensures { result ≡ or_else first second }
{
    if first == Rewrite::Keep {
        second
    } else {
        first
    }
}

// An `and` of a and of b, where the node of b is this gate.
fn absorb(a: Num, b: Num, gate: Option<Shape>) -> Rewrite
    ensures { result ≡ absorbed a b gate }
{
    match gate {
        Some(Shape::And(x, y)) => {
            if is_inverse(b) {
                Rewrite::Keep
            } else if a == x || a == y {
                Rewrite::Literal(b)
            } else if a == inverse(x) || a == inverse(y) {
                Rewrite::Literal(0)
            } else {
                Rewrite::Keep
            }
        }
        Some(Shape::Xor(_, _)) => Rewrite::Keep,
        None => Rewrite::Keep,
    }
}

/// An `and` of a and of an `and` gate that has a is that gate, and one with a gate that has the inverse of a is 0.
pub fn and_absorb(deep: Deep) -> Rewrite
    ensures answer { result ≡ and_absorb_of deep }
    ensures keeps { KeepsDeepValue deep result }
{
    match deep.shape {
        Shape::And(a, b) => either(absorb(a, b, deep.right), absorb(b, a, deep.left)),
        Shape::Xor(_, _) => Rewrite::Keep,
    }
}

// An `and` of a and of b, where the node of b is this gate.
fn subsume(a: Num, b: Num, gate: Option<Shape>) -> Rewrite
    ensures { result ≡ subsumed a b gate }
{
    match gate {
        Some(Shape::And(x, y)) => {
            if !is_inverse(b) {
                Rewrite::Keep
            } else if a == inverse(x) || a == inverse(y) {
                Rewrite::Literal(a)
            } else if a == x {
                Rewrite::And(a, inverse(y))
            } else if a == y {
                Rewrite::And(a, inverse(x))
            } else {
                Rewrite::Keep
            }
        }
        Some(Shape::Xor(_, _)) => Rewrite::Keep,
        None => Rewrite::Keep,
    }
}

/// An `and` of a and of the inverse of an `and` gate that has the inverse of a is a, and one with the inverse of a gate
/// of a and another literal is the `and` of a and the inverse of that literal.
pub fn and_subsume(deep: Deep) -> Rewrite
    ensures answer { result ≡ and_subsume_of deep }
    ensures keeps { KeepsDeepValue deep result }
{
    match deep.shape {
        Shape::And(a, b) => either(subsume(a, b, deep.right), subsume(b, a, deep.left)),
        Shape::Xor(_, _) => Rewrite::Keep,
    }
}

// An `xor` of a and of b, where the node of b is this gate.
fn cancel(a: Num, b: Num, gate: Option<Shape>) -> Rewrite
    ensures { result ≡ cancelled a b gate }
{
    match gate {
        Some(Shape::Xor(x, y)) => {
            if a / 2 == x / 2 {
                Rewrite::Literal(inverted(y, differ(is_inverse(b), a != x)))
            } else if a / 2 == y / 2 {
                Rewrite::Literal(inverted(x, differ(is_inverse(b), a != y)))
            } else {
                Rewrite::Keep
            }
        }
        Some(Shape::And(_, _)) => Rewrite::Keep,
        None => Rewrite::Keep,
    }
}

/// An `xor` of a and of an `xor` gate that has the node of a is the gate's other literal, inverted where the signs say
/// so.
pub fn xor_cancel(deep: Deep) -> Rewrite
    ensures answer { result ≡ xor_cancel_of deep }
    ensures keeps { KeepsDeepValue deep result }
{
    match deep.shape {
        Shape::And(_, _) => Rewrite::Keep,
        Shape::Xor(a, b) => either(cancel(a, b, deep.right), cancel(b, a, deep.left)),
    }
}
