ghost use Rattle.std.specs.Prelude.{◌≡◌, ◌&&◌, true, IfOk};
ghost use Rattle.v_meaning.specs.Senses.{class_of, operation};
ghost use Rattle.v_constants.specs.Bodies.{held, is_shifted};

use crate::body::Body;
use lz_base::{Boxed, Items, OutOfMemory};
use std::alloc::Global;
use v_syntax::BinaryOperator;

// A chain of two operands.
fn one_link(alloc: Global, operator: BinaryOperator, x: Body, y: Body) -> Result<Body, OutOfMemory>
    ensures { IfOk result (λ b. held b ≡ record { value = λ w s. operation operator w s ((held x).value w s) ((held y).value w s); fits = λ w. (held x).fits w && (held y).fits w }) }
{
    let mut links = Items::new(alloc);
    links.push((operator, y))?;
    let first = Boxed::new(alloc, x)?;
    Ok(Body::Chain(first, links))
}

/// An operator whose operands take the final width and sign; behind a chain it goes on with that. `OutOfMemory` is the
/// only other answer, here and below.
pub fn linked(
    alloc: Global,
    operator: BinaryOperator,
    x: Body,
    y: Body,
) -> Result<Body, OutOfMemory>
    ensures { IfOk result (λ b. held b ≡ record { value = λ w s. operation operator w s ((held x).value w s) ((held y).value w s); fits = λ w. (held x).fits w && (held y).fits w }) }
{
    match x {
        Body::Chain(first, links) => {
            let mut links = links;
            links.push((operator, y))?;
            Ok(Body::Chain(first, links))
        }
        other => one_link(alloc, operator, other, y),
    }
}

// One shift.
fn one_shift(
    alloc: Global,
    operator: BinaryOperator,
    x: Body,
    by: u128,
) -> Result<Body, OutOfMemory>
    requires { is_shifted (class_of operator) ≡ true }
    ensures { IfOk result (λ b. held b ≡ record { value = λ w s. operation operator w s ((held x).value w s) by; fits = (held x).fits }) }
{
    let mut links = Items::new(alloc);
    links.push((operator, by))?;
    let first = Boxed::new(alloc, x)?;
    Ok(Body::Shifts(first, links))
}

/// A shift, whose left operand takes the final width and sign; behind shifts it goes on with them.
pub fn shifted(
    alloc: Global,
    operator: BinaryOperator,
    x: Body,
    by: u128,
) -> Result<Body, OutOfMemory>
    requires { is_shifted (class_of operator) ≡ true }
    ensures { IfOk result (λ b. held b ≡ record { value = λ w s. operation operator w s ((held x).value w s) by; fits = (held x).fits }) }
{
    match x {
        Body::Shifts(first, links) => {
            let mut links = links;
            links.push((operator, by))?;
            Ok(Body::Shifts(first, links))
        }
        other => one_shift(alloc, operator, other, by),
    }
}
