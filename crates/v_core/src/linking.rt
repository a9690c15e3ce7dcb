ghost use Rattle.std.specs.Prelude.{◌≡◌, ◌&&◌, IfOk, List, true};
ghost use Rattle.v_meaning.specs.Senses.{operation};
ghost use Rattle.v_core.specs.Values.{typed_value};
ghost use Rattle.v_core.specs.Bodies.{body_value};
ghost use Rattle.v_meaning.specs.declared.names.Entry.{Entry};
ghost use Rattle.v_core.specs.Formed.{formed, has, has_at_most};
ghost use Rattle.v_core.specs.Sited.{is_sited, is_sited_body};
ghost use Rattle.v_core.specs.OpenForms.{body_form, linked_form};

use crate::{Body, Typed, fix};
use lz_base::{Boxed, Items, OutOfMemory};
use std::alloc::Global;
use v_syntax::BinaryOperator;

/// As `fix`, for what stands before an operator: an unsigned chain that is no wider needs no extension there, so that a
/// chain goes on with it. `OutOfMemory` is the only other answer.
pub fn fix_before(alloc: Global, body: Body, width: u32, signed: bool) -> Result<Typed, OutOfMemory>
    ensures value { IfOk result (λ t. typed_value t ≡ body_value body width signed) }
    ensures form { IfOk result (λ t. (names : List Entry) → has width (body_form body width signed names) ≡ true → has_at_most width (formed t names) ≡ true) }
    ensures sited { IfOk result (λ t. is_sited t ≡ is_sited_body body) }
{
    if signed {
        return fix(alloc, body, width, signed);
    }
    match body {
        Body::Leaf(from, Typed::Chain(first, links)) => Ok(Typed::Chain(first, links)),
        other => fix(alloc, other, width, signed),
    }
}

// A chain of two operands.
fn one_body(alloc: Global, operator: BinaryOperator, x: Body, y: Body) -> Result<Body, OutOfMemory>
    ensures value { IfOk result (λ b. body_value b ≡ (λ w s names v. operation operator w s (body_value x w s names v) (body_value y w s names v))) }
    ensures form { IfOk result (λ b. body_form b ≡ (λ w s names. linked_form (record { operator = operator; width = w; signed = s }) (body_form x w s names) (body_form y w s names))) }
    ensures sited { IfOk result (λ b. is_sited_body b ≡ (λ names sites. is_sited_body x names sites && is_sited_body y names sites)) }
{
    let mut links = Items::new(alloc);
    links.push((operator, y))?;
    let first = Boxed::new(alloc, x)?;
    Ok(Body::Chain(first, links))
}

/// An operator whose operands take the final width and sign; behind a chain it goes on with that. `OutOfMemory` is the
/// only other answer.
pub fn body_linked(
    alloc: Global,
    operator: BinaryOperator,
    x: Body,
    y: Body,
) -> Result<Body, OutOfMemory>
    ensures value { IfOk result (λ b. body_value b ≡ (λ w s names v. operation operator w s (body_value x w s names v) (body_value y w s names v))) }
    ensures form { IfOk result (λ b. body_form b ≡ (λ w s names. linked_form (record { operator = operator; width = w; signed = s }) (body_form x w s names) (body_form y w s names))) }
    ensures sited { IfOk result (λ b. is_sited_body b ≡ (λ names sites. is_sited_body x names sites && is_sited_body y names sites)) }
{
    match x {
        Body::Chain(first, links) => {
            let mut links = links;
            links.push((operator, y))?;
            Ok(Body::Chain(first, links))
        }
        other => one_body(alloc, operator, other, y),
    }
}
