ghost use Rattle.std.specs.Prelude.{◌≡◌, IfOk};
ghost use Rattle.v_core.specs.Values.{typed_value, link_values};
ghost use Rattle.v_core.specs.Bodies.{body_value, fixed_links, link_bodies};
ghost use Rattle.v_core.specs.Formed.{formed, link_forms};
ghost use Rattle.v_core.specs.Sited.{are_sited_bodies, are_sited_links, is_sited, is_sited_body};
ghost use Rattle.v_core.specs.OpenForms.{body_form, body_forms, fixed_forms};

use crate::making::{chained, chosen, extended, prefixed};
use crate::{Body, Link, Typed};
use lz_base::{Items, OutOfMemory};
use std::alloc::Global;
use v_syntax::BinaryOperator;

/// The expression at its final width and sign (IEEE Std 1364-2005, 5.5.2). Each node is visited once. `OutOfMemory` is
/// the only other answer.
#[cycle(fixing)]
pub fn fix(alloc: Global, body: Body, width: u32, signed: bool) -> Result<Typed, OutOfMemory>
    ensures value { IfOk result (λ t. typed_value t ≡ body_value body width signed) }
    ensures form { IfOk result (λ t. formed t ≡ body_form body width signed) }
    ensures sited { IfOk result (λ t. is_sited t ≡ is_sited_body body) }
{
    match body {
        Body::Leaf(from, x) => extended(alloc, x, from, width, signed),
        Body::Own(x) => Ok(x),
        Body::Unary(operator, x) => {
            let x = fix(alloc, x.into_inner(), width, signed)?;
            prefixed(alloc, operator, width, x)
        }
        Body::Chain(x, links) => {
            let x = fix(alloc, x.into_inner(), width, signed)?;
            let links = fix_links(alloc, links, width, signed)?;
            chained(alloc, x, links)
        }
        Body::Choice(condition, x, y) => {
            let x = fix(alloc, x.into_inner(), width, signed)?;
            let y = fix(alloc, y.into_inner(), width, signed)?;
            chosen(alloc, width, condition, x, y)
        }
    }
}

// The operands of a chain at the final width and sign, the last one first.
#[cycle(fixing)]
fn fix_links(
    alloc: Global,
    links: Items<(BinaryOperator, Body)>,
    width: u32,
    signed: bool,
) -> Result<Items<(Link, Typed)>, OutOfMemory>
    ensures value { IfOk result (λ fixed. link_values fixed ≡ fixed_links (link_bodies links) width signed) }
    ensures form { IfOk result (λ fixed. link_forms fixed ≡ fixed_forms (body_forms links) width signed) }
    ensures sited { IfOk result (λ fixed. are_sited_links fixed ≡ are_sited_bodies links) }
{
    let mut left = links;
    let mut fixed = Vec::new(alloc);
    while let Some((operator, body)) = left.pop() {
        let x = fix(alloc, body, width, signed)?;
        let link = Link {
            operator,
            width,
            signed,
        };
        fixed.push((link, x))?;
    }
    fixed.reverse();
    Ok(Items::from_vec(fixed))
}
