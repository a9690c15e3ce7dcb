ghost use Rattle.std.specs.Prelude.{◌≡◌, ◌&&◌, ◌*◌, ◌==◌, if◌then◌else◌, IfOk, List, [], ◌∷◌, ◌++◌};
ghost use Rattle.v_meaning.specs.Senses.{extended, operation, operation_before, copies};
ghost use Rattle.v_core.specs.Values.{typed_value, chain_value, link_values, concat_value, part_values};
ghost use Rattle.v_core.specs.Formed.{formed, formed_chain, formed_parts, has, link_forms, part_forms, within_words};
ghost use Rattle.v_core.specs.Sited.{are_sited_links, are_sited_parts, is_sited};
ghost use Rattle.v_core.specs.OpenForms.{chosen_form, extended_form, linked_form, prefixed_form};

use crate::{Link, Typed};
use lz_base::{Boxed, Items, OutOfMemory};
use std::alloc::Global;
use v_syntax::{BinaryOperator, UnaryOperator};

/// An expression at a width and sign that it is extended to (IEEE Std 1364-2005, 5.5.2). `OutOfMemory` is the only other
/// answer, here and of all makers.
pub fn extended(
    alloc: Global,
    x: Typed,
    from: u32,
    to: u32,
    signed: bool,
) -> Result<Typed, OutOfMemory>
    ensures value { IfOk result (λ t. typed_value t ≡ (λ names v. extended from (typed_value x names v) to signed)) }
    ensures form { IfOk result (λ t. formed t ≡ (λ names. extended_form from (formed x names) to)) }
    ensures sited { IfOk result (λ t. is_sited t ≡ is_sited x) }
{
    if to <= from {
        return Ok(x);
    }
    Ok(Typed::Extend {
        from,
        to,
        signed,
        operand: Boxed::new(alloc, x)?,
    })
}

/// An operator before an operand of this width.
pub fn prefixed(
    alloc: Global,
    operator: UnaryOperator,
    width: u32,
    x: Typed,
) -> Result<Typed, OutOfMemory>
    ensures value { IfOk result (λ t. typed_value t ≡ (λ names v. operation_before operator width (typed_value x names v))) }
    ensures form { IfOk result (λ t. formed t ≡ (λ names. prefixed_form operator width (formed x names))) }
    ensures sited { IfOk result (λ t. is_sited t ≡ is_sited x) }
{
    Ok(Typed::Unary(operator, width, Boxed::new(alloc, x)?))
}

/// `condition ? x : y`, of operands of this width.
pub fn chosen(
    alloc: Global,
    width: u32,
    condition: Typed,
    x: Typed,
    y: Typed,
) -> Result<Typed, OutOfMemory>
    ensures value { IfOk result (λ t. typed_value t ≡ (λ names v. if typed_value condition names v == 0 then typed_value y names v else typed_value x names v)) }
    ensures form { IfOk result (λ t. formed t ≡ (λ names. chosen_form width (formed condition names) (formed x names) (formed y names))) }
    ensures sited { IfOk result (λ t. is_sited t ≡ (λ names sites. is_sited condition names sites && is_sited x names sites && is_sited y names sites)) }
{
    Ok(Typed::Choice {
        width,
        condition: Boxed::new(alloc, condition)?,
        then: Boxed::new(alloc, x)?,
        otherwise: Boxed::new(alloc, y)?,
    })
}

/// The operands behind the first one, each behind its operator, from the left.
#[tactic(auto, using(crate::proofs::TypedLaws::typed_chain, crate::proofs::FormLaws::form_chain, crate::proofs::SitedLaws::sited_chain))]
pub fn chained(alloc: Global, x: Typed, links: Items<(Link, Typed)>) -> Result<Typed, OutOfMemory>
    ensures value { IfOk result (λ t. typed_value t ≡ (λ names v. chain_value (typed_value x names v) (link_values links) names v)) }
    ensures form { IfOk result (λ t. formed t ≡ (λ names. formed_chain (formed x names) (link_forms links) names)) }
    ensures sited { IfOk result (λ t. is_sited t ≡ (λ names sites. is_sited x names sites && are_sited_links links names sites)) }
{
    Ok(Typed::Chain(Boxed::new(alloc, x)?, links))
}

// A chain of two operands.
fn one_link(alloc: Global, x: Typed, link: Link, y: Typed) -> Result<Typed, OutOfMemory>
    ensures value { IfOk result (λ t. typed_value t ≡ (λ names v. operation link.operator link.width link.signed (typed_value x names v) (typed_value y names v))) }
    ensures form { IfOk result (λ t. formed t ≡ (λ names. linked_form link (formed x names) (formed y names))) }
    ensures sited { IfOk result (λ t. is_sited t ≡ (λ names sites. is_sited x names sites && is_sited y names sites)) }
{
    let mut links = Items::new(alloc);
    links.push((link, y))?;
    let chain = chained(alloc, x, links)?;
    Ok(chain)
}

/// One more operator and operand behind an expression; behind a chain it goes on with that.
pub fn linked(alloc: Global, x: Typed, link: Link, y: Typed) -> Result<Typed, OutOfMemory>
    ensures value { IfOk result (λ t. typed_value t ≡ (λ names v. operation link.operator link.width link.signed (typed_value x names v) (typed_value y names v))) }
    ensures form { IfOk result (λ t. formed t ≡ (λ names. linked_form link (formed x names) (formed y names))) }
    ensures sited { IfOk result (λ t. is_sited t ≡ (λ names sites. is_sited x names sites && is_sited y names sites)) }
{
    match x {
        Typed::Chain(first, links) => {
            let mut links = links;
            links.push((link, y))?;
            Ok(Typed::Chain(first, links))
        }
        other => one_link(alloc, other, link, y),
    }
}

/// Operands side by side, each with its width; the first is the most significant.
#[tactic(auto, using(crate::proofs::TypedLaws::typed_concat, crate::proofs::FormLaws::form_concat, crate::proofs::SitedLaws::sited_concat))]
pub fn side_by_side(parts: Items<(u32, Typed)>) -> Typed
    ensures value { typed_value result ≡ concat_value 0 (part_values parts) }
    ensures form { formed result ≡ (λ names. within_words (formed_parts (part_forms parts) names)) }
    ensures sited { is_sited result ≡ are_sited_parts parts }
{
    Typed::Concat(parts)
}

/// So many copies of an operand of this width side by side.
pub fn copied(alloc: Global, count: u32, width: u32, x: Typed) -> Result<Typed, OutOfMemory>
    ensures value { IfOk result (λ t. typed_value t ≡ (λ names v. copies count width (typed_value x names v))) }
    ensures form { IfOk result (λ t. formed t ≡ (λ names. within_words (record { width = count * width; kept = has width (formed x names) }))) }
    ensures sited { IfOk result (λ t. is_sited t ≡ is_sited x) }
{
    Ok(Typed::Copies {
        count,
        width,
        operand: Boxed::new(alloc, x)?,
    })
}
