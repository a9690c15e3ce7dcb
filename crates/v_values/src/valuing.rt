ghost use Rattle.std.specs.Prelude.{◌≡◌, ◌<◌, ◌≤◌, ◌^◌, ℕ, true};
ghost use Rattle.std.specs.List.{list_all};
ghost use Rattle.v_meaning.specs.Senses.{class_of, operation};
ghost use Rattle.v_meaning.specs.declared.names.Entry.{Entry};
ghost use Rattle.v_core.specs.declared.typed.Link.{Link};
ghost use Rattle.v_core.specs.declared.typed.Typed.{Typed};
ghost use Rattle.v_meaning.specs.Names.{word_of};
ghost use Rattle.v_core.specs.Values.{entry_at, typed_value, chain_value, concat_value, link_values, part_values};
ghost use Rattle.v_core.specs.Formed.{Formed, formed, formed_chain, formed_parts, is_width, linked_by, link_forms, part_forms};
ghost use Rattle.v_values.specs.Chains.{Begins, Meets, working_width};
ghost use Rattle.v_values.specs.Moments.{fit};
ghost use Rattle.v_core.specs.Sited.{is_sited};

use crate::moment::Moment;
use crate::reading::{index_in, look_up, selected};
use v_core::{Link, Typed};
use v_meaning::Entry;
use v_numbers::value_with;
use v_syntax::BinaryOperator;
use v_words::{beside, copies, extend, operate, operate_before, part};

/// The value of an expression at a moment (IEEE Std 1364-2005, 5). It and its operands keep to their widths, and its sites
/// and the names have as many bits as their words. It takes no memory; each node is visited once at most.
#[cycle(valuing)]
pub fn value(x: &Typed, names: &[Entry], now: &Moment) -> u128
    requires kept { (formed x.now names.now).kept ≡ true }
    requires sited { is_sited x.now names.now now.now.shape.sites ≡ true }
    requires fits { fit now.now.shape names.now ≡ true }
    ensures value { result ≡ typed_value x.now names.now now.now.view }
    ensures within { result < 2 ^ (formed x.now names.now).width }
    ensures word { is_width (formed x.now names.now).width ≡ true }
{
    match x {
        Typed::Constant(_, value) => *value,
        Typed::Number(literal, site) => value_with(literal, now.site(*site)),
        Typed::Name { name, .. } => named(names, *name, now),
        Typed::Select {
            name,
            site,
            width,
            signed,
            index,
            ..
        } => {
            let index = value(index.get(), names, now);
            let index = index_in(*width, *signed, index);
            selected(look_up(names, *name), index, now.site(*site), now)
        }
        Typed::Part {
            name,
            low,
            width,
            ..
        } => part(named(names, *name, now), *low, *width),
        Typed::Extend {
            from,
            to,
            signed,
            operand,
        } => {
            let x = value(operand.get(), names, now);
            extend(*from, x, *to, *signed)
        }
        Typed::Unary(operator, width, x) => {
            let x = value(x.get(), names, now);
            operate_before(*operator, *width, x)
        }
        Typed::Chain(x, links) => {
            let first = value(x.get(), names, now);
            chained(first, links.as_slice(), names, now)
        }
        Typed::Choice {
            condition,
            then,
            otherwise,
            ..
        } => {
            if value(condition.get(), names, now) == 0 {
                value(otherwise.get(), names, now)
            } else {
                value(then.get(), names, now)
            }
        }
        Typed::Concat(parts) => joined(parts.as_slice(), names, now),
        Typed::Copies {
            count,
            width,
            operand,
        } => {
            let x = value(operand.get(), names, now);
            copies(*count, *width, x)
        }
    }
}

/// The word of the declared name of a number; 0 where there are not so many. It takes no memory.
pub fn named(names: &[Entry], name: u32, now: &Moment) -> u128
    requires fits { fit now.now.shape names.now ≡ true }
    ensures value { result ≡ word_of (entry_at names.now name).kind now.now.view }
    ensures below { result < 2 ^ (entry_at names.now name).width }
{
    let known = look_up(names, name);
    now.word(known.kind, known.width)
}

// Operators behind a first operand, from the left (5.1.2).
#[cycle(valuing)]
fn chained(first: u128, links: &[(Link, Typed)], names: &[Entry], now: &Moment) -> u128
    requires kept { (form : Formed) × Begins form first links.now names.now }
    requires sited { list_all (λ (l : Link × Typed). is_sited l.1 names.now now.now.shape.sites) links.now ≡ true }
    requires fits { fit now.now.shape names.now ≡ true }
    ensures value { result ≡ chain_value first (link_values links.now) names.now now.now.view }
    ensures within { (form : Formed) → Begins form first links.now names.now → result < 2 ^ (formed_chain form (link_forms links.now) names.now).width }
    ensures word { (form : Formed) → Begins form first links.now names.now → is_width (formed_chain form (link_forms links.now) names.now).width ≡ true }
{
    let mut left = first;
    for (link, y) in links {
        let right = value(y, names, now);
        left = linked(*link, left, right);
    }
    left
}

// The width that an operator works at; a logical one takes operands of any width.
fn working_width(link: Link) -> u32
    ensures { result ≡ working_width (class_of link.operator) link.width }
{
    match link.operator {
        BinaryOperator::AndAlso | BinaryOperator::OrElse => 1,
        _ => link.width,
    }
}

// An operator between what stands before it and its right operand.
fn linked(link: Link, left: u128, right: u128) -> u128
    requires kept { (x : Formed) × (y : Formed) × Meets x y link left right }
    ensures value { result ≡ operation link.operator link.width link.signed left right }
    ensures below { (x y : Formed) → result < 2 ^ (linked_by (class_of link.operator) link x y).width }
{
    operate(link.operator, working_width(link), link.signed, left, right)
}

// Operands side by side, of which the first is the most significant (5.1.14).
#[cycle(valuing)]
fn joined(parts: &[(u32, Typed)], names: &[Entry], now: &Moment) -> u128
    requires kept { (formed_parts (part_forms parts.now) names.now).kept ≡ true }
    requires narrow { (formed_parts (part_forms parts.now) names.now).width ≤ 128 }
    requires sited { list_all (λ (p : ℕ × Typed). is_sited p.1 names.now now.now.shape.sites) parts.now ≡ true }
    requires fits { fit now.now.shape names.now ≡ true }
    ensures value { result ≡ concat_value 0 (part_values parts.now) names.now now.now.view }
    ensures below { result < 2 ^ (formed_parts (part_forms parts.now) names.now).width }
{
    let mut width = 0u32;
    let mut all = 0u128;
    for (bits, x) in parts {
        let one = value(x, names, now);
        all = beside(width, all, *bits, one);
        width += *bits;
    }
    all
}
