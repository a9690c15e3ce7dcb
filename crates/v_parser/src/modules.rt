ghost use Rattle.std.specs.Prelude.{◌≡◌, ◌≤◌, ◌<◌, [], ◌∷◌, Ok, Err, IfOk, length, true};
ghost use Rattle.v_parser.specs.Reading.{repeated, among};
ghost use Rattle.v_parser.specs.Exprs.{identifiers};
ghost use Rattle.v_parser.specs.Modules.{parameter_groups_at, port_groups_at, parameters_at, port_list_at, ports_at, item_at, not_endmodule, enclosed_items_at, body_at, module_at, parameter_group_at, port_group_at, parameter_words, port_words};
ghost use Rattle.v_parser.specs.Gives.{Gives};

use crate::groups::{parameter_group, port_group};
use crate::items::item;
use crate::miss::{Miss, Read};
use crate::tokens::{
    before, before_word, beside, ident, mark, next_is, next_is_not, next_is_port_word, next_word,
    with_next, word,
};
use lz_base::Items;
use std::alloc::Global;
use v_syntax::{Ident, Item, Keyword, Mark, Module, ParameterGroup, PortGroup, Token};

#[tactic(auto, unfolding(crate::specs::Modules::parameter_groups_at), using(crate::proofs::Loop::repeated_stop, crate::proofs::Loop::repeated_step, crate::proofs::Loop::repeated_err_in))]
fn more_parameter_groups<'t>(
    alloc: Global,
    tokens: &'t [Token],
    first: ParameterGroup,
) -> Read<'t, Items<ParameterGroup>>
    ensures gives { Gives (λ x. (x.0, x.1.now)) result (repeated (λ x. among x parameter_words) parameter_group_at (first ∷ []) tokens.now) }
    ensures shorter { IfOk result (λ x. length x.1.now ≤ length tokens.now) }
{
    let mut groups = Items::new(alloc);
    groups.push(first)?;
    let mut left = tokens;
    while next_word(left, Keyword::Parameter) {
        let (more, after) = with_next(groups, parameter_group(alloc, left))?;
        groups = more;
        left = after;
    }
    Ok((groups, left))
}

#[tactic(auto, unfolding(crate::specs::Modules::parameter_groups_at))]
fn parameter_groups<'t>(alloc: Global, tokens: &'t [Token]) -> Read<'t, Items<ParameterGroup>>
    ensures gives { Gives (λ x. (x.0, x.1.now)) result (parameter_groups_at tokens.now) }
    ensures shorter { IfOk result (λ x. length x.1.now < length tokens.now) }
{
    let (first, rest) = parameter_group(alloc, tokens)?;
    more_parameter_groups(alloc, rest, first)
}

#[tactic(auto, unfolding(crate::specs::Modules::parameters_at))]
fn parameters<'t>(alloc: Global, tokens: &'t [Token]) -> Read<'t, Items<ParameterGroup>>
    ensures gives { Gives (λ x. (x.0, x.1.now)) result (parameters_at tokens.now) }
    ensures shorter { IfOk result (λ x. length x.1.now ≤ length tokens.now) }
{
    if !next_is(tokens, Mark::Hash) {
        return Ok((Items::new(alloc), tokens));
    }
    let (_, rest) = mark(tokens, Mark::Hash)?;
    let (_, rest) = mark(rest, Mark::OpenParen)?;
    let (groups, rest) = parameter_groups(alloc, rest)?;
    before(groups, rest, Mark::CloseParen)
}

#[tactic(auto, using(crate::proofs::Loop::repeated_stop, crate::proofs::Loop::repeated_step, crate::proofs::Loop::repeated_err_in))]
fn more_port_groups<'t>(
    alloc: Global,
    tokens: &'t [Token],
    first: PortGroup,
) -> Read<'t, Items<PortGroup>>
    ensures gives { Gives (λ x. (x.0, x.1.now)) result (repeated (λ x. among x port_words) port_group_at (first ∷ []) tokens.now) }
    ensures shorter { IfOk result (λ x. length x.1.now ≤ length tokens.now) }
{
    let mut groups = Items::new(alloc);
    groups.push(first)?;
    let mut left = tokens;
    while next_is_port_word(left) {
        let (more, after) = with_next(groups, port_group(alloc, left))?;
        groups = more;
        left = after;
    }
    Ok((groups, left))
}

#[tactic(auto, unfolding(crate::specs::Modules::port_groups_at))]
fn port_groups<'t>(alloc: Global, tokens: &'t [Token]) -> Read<'t, Items<PortGroup>>
    ensures gives { Gives (λ x. (x.0, x.1.now)) result (port_groups_at tokens.now) }
    ensures shorter { IfOk result (λ x. length x.1.now < length tokens.now) }
{
    let (first, rest) = port_group(alloc, tokens)?;
    more_port_groups(alloc, rest, first)
}

// What stands behind the opening parenthesis.
#[tactic(auto, unfolding(crate::specs::Modules::port_list_at))]
fn port_list<'t>(alloc: Global, tokens: &'t [Token]) -> Read<'t, Items<PortGroup>>
    ensures gives { Gives (λ x. (x.0, x.1.now)) result (port_list_at tokens.now) }
    ensures shorter { IfOk result (λ x. length x.1.now < length tokens.now) }
{
    if next_is(tokens, Mark::CloseParen) {
        let (_, rest) = mark(tokens, Mark::CloseParen)?;
        return Ok((Items::new(alloc), rest));
    }
    let (groups, rest) = port_groups(alloc, tokens)?;
    before(groups, rest, Mark::CloseParen)
}

#[tactic(auto, unfolding(crate::specs::Modules::ports_at))]
fn ports<'t>(alloc: Global, tokens: &'t [Token]) -> Read<'t, Items<PortGroup>>
    ensures gives { Gives (λ x. (x.0, x.1.now)) result (ports_at tokens.now) }
    ensures shorter { IfOk result (λ x. length x.1.now ≤ length tokens.now) }
{
    if !next_is(tokens, Mark::OpenParen) {
        return Ok((Items::new(alloc), tokens));
    }
    let (_, rest) = mark(tokens, Mark::OpenParen)?;
    port_list(alloc, rest)
}

#[tactic(auto, using(crate::proofs::Loop::repeated_stop, crate::proofs::Loop::repeated_step, crate::proofs::Loop::repeated_err_in))]
fn items<'t>(alloc: Global, tokens: &'t [Token]) -> Read<'t, Items<Item>>
    ensures gives { Gives (λ x. (x.0, x.1.now)) result (repeated not_endmodule item_at [] tokens.now) }
    ensures shorter { IfOk result (λ x. length x.1.now ≤ length tokens.now) }
{
    let mut items = Items::new(alloc);
    let mut left = tokens;
    while next_is_not(left, Keyword::Endmodule) {
        let (more, after) = with_next(items, item(alloc, left))?;
        items = more;
        left = after;
    }
    Ok((items, left))
}

// The parts of a module before its items.
#[derive(Drop)]
struct Head {
    name: Ident,
    parameters: Items<ParameterGroup>,
    ports: Items<PortGroup>,
}

// The items, from the semicolon to the end.
#[tactic(auto, unfolding(crate::specs::Modules::enclosed_items_at))]
fn enclosed_items<'t>(alloc: Global, tokens: &'t [Token]) -> Read<'t, Items<Item>>
    ensures gives { Gives (λ x. (x.0, x.1.now)) result (enclosed_items_at tokens.now) }
    ensures shorter { IfOk result (λ x. length x.1.now < length tokens.now) }
{
    let (_, rest) = mark(tokens, Mark::Semicolon)?;
    let (items, rest) = items(alloc, rest)?;
    before_word(items, rest, Keyword::Endmodule)
}

// What stands behind the head.
#[tactic(auto, unfolding(crate::specs::Modules::body_at))]
fn body<'t>(alloc: Global, tokens: &'t [Token], head: Head) -> Read<'t, Module>
    ensures gives { Gives (λ x. (x.0, x.1.now)) result (body_at head.name head.parameters head.ports tokens.now) }
{
    let (head, (items, rest)) = beside(head, enclosed_items(alloc, tokens))?;
    let Head {
        name,
        parameters,
        ports,
    } = head;
    Ok((
        Module {
            name,
            parameters,
            ports,
            items,
        },
        rest,
    ))
}

#[tactic(auto, unfolding(crate::specs::Modules::module_at))]
pub(crate) fn module<'t>(alloc: Global, tokens: &'t [Token]) -> Read<'t, Module>
    ensures gives { Gives (λ x. (x.0, x.1.now)) result (module_at tokens.now) }
{
    let (_, rest) = word(tokens, Keyword::Module)?;
    let (name, rest) = ident(alloc, rest)?;
    let (parameters, rest) = parameters(alloc, rest)?;
    let (parameters, (ports, rest)) = beside(parameters, ports(alloc, rest))?;
    body(
        alloc,
        rest,
        Head {
            name,
            parameters,
            ports,
        },
    )
}
