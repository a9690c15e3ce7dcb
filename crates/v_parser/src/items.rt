ghost use Rattle.std.specs.Prelude.{◌≡◌, ◌≤◌, ◌<◌, [], ◌∷◌, Ok, Err, IfOk, length};
ghost use Rattle.v_parser.specs.Modules.{settings_at, parameter_item_at, local_parameter_item_at, wire_item_at, reg_item_at, assign_item_at, any_event_at, posedge_at, inner_event_at, event_group_at, event_at, always_item_at, item_at};
ghost use Rattle.v_parser.specs.Gives.{Gives};

use crate::declarations::{flag, range_option};
use crate::lists::listed;
use crate::miss::{Miss, Read};
use crate::stmts::stmt;
use crate::tokens::{before, beside, ident, mark, next_is, next_word, word};
use std::alloc::Global;
use v_syntax::{
    Declared, Event, INNER_LEVELS, Item, Keyword, Mark, ParameterGroup, Setting, Token, Variable,
};

#[tactic(auto, unfolding(crate::specs::Modules::settings_at))]
fn settings<'t>(alloc: Global, tokens: &'t [Token]) -> Read<'t, ParameterGroup>
    ensures gives { Gives (λ x. (x.0, x.1.now)) result (settings_at tokens.now) }
    ensures shorter { IfOk result (λ x. length x.1.now < length tokens.now) }
{
    let (signed, rest) = flag(tokens, Keyword::Signed)?;
    let (range, rest) = range_option(alloc, rest)?;
    let (range, (settings, rest)) = beside(range, listed::<Setting>(alloc, rest))?;
    Ok((
        ParameterGroup {
            signed,
            range,
            settings,
        },
        rest,
    ))
}

#[tactic(auto, unfolding(crate::specs::Modules::parameter_item_at))]
fn parameter_item<'t>(alloc: Global, tokens: &'t [Token]) -> Read<'t, Item>
    ensures gives { Gives (λ x. (x.0, x.1.now)) result (parameter_item_at tokens.now) }
    ensures shorter { IfOk result (λ x. length x.1.now < length tokens.now) }
{
    let (_, rest) = word(tokens, Keyword::Parameter)?;
    let (group, rest) = settings(alloc, rest)?;
    before(Item::Parameters(group), rest, Mark::Semicolon)
}

#[tactic(auto, unfolding(crate::specs::Modules::local_parameter_item_at))]
fn local_parameter_item<'t>(alloc: Global, tokens: &'t [Token]) -> Read<'t, Item>
    ensures gives { Gives (λ x. (x.0, x.1.now)) result (local_parameter_item_at tokens.now) }
    ensures shorter { IfOk result (λ x. length x.1.now < length tokens.now) }
{
    let (_, rest) = word(tokens, Keyword::Localparam)?;
    let (group, rest) = settings(alloc, rest)?;
    before(Item::LocalParameters(group), rest, Mark::Semicolon)
}

#[tactic(auto, unfolding(crate::specs::Modules::wire_item_at))]
fn wire_item<'t>(alloc: Global, tokens: &'t [Token]) -> Read<'t, Item>
    ensures gives { Gives (λ x. (x.0, x.1.now)) result (wire_item_at tokens.now) }
    ensures shorter { IfOk result (λ x. length x.1.now < length tokens.now) }
{
    let (_, rest) = word(tokens, Keyword::Wire)?;
    let (signed, rest) = flag(rest, Keyword::Signed)?;
    let (range, rest) = range_option(alloc, rest)?;
    let (range, (nets, rest)) = beside(range, listed::<Declared>(alloc, rest))?;
    let wires = Item::Wires {
        signed,
        range,
        nets,
    };
    before(wires, rest, Mark::Semicolon)
}

#[tactic(auto, unfolding(crate::specs::Modules::reg_item_at))]
fn reg_item<'t>(alloc: Global, tokens: &'t [Token]) -> Read<'t, Item>
    ensures gives { Gives (λ x. (x.0, x.1.now)) result (reg_item_at tokens.now) }
    ensures shorter { IfOk result (λ x. length x.1.now < length tokens.now) }
{
    let (_, rest) = word(tokens, Keyword::Reg)?;
    let (signed, rest) = flag(rest, Keyword::Signed)?;
    let (range, rest) = range_option(alloc, rest)?;
    let (range, (variables, rest)) = beside(range, listed::<Variable>(alloc, rest))?;
    let regs = Item::Regs {
        signed,
        range,
        variables,
    };
    before(regs, rest, Mark::Semicolon)
}

#[tactic(auto, unfolding(crate::specs::Modules::assign_item_at))]
fn assign_item<'t>(alloc: Global, tokens: &'t [Token]) -> Read<'t, Item>
    ensures gives { Gives (λ x. (x.0, x.1.now)) result (assign_item_at tokens.now) }
    ensures shorter { IfOk result (λ x. length x.1.now < length tokens.now) }
{
    let (_, rest) = word(tokens, Keyword::Assign)?;
    let (settings, rest) = listed::<Setting>(alloc, rest)?;
    before(Item::Assigns(settings), rest, Mark::Semicolon)
}

#[tactic(auto, unfolding(crate::specs::Modules::any_event_at))]
fn any_event(tokens: &[Token]) -> Read<'_, Event>
    ensures gives { Gives (λ x. (x.0, x.1.now)) result (any_event_at tokens.now) }
    ensures shorter { IfOk result (λ x. length x.1.now < length tokens.now) }
{
    let (_, rest) = mark(tokens, Mark::Star)?;
    Ok((Event::Any, rest))
}

#[tactic(auto, unfolding(crate::specs::Modules::posedge_at))]
fn posedge<'t>(alloc: Global, tokens: &'t [Token]) -> Read<'t, Event>
    ensures gives { Gives (λ x. (x.0, x.1.now)) result (posedge_at tokens.now) }
    ensures shorter { IfOk result (λ x. length x.1.now < length tokens.now) }
{
    let (_, rest) = word(tokens, Keyword::Posedge)?;
    let (name, rest) = ident(alloc, rest)?;
    Ok((Event::Posedge(name), rest))
}

// What stands in the parentheses of an event.
#[tactic(auto, unfolding(crate::specs::Modules::inner_event_at))]
fn inner_event<'t>(alloc: Global, tokens: &'t [Token]) -> Read<'t, Event>
    ensures gives { Gives (λ x. (x.0, x.1.now)) result (inner_event_at tokens.now) }
    ensures shorter { IfOk result (λ x. length x.1.now < length tokens.now) }
{
    if next_is(tokens, Mark::Star) {
        any_event(tokens)
    } else {
        posedge(alloc, tokens)
    }
}

#[tactic(auto, unfolding(crate::specs::Modules::event_group_at))]
fn event_group<'t>(alloc: Global, tokens: &'t [Token]) -> Read<'t, Event>
    ensures gives { Gives (λ x. (x.0, x.1.now)) result (event_group_at tokens.now) }
    ensures shorter { IfOk result (λ x. length x.1.now < length tokens.now) }
{
    let (_, rest) = mark(tokens, Mark::OpenParen)?;
    let (event, rest) = inner_event(alloc, rest)?;
    before(event, rest, Mark::CloseParen)
}

#[tactic(auto, unfolding(crate::specs::Modules::event_at))]
fn event<'t>(alloc: Global, tokens: &'t [Token]) -> Read<'t, Event>
    ensures gives { Gives (λ x. (x.0, x.1.now)) result (event_at tokens.now) }
    ensures shorter { IfOk result (λ x. length x.1.now < length tokens.now) }
{
    if next_is(tokens, Mark::Star) {
        any_event(tokens)
    } else {
        event_group(alloc, tokens)
    }
}

#[tactic(auto, unfolding(crate::specs::Modules::always_item_at))]
fn always_item<'t>(alloc: Global, tokens: &'t [Token]) -> Read<'t, Item>
    ensures gives { Gives (λ x. (x.0, x.1.now)) result (always_item_at tokens.now) }
    ensures shorter { IfOk result (λ x. length x.1.now < length tokens.now) }
{
    let (_, rest) = word(tokens, Keyword::Always)?;
    let (_, rest) = mark(rest, Mark::At)?;
    let (event, rest) = event(alloc, rest)?;
    let (event, (body, rest)) = beside(event, stmt(alloc, rest, INNER_LEVELS))?;
    Ok((Item::Always { event, body }, rest))
}

#[tactic(auto, unfolding(crate::specs::Modules::item_at))]
pub(crate) fn item<'t>(alloc: Global, tokens: &'t [Token]) -> Read<'t, Item>
    ensures gives { Gives (λ x. (x.0, x.1.now)) result (item_at tokens.now) }
    ensures shorter { IfOk result (λ x. length x.1.now < length tokens.now) }
{
    if next_word(tokens, Keyword::Parameter) {
        parameter_item(alloc, tokens)
    } else if next_word(tokens, Keyword::Localparam) {
        local_parameter_item(alloc, tokens)
    } else if next_word(tokens, Keyword::Wire) {
        wire_item(alloc, tokens)
    } else if next_word(tokens, Keyword::Reg) {
        reg_item(alloc, tokens)
    } else if next_word(tokens, Keyword::Assign) {
        assign_item(alloc, tokens)
    } else {
        always_item(alloc, tokens)
    }
}
