ghost use Rattle.std.specs.Prelude.{◌≡◌, ◌≤◌, ◌<◌, Ok, Err, IfOk, length, true};
ghost use Rattle.v_parser.specs.Modules.{flag_at, range_option_at, value_at, value_option_at, setting_at, declared_at, bare_at, variable_at};
ghost use Rattle.v_parser.specs.Gives.{Gives};

use crate::exprs::{placed, range};
use crate::lists::Part;
use crate::miss::{Miss, Read};
use crate::tokens::{ident, mark, next_is, next_word, word};
use std::alloc::Global;
use v_syntax::{Declared, INNER_LEVELS, Keyword, Mark, Placed, Range, Setting, Token, Variable};

// Whether this word stands there.
#[tactic(auto, unfolding(crate::specs::Modules::flag_at))]
pub(crate) fn flag(tokens: &[Token], wanted: Keyword) -> Read<'_, bool>
    ensures gives { Gives (λ x. (x.0, x.1.now)) result (flag_at wanted tokens.now) }
    ensures shorter { IfOk result (λ x. length x.1.now ≤ length tokens.now) }
{
    if next_word(tokens, wanted) {
        let (_, rest) = word(tokens, wanted)?;
        Ok((true, rest))
    } else {
        Ok((false, tokens))
    }
}

#[tactic(auto, unfolding(crate::specs::Modules::range_option_at))]
pub(crate) fn range_option<'t>(alloc: Global, tokens: &'t [Token]) -> Read<'t, Option<Range>>
    ensures gives { Gives (λ x. (x.0, x.1.now)) result (range_option_at tokens.now) }
    ensures shorter { IfOk result (λ x. length x.1.now ≤ length tokens.now) }
{
    if next_is(tokens, Mark::OpenBracket) {
        let (range, rest) = range(alloc, tokens, INNER_LEVELS)?;
        Ok((Some(range), rest))
    } else {
        Ok((None, tokens))
    }
}

#[tactic(auto, unfolding(crate::specs::Modules::value_at))]
fn value<'t>(alloc: Global, tokens: &'t [Token]) -> Read<'t, Placed>
    ensures gives { Gives (λ x. (x.0, x.1.now)) result (value_at tokens.now) }
    ensures shorter { IfOk result (λ x. length x.1.now < length tokens.now) }
{
    let (_, rest) = mark(tokens, Mark::Equal)?;
    placed(alloc, rest, INNER_LEVELS)
}

#[tactic(auto, unfolding(crate::specs::Modules::value_option_at))]
fn value_option<'t>(alloc: Global, tokens: &'t [Token]) -> Read<'t, Option<Placed>>
    ensures gives { Gives (λ x. (x.0, x.1.now)) result (value_option_at tokens.now) }
    ensures shorter { IfOk result (λ x. length x.1.now ≤ length tokens.now) }
{
    if next_is(tokens, Mark::Equal) {
        let (value, rest) = value(alloc, tokens)?;
        Ok((Some(value), rest))
    } else {
        Ok((None, tokens))
    }
}

#[tactic(auto, unfolding(crate::specs::Modules::setting_at))]
pub(crate) fn setting<'t>(alloc: Global, tokens: &'t [Token]) -> Read<'t, Setting>
    ensures gives { Gives (λ x. (x.0, x.1.now)) result (setting_at tokens.now) }
    ensures shorter { IfOk result (λ x. length x.1.now < length tokens.now) }
{
    let (name, rest) = ident(alloc, tokens)?;
    let (value, rest) = value(alloc, rest)?;
    Ok((Setting { name, value }, rest))
}

#[tactic(auto, unfolding(crate::specs::Modules::declared_at))]
pub(crate) fn declared<'t>(alloc: Global, tokens: &'t [Token]) -> Read<'t, Declared>
    ensures gives { Gives (λ x. (x.0, x.1.now)) result (declared_at tokens.now) }
    ensures shorter { IfOk result (λ x. length x.1.now < length tokens.now) }
{
    let (name, rest) = ident(alloc, tokens)?;
    let (value, rest) = value_option(alloc, rest)?;
    Ok((Declared { name, value }, rest))
}

#[tactic(auto, unfolding(crate::specs::Modules::bare_at))]
pub(crate) fn bare<'t>(alloc: Global, tokens: &'t [Token]) -> Read<'t, Declared>
    ensures gives { Gives (λ x. (x.0, x.1.now)) result (bare_at tokens.now) }
    ensures shorter { IfOk result (λ x. length x.1.now < length tokens.now) }
{
    let (name, rest) = ident(alloc, tokens)?;
    Ok((Declared { name, value: None }, rest))
}

#[tactic(auto, unfolding(crate::specs::Modules::variable_at))]
fn variable<'t>(alloc: Global, tokens: &'t [Token]) -> Read<'t, Variable>
    ensures gives { Gives (λ x. (x.0, x.1.now)) result (variable_at tokens.now) }
    ensures shorter { IfOk result (λ x. length x.1.now < length tokens.now) }
{
    let (name, rest) = ident(alloc, tokens)?;
    if next_is(rest, Mark::OpenBracket) {
        let (range, rest) = range(alloc, rest, INNER_LEVELS)?;
        Ok((Variable::Memory(name, range), rest))
    } else {
        let (value, rest) = value_option(alloc, rest)?;
        Ok((Variable::Plain(Declared { name, value }), rest))
    }
}

impl Part for Setting {
    ghost reading = { setting_at };

    fn read<'t>(alloc: Global, tokens: &'t [Token]) -> Read<'t, Setting> {
        setting(alloc, tokens)
    }
}

impl Part for Declared {
    ghost reading = { declared_at };

    fn read<'t>(alloc: Global, tokens: &'t [Token]) -> Read<'t, Declared> {
        declared(alloc, tokens)
    }
}

impl Part for Variable {
    ghost reading = { variable_at };

    fn read<'t>(alloc: Global, tokens: &'t [Token]) -> Read<'t, Variable> {
        variable(alloc, tokens)
    }
}
