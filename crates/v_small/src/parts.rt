ghost use Rattle.std.specs.Prelude.{◌≡◌, ◌∷◌, ◌++◌, map, IfOk, IfSome};
ghost use Rattle.v_syntax.specs.Small.{seen, word, mark, name, operand_spelling, operator_mark, value_spelling, port_spelling};
ghost use Rattle.v_syntax.specs.declared.token.Mark.TheVariants.{Comma};
ghost use Rattle.v_small.specs.Reading.{Shows, operand_at, operator_at, value_at, register_at, port_at};

use crate::taking::{after_mark, after_word, take_name};
use lz_base::OutOfMemory;
use std::alloc::Global;
use v_syntax::{Keyword, Mark, SmallExpr, SmallOperand, SmallOperator, SmallPort, Token};

// A name or its inverse, and the tokens behind it.
#[tactic(auto, unfolding(crate::specs::Reading::operand_at))]
fn take_operand(
    alloc: Global,
    tokens: &[Token],
) -> Result<Option<(SmallOperand, &[Token])>, OutOfMemory>
    ensures found { IfOk result (λ o. IfSome o (λ f. map seen tokens.now ≡ operand_spelling f.0 ++ map seen f.1.now)) }
    ensures same { IfOk result (λ o. Shows (λ f. (f.0, map seen f.1.now)) o (operand_at (map seen tokens.now))) }
{
    match after_mark(tokens, Mark::Tilde) {
        Some(rest) => match take_name(alloc, rest)? {
            Some((name, rest)) => Ok(Some((
                SmallOperand {
                    inverted: true,
                    name,
                },
                rest,
            ))),
            None => Ok(None),
        },
        None => match take_name(alloc, tokens)? {
            Some((name, rest)) => Ok(Some((
                SmallOperand {
                    inverted: false,
                    name,
                },
                rest,
            ))),
            None => Ok(None),
        },
    }
}

// An operator, and the tokens behind it.
#[tactic(auto, unfolding(crate::specs::Reading::operator_at))]
fn take_operator(tokens: &[Token]) -> Option<(SmallOperator, &[Token])>
    ensures found { IfSome result (λ f. map seen tokens.now ≡ mark (operator_mark f.0) ∷ map seen f.1.now) }
    ensures same { Shows (λ f. (f.0, map seen f.1.now)) result (operator_at (map seen tokens.now)) }
{
    if let Some(rest) = after_mark(tokens, Mark::Ampersand) {
        return Some((SmallOperator::And, rest));
    }
    if let Some(rest) = after_mark(tokens, Mark::Bar) {
        return Some((SmallOperator::Or, rest));
    }
    match after_mark(tokens, Mark::Caret) {
        Some(rest) => Some((SmallOperator::Xor, rest)),
        None => None,
    }
}

// One operand, or two with an operator between them, and the tokens behind them.
#[tactic(auto, unfolding(crate::specs::Reading::value_at))]
pub(crate) fn take_value(
    alloc: Global,
    tokens: &[Token],
) -> Result<Option<(SmallExpr, &[Token])>, OutOfMemory>
    ensures found { IfOk result (λ o. IfSome o (λ f. map seen tokens.now ≡ value_spelling f.0 ++ map seen f.1.now)) }
    ensures same { IfOk result (λ o. Shows (λ f. (f.0, map seen f.1.now)) o (value_at (map seen tokens.now))) }
{
    let Some((first, rest)) = take_operand(alloc, tokens)? else {
        return Ok(None);
    };
    let Some((operator, rest)) = take_operator(rest) else {
        return Ok(Some((SmallExpr::One(first), rest)));
    };
    match take_operand(alloc, rest)? {
        Some((second, rest)) => Ok(Some((SmallExpr::Two(first, operator, second), rest))),
        None => Ok(None),
    }
}

// A port, which stands behind its comma, and the tokens behind it.
#[tactic(auto, unfolding(crate::specs::Reading::port_at))]
pub(crate) fn take_port(
    alloc: Global,
    tokens: &[Token],
) -> Result<Option<(SmallPort, &[Token])>, OutOfMemory>
    ensures found { IfOk result (λ o. IfSome o (λ f. mark Comma ∷ map seen tokens.now ≡ port_spelling f.0 ++ map seen f.1.now)) }
    ensures same { IfOk result (λ o. Shows (λ f. (f.0, map seen f.1.now)) o (port_at (map seen tokens.now))) }
{
    match after_word(tokens, Keyword::Input) {
        Some(rest) => match take_name(alloc, rest)? {
            Some((name, rest)) => Ok(Some((SmallPort::Input(name), rest))),
            None => Ok(None),
        },
        None => take_register(alloc, tokens),
    }
}

// An `output reg`, and the tokens behind it.
fn take_register(
    alloc: Global,
    tokens: &[Token],
) -> Result<Option<(SmallPort, &[Token])>, OutOfMemory>
    ensures found { IfOk result (λ o. IfSome o (λ f. mark Comma ∷ map seen tokens.now ≡ port_spelling f.0 ++ map seen f.1.now)) }
    ensures same { IfOk result (λ o. Shows (λ f. (f.0, map seen f.1.now)) o (register_at (map seen tokens.now))) }
{
    let Some(rest) = after_word(tokens, Keyword::Output) else {
        return Ok(None);
    };
    let Some(rest) = after_word(rest, Keyword::Reg) else {
        return Ok(None);
    };
    match take_name(alloc, rest)? {
        Some((name, rest)) => Ok(Some((SmallPort::Register(name), rest))),
        None => Ok(None),
    }
}
