ghost use Rattle.std.specs.Prelude.{◌≡◌, [], ◌∷◌, ◌++◌, List, None, map, flat_map, IfOk, IfSome, IfNone, IsTrue};
ghost use Rattle.v_syntax.specs.Small.{seen, word, mark, name, value_spelling, port_spelling, module_spelling, IsSmall};
ghost use Rattle.v_syntax.specs.declared.token.Keyword.TheVariants as k;
ghost use Rattle.v_syntax.specs.declared.token.Mark.TheVariants as m;
ghost use Rattle.v_syntax.specs.declared.small.SmallPort.{SmallPort};
ghost use Rattle.v_syntax.specs.declared.small.SmallModule.{SmallModule};
ghost use Rattle.v_syntax.specs.declared.token.Token.{Token};
ghost use Rattle.v_small.specs.Reading.{Seen, Shows, further_at, head_at, event_at, assign_at, end_at, body_at};

use crate::names::has_names;
use crate::parts::{take_port, take_value};
use crate::taking::{after_mark, after_word, take_name};
use lz_base::{Items, OutOfMemory};
use std::alloc::Global;
use v_syntax::{Ident, Keyword, Mark, SmallExpr, SmallModule, SmallPort, Token};

// The names of the module and of its clock, and the tokens behind the clock.
#[tactic(auto, unfolding(crate::specs::Reading::head_at))]
fn take_head(
    alloc: Global,
    tokens: &[Token],
) -> Result<Option<(Ident, Ident, &[Token])>, OutOfMemory>
    ensures found { IfOk result (λ o. IfSome o (λ f. map seen tokens.now ≡ word k.Module ∷ name f.0 ∷ mark m.OpenParen ∷ word k.Input ∷ name f.1 ∷ map seen f.2.now)) }
    ensures same { IfOk result (λ o. Shows (λ f. (f.0, f.1, map seen f.2.now)) o (head_at (map seen tokens.now))) }
{
    let Some(rest) = after_word(tokens, Keyword::Module) else {
        return Ok(None);
    };
    let Some((name, rest)) = take_name(alloc, rest)? else {
        return Ok(None);
    };
    let Some(rest) = after_mark(rest, Mark::OpenParen) else {
        return Ok(None);
    };
    let Some(rest) = after_word(rest, Keyword::Input) else {
        return Ok(None);
    };
    match take_name(alloc, rest)? {
        Some((clock, rest)) => Ok(Some((name, clock, rest))),
        None => Ok(None),
    }
}

// The name in the event, with all from the end of the ports on, and the tokens behind the event.
#[tactic(auto, unfolding(crate::specs::Reading::event_at))]
fn take_event(alloc: Global, tokens: &[Token]) -> Result<Option<(Ident, &[Token])>, OutOfMemory>
    ensures found { IfOk result (λ o. IfSome o (λ f. map seen tokens.now ≡ mark m.CloseParen ∷ mark m.Semicolon ∷ word k.Always ∷ mark m.At ∷ mark m.OpenParen ∷ word k.Posedge ∷ name f.0 ∷ mark m.CloseParen ∷ map seen f.1.now)) }
    ensures same { IfOk result (λ o. Shows (λ f. (f.0, map seen f.1.now)) o (event_at (map seen tokens.now))) }
{
    let Some(rest) = after_mark(tokens, Mark::CloseParen) else {
        return Ok(None);
    };
    let Some(rest) = after_mark(rest, Mark::Semicolon) else {
        return Ok(None);
    };
    let Some(rest) = after_word(rest, Keyword::Always) else {
        return Ok(None);
    };
    let Some(rest) = after_mark(rest, Mark::At) else {
        return Ok(None);
    };
    let Some(rest) = after_mark(rest, Mark::OpenParen) else {
        return Ok(None);
    };
    let Some(rest) = after_word(rest, Keyword::Posedge) else {
        return Ok(None);
    };
    let Some((event, rest)) = take_name(alloc, rest)? else {
        return Ok(None);
    };
    match after_mark(rest, Mark::CloseParen) {
        Some(rest) => Ok(Some((event, rest))),
        None => Ok(None),
    }
}

// The assigned name and the value, and the tokens behind the semicolon.
#[tactic(auto, unfolding(crate::specs::Reading::assign_at))]
fn take_assignment(
    alloc: Global,
    tokens: &[Token],
) -> Result<Option<(Ident, SmallExpr, &[Token])>, OutOfMemory>
    ensures found { IfOk result (λ o. IfSome o (λ f. map seen tokens.now ≡ name f.0 ∷ mark m.LessEqual ∷ value_spelling f.1 ++ mark m.Semicolon ∷ map seen f.2.now)) }
    ensures same { IfOk result (λ o. Shows (λ f. (f.0, f.1, map seen f.2.now)) o (assign_at (map seen tokens.now))) }
{
    let Some((target, rest)) = take_name(alloc, tokens)? else {
        return Ok(None);
    };
    let Some(rest) = after_mark(rest, Mark::LessEqual) else {
        return Ok(None);
    };
    let Some((value, rest)) = take_value(alloc, rest)? else {
        return Ok(None);
    };
    match after_mark(rest, Mark::Semicolon) {
        Some(rest) => Ok(Some((target, value, rest))),
        None => Ok(None),
    }
}

// The ports behind the clock, up to where none stands, and the tokens behind them.
fn take_ports(
    alloc: Global,
    tokens: &[Token],
) -> Result<Option<(Items<SmallPort>, &[Token])>, OutOfMemory>
    ensures found { IfOk result (λ o. IfSome o (λ f. map seen tokens.now ≡ flat_map port_spelling f.0 ++ map seen f.1.now)) }
    ensures last { IfOk result (λ o. IfSome o (λ f. further_at (map seen f.1.now) ≡ None)) }
    ensures none { IfOk result (λ o. IfNone o ((ports : List SmallPort) (rest : List Seen) → map seen tokens.now ≡ flat_map port_spelling ports ++ mark m.CloseParen ∷ rest → ⊥)) }
{
    let mut ports = Items::new(alloc);
    let mut left = tokens;
    while let Some(next) = after_mark(left, Mark::Comma) {
        match take_port(alloc, next)? {
            Some((port, rest)) => {
                ports.push(port)?;
                left = rest;
            }
            None => return Ok(None),
        }
    }
    Ok(Some((ports, left)))
}

// The names in the event and the assignment, and the value, where nothing stands behind them.
#[tactic(auto, unfolding(crate::specs::Reading::body_at))]
fn take_body(
    alloc: Global,
    tokens: &[Token],
) -> Result<Option<(Ident, Ident, SmallExpr)>, OutOfMemory>
    ensures found { IfOk result (λ o. IfSome o (λ f. map seen tokens.now ≡ mark m.CloseParen ∷ mark m.Semicolon ∷ word k.Always ∷ mark m.At ∷ mark m.OpenParen ∷ word k.Posedge ∷ name f.0 ∷ mark m.CloseParen
        ∷ name f.1 ∷ mark m.LessEqual ∷ value_spelling f.2 ++ mark m.Semicolon ∷ word k.Endmodule ∷ [])) }
    ensures same { IfOk result (λ o. Shows (λ f. f) o (body_at (map seen tokens.now))) }
{
    let Some((event, rest)) = take_event(alloc, tokens)? else {
        return Ok(None);
    };
    let Some((target, value, rest)) = take_assignment(alloc, rest)? else {
        return Ok(None);
    };
    if is_end(rest) {
        Ok(Some((event, target, value)))
    } else {
        Ok(None)
    }
}

// Whether the last word stands here alone.
#[tactic(auto, unfolding(crate::specs::Reading::end_at))]
fn is_end(tokens: &[Token]) -> bool
    ensures found { IsTrue result → map seen tokens.now ≡ word k.Endmodule ∷ [] }
    ensures same { result ≡ end_at (map seen tokens.now) }
{
    match after_word(tokens, Keyword::Endmodule) {
        Some(rest) => rest.is_empty(),
        None => false,
    }
}

// The module of these tokens by their form alone.
fn take_module(alloc: Global, tokens: &[Token]) -> Result<Option<SmallModule>, OutOfMemory>
    ensures found { IfOk result (λ o. IfSome o (λ s. map seen tokens.now ≡ module_spelling s)) }
    ensures none { IfOk result (λ o. IfNone o ((s : SmallModule) → map seen tokens.now ≡ module_spelling s → ⊥)) }
{
    let Some((name, clock, rest)) = take_head(alloc, tokens)? else {
        return Ok(None);
    };
    let Some((ports, rest)) = take_ports(alloc, rest)? else {
        return Ok(None);
    };
    let Some((event, target, value)) = take_body(alloc, rest)? else {
        return Ok(None);
    };
    Ok(Some(SmallModule {
        name,
        clock,
        ports,
        event,
        target,
        value,
    }))
}

/// The small module that the tokens are those of, or None where they are those of none: their form
/// is another, or the names don't agree. The work is linear in the tokens, and n log n in the ports.
pub fn read(alloc: Global, tokens: &[Token]) -> Result<Option<SmallModule>, OutOfMemory>
    ensures found { IfOk result (λ o. IfSome o (λ s. IsSmall tokens.now s)) }
    ensures none { IfOk result (λ o. IfNone o ((s : SmallModule) → IsSmall tokens.now s → ⊥)) }
{
    let Some(small) = take_module(alloc, tokens)? else {
        return Ok(None);
    };
    if has_names(alloc, &small)? {
        Ok(Some(small))
    } else {
        Ok(None)
    }
}

/// A law: tokens are those of one small module at most.
pub fn one_module()
    ensures { (tokens : List Token) (a b : SmallModule) → IsSmall tokens a → IsSmall tokens b → a ≡ b }
{}
