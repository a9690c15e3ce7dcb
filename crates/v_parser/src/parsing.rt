ghost use Rattle.std.specs.Prelude.{◌≡◌, List, IfOk};
ghost use Rattle.lz_base.specs.Answers.{Answers, IfFault};
ghost use Rattle.lz_base.specs.declared.rule.Rule.TheVariants.{E3};
ghost use Rattle.v_syntax.specs.ModuleGrammar.{Derives};
ghost use Rattle.v_syntax.specs.declared.module.Module.{Module};
ghost use Rattle.v_syntax.specs.declared.token.Token.{Token};
ghost use Rattle.v_parser.specs.Refusal.{IsRefused, first_place};

use crate::miss::Miss;
use crate::modules::module;
use lz_base::{Fault, Rule, Stop};
use std::alloc::Global;
use v_syntax::{Module, Token, Tokens};

// The fault at the first of these tokens, or at the file's end.
fn fault_at(tokens: &[Token], end: u64) -> Fault
    ensures { result ≡ record { rule = E3; at = first_place tokens.now end } }
{
    match tokens.split_first() {
        Some((first, _)) => Fault {
            rule: Rule::E3,
            at: first.at,
        },
        None => Fault {
            rule: Rule::E3,
            at: end,
        },
    }
}

// The module of these tokens, in a file that ends at the byte `end`, or E3.
#[tactic(auto, using(crate::proofs::ModuleRules::stopped_refused))]
pub(crate) fn parse_tokens(alloc: Global, tokens: &[Token], end: u64) -> Result<Module, Stop>
    ensures found { IfOk result (Derives tokens.now) }
    ensures only { (m : Module) → Derives tokens.now m → Answers (λ x. x) result m }
    ensures refused { IfFault result (IsRefused tokens.now end) }
{
    match module(alloc, tokens) {
        Ok((module, rest)) => {
            if rest.is_empty() {
                Ok(module)
            } else {
                Err(Stop::Fault(fault_at(rest, end)))
            }
        }
        Err(Miss::At(rest)) => Err(Stop::Fault(fault_at(rest, end))),
        Err(Miss::OutOfMemory) => Err(Stop::OutOfMemory),
    }
}

/// No token list derives two modules.
pub fn one_module()
    ensures { (tokens : List Token) (a b : Module) → Derives tokens a → Derives tokens b → a ≡ b }
{}

/// The module that the tokens derive. Where they derive none, the answer is E3 at the place of a token: those before it
/// and it begin no module's tokens, whatever stands behind them. The file's end counts as a token. Want of memory may
/// come at any file.
pub fn parse(alloc: Global, tokens: &Tokens) -> Result<Module, Stop>
    ensures found { IfOk result (Derives tokens.now.tokens) }
    ensures only { (m : Module) → Derives tokens.now.tokens m → Answers (λ x. x) result m }
    ensures refused { IfFault result (IsRefused tokens.now.tokens tokens.now.end) }
{
    parse_tokens(alloc, tokens.tokens(), tokens.end())
}
