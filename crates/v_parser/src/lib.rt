//! The parser: from tokens to the module that they derive.
//!
//! It stands on `v_syntax`, which has the tokens, the raw syntax and the grammar. It is a descent that decides on the next
//! token. What it promises: the module is the one that the grammar derives from the tokens; where none is, the rule E3 stands
//! at a token with which no text can go on, whatever stands behind it. The functions of the descent give what the readers of
//! `specs/` give, and the proofs show that these readers read the grammar.
#![tactic(auto)]

mod declarations;
mod exprs;
mod groups;
mod items;
mod lists;
mod miss;
mod modules;
mod operators;
mod parsing;
mod stmts;
mod targets;
mod tokens;

pub use parsing::{one_module, parse};
