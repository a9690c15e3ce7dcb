//! The lexer: it splits a source file into tokens.
//!
//! It stands on the relation between bytes and tokens in `v_syntax`, and promises that `lex` gives the one token
//! list of the file, or names the byte at which no token, white space or comment begins.
#![tactic(auto)]

mod classes;
mod gaps;
mod lexing;
mod marks;
mod numbers;
mod words;

pub use lexing::{lex, one_reading};
