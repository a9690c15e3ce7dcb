//! Tests of the low crates and of the lexer: public calls that no command of the program reaches, or objects in memory.
//!
//! They stand in a crate of their own, so that the crates that they try are proved once and not a second time with them.
#![tactic(auto)]

#[cfg(test)]
mod cycles;
#[cfg(test)]
mod lexing;
#[cfg(test)]
mod outside;
