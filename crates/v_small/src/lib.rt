//! Reads a small module, of one process and registers of one bit, from tokens.
//!
//! It stands on the token and small-module types of `v_syntax`. `read` answers the one module that
//! the tokens spell, or that they spell none; only want of memory keeps it from an answer.
#![tactic(auto)]

mod distinct;
mod names;
mod parts;
mod reading;
mod taking;

pub use reading::{one_module, read};
