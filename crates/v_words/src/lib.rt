//! Words under the operators of the source language: what an operator makes of the values of its operands, and what
//! stands side by side, is repeated, read or written of a word.
//!
//! A word is a width from 1 to 128 bits and a value below 2 ^ width. Bit 0 is the least. It stands on the definitions of
//! `v_meaning`, whose operators these functions are. Promised is that each answers exactly what its definition says, and
//! a value that fits its width. Nothing takes memory, and no function goes over the bits of a word one by one.
#![tactic(auto)]

mod arithmetic;
mod operators;
mod parts;
mod sign;

pub use operators::{operate, operate_before};
pub use parts::{beside, copies, part, with_part};
pub use sign::{extend, is_less, is_negative};
