//! The weight of a module: how much there is to build, as a sum over its parts.
//!
//! It stands on `v_meaning`, whose definition of weights it computes, on `v_numbers`, `v_names` and `v_constants` for what
//! numbers, names and constant expressions are, and on `v_typing`, whose sound items it takes. Promised is: `weight` gives
//! the lesser of the weight and 2^64 - 1. An expression is weighed from the bottom up, before its final width is known:
//! its weight is a polynomial of degree 2 in that width. Numbers stop at 2^64 - 1 everywhere, also widths and depths, so
//! no bound on them is needed.
#![tactic(auto)]

mod bounds;
mod counting;
mod expressions;
mod leaves;
mod modules;
mod operators;
mod polynomial;
mod saturated;
mod statements;
mod targets;

pub use modules::weight;
