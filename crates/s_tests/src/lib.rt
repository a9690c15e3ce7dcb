//! Tests of the top call on files and sinks in memory. What a command of the program shows stands in `tests/`.
//!
//! They stand in a crate of their own, so that the crates that they try are proved once and not a second time with them.
#![tactic(auto)]

#[cfg(test)]
mod top;
