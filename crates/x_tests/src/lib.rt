//! Tests of expressions as nodes: public calls that no command of the program reaches.
//!
//! They stand in a crate of their own, so that the crate that they try is proved once and not a second time with them.
#![tactic(auto)]

#[cfg(test)]
mod nodes;
