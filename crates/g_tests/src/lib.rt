//! Tests of networks, of their texts, of the rules of gates, and of what is built with them: public calls that no command of
//! the program reaches.
//!
//! They stand in a crate of their own, so that the crates that they try are proved once and not a second time with them.
#![tactic(auto)]

#[cfg(test)]
mod builder;
#[cfg(test)]
mod networks;
#[cfg(test)]
mod rules;
#[cfg(test)]
mod texts;
