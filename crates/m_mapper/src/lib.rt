//! Mappers, which propose look-up tables for a network.
//!
//! A `Mapper` may be any boxed object. It tells which proposals it may answer, and answers one of them, or finds no memory;
//! nothing else is known of it, so that whoever asks judges the answer. `FixedMapper` answers a copy of the proposal that it
//! was given. The crate stands on `g_net` for networks and proposals.
//!
//! Promised: a mapper answers one of its told answers, and the one told answer of `FixedMapper` is its proposal.
#![tactic(auto)]

mod fixed;
mod mapper;

pub use fixed::FixedMapper;
pub use mapper::Mapper;
