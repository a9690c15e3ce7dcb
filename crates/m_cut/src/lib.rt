//! A mapper that looks for few look-up tables.
//!
//! `CutMapper` looks among the cuts of each node of a network for a cover of least depth, and then for one of few tables that
//! is no deeper. The crate stands on `g_net` for networks and proposals, and on `m_mapper` for the interface of mappers.
//!
//! Promised: `CutMapper` is safe and ends for every network and number of leaves. It may answer any proposal: that its cover
//! is valid or good is not promised.
#![tactic(auto)]

mod choosing;
mod cone;
mod cost;
mod cover;
mod cut;
mod cutting;
mod enumeration;
mod graph;
mod kept;
mod lines;
mod places;
mod timing;
mod trail;

pub use cutting::CutMapper;
