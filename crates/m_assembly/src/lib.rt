//! The netlist that a valid proposal makes of a network.
//!
//! Each line of the proposal becomes a look-up table, each carry gate a carry cell, and each literal that a flip-flop, an
//! output or a carry reads inverted becomes an inverter of its own. The crate stands on `m_valid`, which says what is
//! assembled and what is valid, on `g_net` for networks and proposals, and on `n_cells` for netlists.
//!
//! Promised: the netlist is the definition's, line by line, and realises the network.
#![tactic(auto)]

mod assembling;
mod draft;
mod ends;
mod gates;

pub use assembling::assemble;
