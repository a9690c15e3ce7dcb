//! A netlist of its parts.
//!
//! `Parts` is a netlist's lines as plain data, of which nothing is known yet: its nets may refer to anything, and its cells
//! are `Piece`s. Where these lines are well formed, `make` gives the netlist that has them. So who reads a text or covers a
//! network can collect lines in any order, and judge them when all are there. The crate stands on `n_cells`, which says what
//! a netlist is and makes one line by line.
//!
//! Promised: the netlist has the very lines of its parts, and want of memory alone keeps it from being made.
#![tactic(auto)]

mod making;
mod parts;
mod piece;

pub use making::make;
pub use parts::Parts;
pub use piece::Piece;
