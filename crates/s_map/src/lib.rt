//! From the text of a network to the text of a netlist, by tables that are proposed.
//!
//! A proposal comes from a mapper or from a file, and is not trusted: it is judged, and where it is not valid, or the file
//! spells none, the plain proposal takes its place, and a note says so. The crate stands on `g_text`, which reads networks
//! and proposals, on `m_valid` and `m_assembly`, which judge and assemble, on `m_mapper` for mappers, and on `n_text`,
//! which prints netlists.
//!
//! Promised: for every network, every mapper and every file, the text is that of a netlist that realises the network; it
//! and the note are determined by the network and by what was proposed (`specs/Mapping`).
#![tactic(auto)]

mod finishing;
mod flow;
mod notes;
mod reading;

pub use finishing::finish;
pub use flow::{Mapped, map_by, map_plainly, map_with};
