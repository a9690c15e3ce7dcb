//! Machines: what takes words and shows words, cycle by cycle, and when one does only what another may do.
//!
//! A module under its schedules, a netlist, and every form between them is a machine. The definitions stand in
//! `specs/Machine.antt`; their laws, by which crates above compose steps of the way, in `proofs/Laws.antt`. The crate
//! stands on `lz_base`, and has no code.
#![tactic(auto)]
