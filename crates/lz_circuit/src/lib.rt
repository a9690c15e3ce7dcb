//! Circuits: what netlists of cells and networks of gates both are.
//!
//! A circuit has numbered values, ports, and flip-flops behind one clock. In each cycle it has a valuation, under which
//! it shows words and goes on. `specs/Values.antt` and `specs/Lines.antt` say what its values and its lines share, and
//! `specs/Circuit.antt` makes a machine of it. Where it has exactly one valuation, the machine never stops and does one
//! thing in each cycle, by `proofs/Laws.antt`. The crate stands on `lz_base` and `lz_machine`, and has no code.
#![tactic(auto)]
