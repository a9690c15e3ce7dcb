//! Netlists of look-up tables, carry cells and flip-flops.
//!
//! A `Netlist` is well formed by its type: its lines are those of the netlist text, and every net and name refers
//! rightly. A `NetlistMaker` makes one line by line. What a netlist is stands in `specs/Netlist.antt`, its one text in
//! `specs/Text.antt`, and what it does in a cycle in `specs/Run.antt`. The crate stands on `lz_base`,
//! `lz_circuit` and, for the spelling of fields, on `lz_lines`.
//!
//! Promised: each reader shows its part of the netlist, each call of the maker appends exactly its line or, without
//! memory, changes nothing, and a well-formed netlist has exactly one valuation in each cycle.
#![tactic(auto)]

mod format;
mod law;
mod leaves;
mod netlist;

pub use format::Format;
pub use law::{machine_lasts, machine_step, net_after_net, old_run, one_valuation};
pub use leaves::{LEAVES, Leaves};
pub use netlist::{Cell, Flop, Netlist, NetlistMaker};
