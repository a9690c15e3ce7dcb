//! Networks of and, exclusive-or and carry gates over inputs and flip-flops.
//!
//! A `Network` is well formed by its type: every literal and name refers rightly, and each gate reads nodes before its
//! own. What a network is stands in `specs/Network.antt`, and what it does in a cycle in `specs/Run.antt`: its nodes
//! have the values that satisfy each gate's equation. Builders reason by `specs/Walk.antt`, where these values come out
//! node after node; that both are the same is a law. A `Proposal` has the look-up tables that a mapper proposes for a
//! network. The crate stands on `lz_base`, `lz_machine` and `lz_circuit`, and on `smallvec` for the leaves of these
//! tables.
//!
//! Promised: each reader shows its part of the network; each appending call adds exactly its line or, without memory,
//! changes nothing; an added gate's equation holds, and no literal that was there has another value; a well-formed
//! network has exactly one valuation in each cycle, and as a machine never stops.
#![tactic(auto)]

mod law;
mod network;
mod proposal;

pub use law::{
    gates_stand, machine_lasts, machine_step, node_after_node, one_valuation, sources_first,
    two_literals, values_stay,
};
pub use network::{Flip, Gate, Network};
pub use proposal::{Leaves, Line, Proposal};
