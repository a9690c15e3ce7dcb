//! A variable has one process that writes it, a net one assign, and what happens at a clock edge depends on no order.
//!
//! These are the rules of processes and nets, and of how much a module weighs, for modules whose processes are all clocked.
//! It stands on `v_uses` for which names are read and written where, on `v_names` for what is known of a name, on
//! `v_depends` for what depends on what, on `v_weight` for the weight, on `v_typing` for what can be weighed, on `v_scope`
//! for the least of several places, and on `v_meaning` for the definitions of the rules. Promised are: `is_clocked` tells
//! whether a module has such processes alone, and `check` answers the first of P1 to P10 and W1 that is broken, at its
//! least place, or Ok where none is. The work is n log n in the module.
#![tactic(auto)]

mod checking;
mod clock;
mod idents;
mod places;
mod targets;
mod variables;

pub use checking::{check, is_clocked};
