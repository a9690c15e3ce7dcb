//! Names are used as they are declared, and concatenations have 1 to 128 bits.
//!
//! These are the rules that look at the declared names of a module: at their kinds and widths, and at the values of
//! parameters. It stands on `v_scope` for the list of what they look at, on `v_names` for what is known of a name, on
//! `v_constants` for the values of bounds and counts, and on `v_meaning` for the definitions of the rules. Promised is:
//! `usage` answers the first of E8 to E13 that is broken, at its least place, or Ok where none is.
#![tactic(auto)]

mod bits;
mod bounds;
mod judging;
mod rules;
mod widths;

pub use judging::usage;
