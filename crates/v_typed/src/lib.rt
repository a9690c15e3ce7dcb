//! The typed form of a module.
//!
//! It stands on `v_elaborate`, which judges the rules of declarations and expressions, on `v_typing`, `v_sites` and
//! `v_statements`, which type expressions, sites and statements, on `v_meaning` and `v_core` for the definitions of what a
//! module and its typed form mean, and on `v_places` for where its bits are open. Promised is: `elaborate` answers the first
//! of these rules that a module breaks, at its least place, and otherwise the typed form, whose design is that of the
//! module, and which keeps to its widths and sites; `typed` answers such a form over the declared names of a module that
//! breaks none.
#![tactic(auto)]

mod assigns;
mod copying;
mod elaborating;
mod parts;
mod ports;

pub use elaborating::{elaborate, kept_is_sound, typed};
