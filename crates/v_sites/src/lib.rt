//! The places of a module whose bits the source leaves open.
//!
//! A site is a number with x bits, or a select of a bit or word whose index may be out of range (IEEE Std 1364-2005, 3.5.1,
//! 5.2.1 and 5.2.2). The crate stands on `v_syntax` for the module, on `v_meaning` for the definition of sites, on
//! `v_numbers` and `v_constants` for numbers and constant indices, on `v_names` for the declared names, on `v_core` for the
//! form that sites have, and on `v_typing` for what it means that a module can be typed. Promised is that `sites` finds
//! exactly the sites of the module, each with its place and its number of bits, in text order.
#![tactic(auto)]

mod exprs;
mod finding;
mod leaves;
mod stmts;

pub use finding::sites;
