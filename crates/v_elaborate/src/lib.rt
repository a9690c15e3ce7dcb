//! All rules of declarations and expressions as one call.
//!
//! It stands on the crates that judge the rules of declarations and expressions: on `v_scope`, `v_declare` and `v_usage`,
//! and on `v_meaning` for the definitions of the rules. Promised is: `declared_names` answers the declared names of a module
//! exactly where it breaks none of these rules, and otherwise the first that it breaks, at its least place.
#![tactic(auto)]

mod declaring;

pub use declaring::declared_names;
