//! The declared names of a module, and whether its constant expressions and ranges are proper.
//!
//! It stands on `v_meaning`, whose entries it makes, on `v_names`, in which it keeps them, and on `v_constants`, which
//! evaluates constant expressions. One walk in text order judges each expression over the names before it and declares
//! the names. Promised is: `declare` gives the names of the definitions where nothing breaks rule E7, and else E7 at the
//! one place where the definitions have it.
#![tactic(auto)]

mod bounds;
mod counts;
mod declaring;
mod entries;
mod faults;
mod groups;
mod roles;

pub use declaring::declare;
