//! From the statements of the source to typed ones (IEEE Std 1364-2005, 9).
//!
//! It stands on `v_meaning`, whose meaning of targets and statements it keeps, on `v_typing`, which opens their expressions,
//! on `v_core`, whose typed statements it makes, on `v_places`, which says where bits are open, and on `v_constants`,
//! `v_numbers`, `v_words` and `v_names`. Promised is: `statement` gives for each sound statement a typed one that has the
//! same acts, the same branches and the same writes in each view. Conditions and indices determine their width themselves,
//! the value of an assignment takes the greater of its own width and the target's, and the subject and items of a case take
//! their greatest one. Where as many bits are read as are open, no site has more bits than what is selected there.
#![tactic(auto)]

mod cases;
mod items;
mod making;
mod stmts;
mod targets;

pub use stmts::statement;
