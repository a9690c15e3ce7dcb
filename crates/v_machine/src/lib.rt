//! The simulator of a typed module, cycle by cycle.
//!
//! It stands on the typed form of `v_core`, whose meaning it computes, on the moments and queues of `v_values`, on
//! `v_order` for the law that in a cycle the nets need settle only once, and on what `v_names` and `v_typed` say of the words
//! of a typed module, for the law that a machine can be made of it. Promised are: `Machine::new` begins in the first store
//! of its choice, and `Machine::cycle` shows and leaves what the module does in a cycle in text order, under every complete
//! schedule in that order; `execute` does what the acts of a statement do that takes all its steps alone. Only `new` takes
//! memory.
#![tactic(auto)]

mod cases;
mod counting;
mod cycling;
mod edges;
mod executing;
mod law;
mod machine;
mod making;
mod scheduling;
mod settling;

pub use executing::execute;
pub use law::{accepted_modules_run, numbered_names_fit, typed_modules_keep_words};
pub use machine::{Incomplete, Machine};
