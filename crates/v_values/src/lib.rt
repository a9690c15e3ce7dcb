//! The values of typed expressions at a moment of a cycle, and what typed targets write.
//!
//! It stands on the typed form of `v_core`, whose meaning it computes, on the words of `v_words` and on `v_numbers`.
//! Promised are: `value` answers exactly what an expression that keeps to its widths means in the view of a `Moment`;
//! `assign` writes exactly what a blocking assignment of a value writes, `defer` puts exactly the writes of a nonblocking one
//! behind a queue, and `Queue::apply_from` does those that wait, one after another. Only making a queue takes memory.
#![tactic(auto)]

mod assigning;
mod memory;
mod moment;
mod queue;
mod reading;
mod setting;
mod targets;
mod valuing;
mod writing;

pub use assigning::{assign, defer};
pub use memory::Memory;
pub use moment::Moment;
pub use queue::Queue;
pub use setting::number;
pub use targets::target_width;
pub use valuing::{named, value};
pub use writing::{Place, Write};
