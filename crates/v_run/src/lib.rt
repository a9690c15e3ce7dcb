//! The run of a typed module over a stimulus, where the bits that its source leaves open are chosen, and the steps of its
//! processes ordered.
//!
//! It stands on the simulator of `v_machine`, on the stimulus and the trace of `t_trace` and on the choices and schedules of
//! `t_choices`. Promised are: `trace` gives the words that the module shows in text order under the choices, line by line, and
//! every complete schedule shows the same; `trace_by` gives those that it shows under schedules, or says where the first one is
//! not complete; `choices_for` and `schedules_for` read choices and schedules for a module, or say where a text is none.
//! Apart from the line of the trace a cycle takes no memory.
#![tactic(auto)]

mod choosing;
mod law;
mod reading;
mod running;
mod widths;

pub use choosing::{cycle_bits, first_bits, process_count};
pub use law::{every_schedule_shows_it, one_trace};
pub use reading::{choices_for, schedules_for};
pub use running::{trace, trace_by};
pub use widths::input_widths;
