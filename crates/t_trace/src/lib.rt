//! The texts of stimuli and traces.
//!
//! It stands on `lz_lines`, which reads and prints the fields of a line. A reader answers exactly the value whose text
//! the bytes are, and the fault T1 where they are no text for the widths; a printer gives the one text of its value.
#![tactic(auto)]

mod head;
mod printing;
mod reading;
mod texts;

pub use texts::{Stimulus, Trace, print_stimulus, print_trace, read_stimulus, read_trace};
