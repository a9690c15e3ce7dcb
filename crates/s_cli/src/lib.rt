//! The top call: what the words ask, done on files and sinks that are handed in.
//!
//! It stands on `s_flow`, which makes the netlist of a source, on `v_run`, which runs the module of a source, on `s_map`, which makes that of a network, on `n_text`,
//! which prints netlists, and on the traits of the outside of `lz_base`. `run` promises for each form of words and for
//! every mapper when each status comes, what was written, and which note and line went to the errors.
#![tactic(auto)]

mod answering;
mod forms;
mod mapping;
mod reading;
mod reporting;
mod running;
mod simulation;
mod source_run;
mod status;
mod synthesis;
mod upgrading;
mod words;

pub use forms::Command;
pub use running::run;
pub use status::Status;
pub use words::command;
