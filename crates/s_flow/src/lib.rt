//! From the bytes of a source to a typed module and to a netlist, and from a netlist and a stimulus to a trace.
//!
//! It stands on the lexer, the parser, the rules of modules (E4 to E13, P1 to P8 and W1), the maker of typed modules, the
//! reader of small modules, the maker of netlists and their simulators. `front` gives a typed form of the module that the
//! bytes are a text of, which has its design, exactly where that breaks no rule, and otherwise names the first rule that they
//! break; `runnable` gives with it an order in which the module's nets settle, so that a machine can be made of both;
//! `small` reads a small module of the same texts; `make` gives a netlist that realises it: its machine shows only
//! what the module's machine may show under every schedule. `simulate` and `simulate_lanes` give the trace of a netlist's run
//! over a stimulus, the second one for up to 64 streams in turn.
#![tactic(auto)]

mod making;
mod reading;
mod readying;
mod simulating;
mod transposing;
mod turns;

pub use making::make;
pub use reading::{front, small};
pub use readying::{Prepared, runnable};
pub use simulating::{simulate, widths};
pub use turns::simulate_lanes;
