//! Words of literals: arithmetic, comparisons, choices and shifts as gates.
//!
//! A word is a list of literals, bit 0 first. Each call takes words whose literals are there, adds gates through a
//! `Builder`, and gives the literals of its answer. What the number of a word is stands in `specs/Words.antt`, and what
//! each operator makes of numbers in `specs/Operators.antt`. The crate stands on `g_build`, which alone makes gates, on
//! `g_net` for their values, and on `g_rules` for the inverses of literals.
//!
//! Promised: for all bits of the inputs and the flip-flops, the number of the answer is what the operator makes of the
//! numbers of the operands; no literal that was there has another value, whatever the answer; and where no two gates were
//! equal, no two are. `OutOfMemory` is the only other answer, and gates may have been added then.
#![tactic(auto)]

mod choices;
mod comparisons;
mod gates;
mod products;
mod shifts;
mod sums;
mod words;

pub use choices::choose;
pub use comparisons::{equal, less};
pub use products::multiply;
pub use shifts::shift;
pub use sums::{add, subtract};
pub use words::Bits;
