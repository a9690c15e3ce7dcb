//! Simulation of netlists, cycle by cycle.
//!
//! A `Sim` computes net after net, bit by bit; `Lanes` does so for 64 streams of bits at once, in words of 64 bits. Both
//! lay the cells out when they are made, `Lanes` as steps, each of which makes a word from three words before it. They
//! stand on the netlists of `n_cells`, whose definitions say what a cycle is, and on the words of `lz_base`.
//!
//! Promised: a simulator begins with the first bits of the flip-flops, and each cycle shows at the outputs and takes into
//! the flip-flops what the netlist's one valuation says, in `Lanes` for each stream on its own. A cycle takes no memory.
#![tactic(auto)]

mod cell;
mod front;
mod gate;
mod lanes;
mod layout;
mod making;
mod room;
mod sim;
mod step;
mod wires;
mod word;

pub use lanes::Lanes;
pub use sim::Sim;
