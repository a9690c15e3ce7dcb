//! Expressions over words and memories as nodes of an arena, and the three forms of a module that are made of them.
//!
//! A node reads an input, a variable, a memory or a site, or is an operation over nodes of smaller numbers; its value is
//! said by the operators of `v_meaning`. A `Flow` is what a module does in a cycle, a `Chosen` the same with a `Plan` for
//! the bits that the source leaves open, and a `Flat` the same with a register for each word of a memory. Each is a machine
//! (`specs/Forms.antt`). Promised are: an arena has each node once, and a call that makes one leaves all numbers theirs;
//! the node that is folded has the value that was asked for; a value fits what its node stands for.
#![tactic(auto)]

mod arena;
mod folding;
mod forms;
mod law;
mod node;

pub use arena::Arena;
pub use forms::{Chosen, First, Flat, Flow, Head, Plan, Register, Roots, Sizes, Step};
pub use law::{nodes_stand, values_fit, values_stay};
pub use node::{Before, Between, Node, Shape, shape_of};
