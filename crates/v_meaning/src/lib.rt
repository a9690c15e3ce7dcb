//! The meaning of the source language: what a module does in each cycle, and which rules it breaks.
//!
//! The definitions stand in `specs/`, over the raw syntax. Of the whole language, in the order of reading: `Literals`,
//! `Senses`, `Names`, `Expressions` (numbers, operators, expressions), `Views`, `Targets`, `Acts`, `Statements`
//! (processes), `Declarations`, `Sites`, `Modules` (a module as its cycles see it), `Designs` (settled values, the edge
//! under a schedule, the machine), and `Marks` to `Broken` (the rules and the weight). `Cycle` is the meaning of small
//! modules. Worked rows that the definitions must meet stand in `proofs/`. The crate stands on `v_syntax` and
//! `lz_machine`; it promises the laws about the definitions.
#![tactic(auto)]

mod law;
mod literal;
mod names;

pub use law::text_order_is_complete;
pub use literal::Literal;
pub use names::{Entry, Kind};
