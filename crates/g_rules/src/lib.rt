//! The rules by which gates are rewritten before they are built.
//!
//! A `Shape` is an `and` or an `xor` of two literals. A rule makes a `Rewrite` of it: it keeps the shape, or has a
//! literal or another shape for it. A plain rule sees the shape alone, a deep rule also the gates at its two nodes.
//! Both are closures that stand beside the fact that they keep the shape's value, whatever the values of the nodes, and
//! that they speak of no node that was not there; so a `RuleBook` may hold any rules whatever. `apply` asks them in
//! order. The crate stands on `lz_base`, and for the values of literals on `g_net`; it knows no network: `Gates` is what
//! it asks for the gates at nodes.
//!
//! Promised: each rule function answers exactly by its definition in `specs/PlainRules.antt` or `specs/DeepRules.antt`,
//! and keeps the value. What `apply` leaves is what the book's rules make of the shape one after another, and has the
//! shape's value, for every book.
#![tactic(auto)]

mod applying;
mod book;
mod deep;
mod literal;
mod plain;
mod shapes;

pub use applying::{Gates, Outcome, apply};
pub use book::{DeepRule, GateRule, RuleBook};
pub use deep::{and_absorb, and_subsume, xor_cancel};
pub use literal::{inverse, inverted, inverted_values};
pub use plain::{and_constant, and_order, and_same, xor_constant, xor_order, xor_same, xor_signs};
pub use shapes::{Deep, Rewrite, Shape};
