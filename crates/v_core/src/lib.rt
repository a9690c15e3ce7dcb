//! The typed form of a module: each width and each extension of an expression is written out, and names are numbers.
//!
//! It stands on `v_meaning`, whose operators it means. Promised are, of expressions: each maker gives a node with its
//! meaning, and `fix` gives an expression whose final width was open the value that it has at that width; each says how
//! many bits its expression has, and whether that and its operands keep to their widths. Of statements and modules there
//! are the types, and definitions of what they do and of when they keep to their widths; `v_statements` and `v_typed` make
//! them.
#![tactic(auto)]

mod fixing;
mod linking;
mod making;
mod modules;
mod open;
mod statement;
mod typed;

pub use fixing::fix;
pub use linking::{body_linked, fix_before};
pub use making::{chained, chosen, copied, extended, linked, prefixed, side_by_side};
pub use modules::{Core, TypedAssign, TypedProcess, TypedSite};
pub use open::{Body, Open};
pub use statement::{TypedArm, TypedItem, TypedLabel, TypedStmt, TypedTarget};
pub use typed::{Link, Typed};
