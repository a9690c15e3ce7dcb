//! Which names the assigns and processes of a module read and write.
//!
//! It stands on `v_syntax` for the module and on `v_meaning` for the definition of uses. Promised is that `uses` gathers
//! exactly the reads and writes of each assign and each process, each at its place and in the order of the definition,
//! whatever the declared names are taken to be: of the definition only the masks of bits and the paths are left out, which
//! need the widths and values of names.
#![tactic(auto)]

mod accesses;
mod exprs;
mod gathered;
mod gathering;
mod stmts;

pub use gathered::{AssignUses, ProcessUses, Uses, Write};
pub use gathering::uses;
