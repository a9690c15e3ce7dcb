//! What depends on what by assigns: nets that depend on themselves, and reads through nets of variables that a clocked
//! process assigns at once.
//!
//! The names of the assigns get numbers, and each read of an assign is an edge from its target. One walk against the edges
//! marks what depends on given names. For nets that depend on themselves each net gets a level first, and only a net with an
//! edge that does not fall is walked from; where the levels are those of strongly connected components, that is one walk.
//! It stands on `v_uses` for the assigns and processes, and on `v_meaning` and `v_scope` for the definitions. Promised are:
//! `first_circular` and `first_read_through` answer the least places that break P7 and P8, where a module has clocked
//! processes alone. The work is n log n in the uses where no assign stands before one with a lesser place, as `v_uses` has
//! them.
#![tactic(auto)]

mod following;
mod graph;
mod judging;
mod levels;
mod marking;
mod ordering;
mod rows;
mod turns;
mod walking;

pub use judging::{first_circular, first_read_through};
pub use ordering::order;
