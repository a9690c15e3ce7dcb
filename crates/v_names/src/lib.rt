//! The declared names and the sites of a module, found by name and by place.
//!
//! It stands on `v_meaning`, whose entries it keeps. Promised are: `Names` is a list of entries of 1 to 128 bits and gives
//! for each name what the definitions give, its first entry; `Sites` is a list of places and gives for each place the
//! number that the definitions give. Each look-up goes through an ordered map.
#![tactic(auto)]

mod names;
mod sites;

pub use names::{Known, Names};
pub use sites::Sites;
