//! Where the sites of a module stand in its text: laws by which a site is found by its place.
//!
//! It stands on `v_syntax` for what tokens derive, and on `v_meaning` for the sites of a module. Promised are, of each module
//! that the tokens of a text derive: its sites stand one behind another, so each is found by its place; and at the place of
//! each number and each select that a cycle looks at as many bits are read as are open there, also where these are none.
//! The crate has no code.
#![tactic(auto)]

mod law;

pub use law::{open_bits_are_read, sites_are_found, sites_ascend};
