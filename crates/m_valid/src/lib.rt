//! Proposals of look-up tables for a network: judged, and the plain one.
//!
//! A mapper proposes look-up tables in place of a network's gates, and nothing is known of it: `validate` says whether a
//! proposal is valid, and else which check is broken first, and where. `plain` proposes a table for each gate.
//! `specs/Validity.antt` says what valid is, check by check, `specs/Plain.antt` what the plain proposal is, and
//! `specs/Assembly.antt` which netlist a proposal makes of a network, which a crate above makes. The crate stands on `g_net`
//! for networks and proposals, and on `n_cells` for netlists.
//!
//! Promised: the verdict is the definition's, for every network, every proposal and up to six leaves; the plain proposal is
//! the definition's, and valid with six; and, as a law, the netlist that a valid proposal makes of a network is well formed
//! and realises the network.
#![tactic(auto)]

mod cones;
mod flags;
mod law;
mod leaves;
mod mapping;
mod marks;
mod needs;
mod nodes;
mod roots;
mod step;
mod tables;
mod validating;
mod verdict;
mod walk;

pub use law::assembly_agrees;
pub use mapping::plain;
pub use validating::validate;
pub use verdict::{Check, Verdict};
