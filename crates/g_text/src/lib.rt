//! The texts of networks and of proposals.
//!
//! It stands on `lz_lines`, which prints and reads the fields of a line, and on `g_net`, whose types the texts spell. `print`
//! gives exactly the one text of a network (`specs/Text.antt`), and says that the network has the form whose text `read`
//! gives back. `read` answers exactly the network whose text the bytes are. It first reads the lines, whatever their
//! literals and names refer to, then judges the references on the values, each at its place in the text
//! (`specs/Referred.antt`), and then makes the network. Its faults stand at the exact place. `print_proposal` and
//! `read_proposal` do the same for proposals, whose numbers are not judged.
#![tactic(auto)]

mod counting;
mod judging;
mod line;
mod lines;
mod making;
mod printing;
mod proposal;
mod raw;
mod raw_reading;
mod reading;
mod references;

pub use printing::print;
pub use proposal::{ProposalEnd, print_proposal, read_proposal};
pub use reading::read;
