//! The text of a netlist.
//!
//! It stands on `lz_lines`, which prints, reads and judges the fields of a line and the lines that texts share, and on
//! `n_cells`, whose definitions say which text a netlist has in each format. `print` gives exactly that text in format 2,
//! and says that the netlist has the form whose text `read` gives back. `read` answers exactly the netlist whose text in
//! format 2 the bytes are, and `read_old` the one whose text in format 1 they are. Both first read the lines, whatever
//! their nets and names refer to, then judge the references on the values, each at its place in the text
//! (`specs/Referred.antt`), and then make the netlist. Their faults stand at the exact place.
#![tactic(auto)]

mod counting;
mod judging;
mod line;
mod lines;
mod printing;
mod raw;
mod raw_reading;
mod reading;
mod references;

pub use printing::print;
pub use reading::{read, read_old};
