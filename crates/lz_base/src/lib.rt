//! The ground that every crate of Lutsig stands on: words, rules and faults, names and ports, and what lies
//! outside the program, which is files and sinks.
//!
//! It stands on std, on `thiserror` for the texts of its errors, and on `sqlite_items`, whose lists and boxes it
//! hands on.
//!
//! Promised are: words keep to their width, and `Word::resize` cuts or extends as asked; `read_file` gives all
//! bytes of a file of at most the limit, takes no failed read for the end of the file, and ends on endless files;
//! `write_all` appends all bytes, or says how many went out; a fault is answered only where the object that
//! failed has counted it. `MemFiles` and `MemSink` are files and a sink in memory with exact answers. `HostFiles`
//! and `HostSink` reach the system and tell nothing of its bytes: they are trusted for what they do there.
#![tactic(auto)]

mod fault;
mod host;
mod limits;
mod masks;
mod memory_files;
mod memory_sink;
mod met;
mod name;
mod outside;
mod rule;
mod transfer;
mod word;

pub use fault::{Failed, Fault, OutOfMemory, Partial, ReadEnd, Stop};
pub use host::{HostFiles, HostSink};
pub use limits::{SOURCE_LIMIT, TEXT_LIMIT};
pub use masks::{cut, mask};
pub use memory_files::MemFiles;
pub use memory_sink::MemSink;
pub use met::{is_among_decides, is_met, meet, no_names};
pub use name::{Name, Port, is_name_byte, is_name_start};
pub use outside::{Files, Sink};
pub use rule::Rule;
pub use sqlite_items::{Boxed, Items};
pub use transfer::{read_file, write_all};
pub use word::Word;

/// The number of a node, a literal, a net or a line.
pub type Num = u128;
