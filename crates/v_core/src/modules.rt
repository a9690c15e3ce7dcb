use crate::{Typed, TypedStmt};
use lz_base::{Items, Name};
use v_meaning::Entry;

/// A net, by its number among the nets, and the value that it is assigned; the value has the greater one of its own width
/// and the net's, to which it is cut (IEEE Std 1364-2005, 6.1).
#[derive(Debug, Drop)]
pub struct TypedAssign {
    pub net: u32,
    pub width: u32,
    pub value: Typed,
}

/// A process: whether it waits for the edge of the clock, and its body (9.9.2).
#[derive(Debug, Drop)]
pub struct TypedProcess {
    pub clocked: bool,
    pub body: TypedStmt,
}

/// A place whose bits the source leaves open: its first byte, and how many bits it has.
#[derive(Clone, Copy, Debug, PartialEq, Eq)]
pub struct TypedSite {
    pub at: u64,
    pub width: u32,
}

/// The typed form of a module. Assigns and processes stand in text order; an output is the number of its name.
#[derive(Debug, Drop)]
pub struct Core {
    pub name: Name,
    pub names: Items<Entry>,
    pub sites: Items<TypedSite>,
    pub outputs: Items<u32>,
    pub assigns: Items<TypedAssign>,
    pub processes: Items<TypedProcess>,
}
