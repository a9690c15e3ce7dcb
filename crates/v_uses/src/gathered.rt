use lz_base::Items;
use v_syntax::{AssignKind, Event, Ident};

/// A name that an assignment in a process writes, at its place, and how the assignment takes effect (IEEE Std 1364-2005,
/// 9.2).
#[derive(Clone, Copy, Debug)]
pub struct Write<'a> {
    pub name: &'a Ident,
    pub kind: AssignKind,
}

/// What a net is assigned, by an assign or where it is declared (6.1): its name, and the names that the value reads, each
/// at its place, in text order.
#[derive(Debug, Drop)]
pub struct AssignUses<'a> {
    pub target: &'a Ident,
    pub reads: Items<&'a Ident>,
}

/// A process (9.9.2): its event, the names that its body reads, and those that it writes, each at its place. A name stands
/// there as often as it is met.
#[derive(Debug, Drop)]
pub struct ProcessUses<'a> {
    pub event: &'a Event,
    pub reads: Items<&'a Ident>,
    pub writes: Items<Write<'a>>,
}

/// The assigns and the processes of a module, in text order.
#[derive(Debug, Drop)]
pub struct Uses<'a> {
    pub assigns: Items<AssignUses<'a>>,
    pub processes: Items<ProcessUses<'a>>,
}
