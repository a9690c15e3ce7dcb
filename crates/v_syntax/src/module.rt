use crate::{Ident, Placed, Range, Stmt};
use lz_base::Items;

/// `name = value`: a parameter and its value, or a net and what it is assigned.
#[derive(Debug, Drop)]
pub struct Setting {
    pub name: Ident,
    pub value: Placed,
}

/// A declared name, and the value that it is given with `=`.
#[derive(Debug, Drop)]
pub struct Declared {
    pub name: Ident,
    pub value: Option<Placed>,
}

/// A name that `reg` declares.
#[derive(Debug, Drop)]
pub enum Variable {
    Plain(Declared),
    /// With its range of addresses.
    Memory(Ident, Range),
}

/// Parameters of one width and sign.
#[derive(Debug, Drop)]
pub struct ParameterGroup {
    pub signed: bool,
    pub range: Option<Range>,
    pub settings: Items<Setting>,
}

#[derive(Clone, Copy, Debug, PartialEq, Eq)]
pub enum PortKind {
    Input,
    Output,
    OutputReg,
}

/// Ports of one direction, width and sign. Only an `output reg` has values.
#[derive(Debug, Drop)]
pub struct PortGroup {
    pub kind: PortKind,
    pub signed: bool,
    pub range: Option<Range>,
    pub ports: Items<Declared>,
}

/// When a process runs its body.
#[derive(Debug, Drop)]
pub enum Event {
    /// `posedge name`: at each rising edge of the named net (IEEE Std 1364-2005, 9.7.2).
    Posedge(Ident),
    /// `*`: whenever a net or variable changes that the body reads (9.7.5).
    Any,
}

/// A declaration, an assignment of nets, or a process.
#[derive(Debug, Drop)]
pub enum Item {
    Parameters(ParameterGroup),
    LocalParameters(ParameterGroup),
    Wires {
        signed: bool,
        range: Option<Range>,
        nets: Items<Declared>,
    },
    Regs {
        signed: bool,
        range: Option<Range>,
        variables: Items<Variable>,
    },
    Assigns(Items<Setting>),
    /// `always @(event) body`
    Always {
        event: Event,
        body: Stmt,
    },
}

/// A module as it is written.
#[derive(Debug, Drop)]
pub struct Module {
    pub name: Ident,
    pub parameters: Items<ParameterGroup>,
    pub ports: Items<PortGroup>,
    pub items: Items<Item>,
}
