use crate::Ident;
use lz_base::Items;

/// A port behind the clock.
#[derive(Debug, Drop)]
pub enum SmallPort {
    Input(Ident),
    /// An `output reg`.
    Register(Ident),
}

/// The operator between two operands.
#[derive(Clone, Copy, Debug, PartialEq, Eq)]
pub enum SmallOperator {
    And,
    Or,
    Xor,
}

/// A name, or its inverse.
#[derive(Debug, Drop)]
pub struct SmallOperand {
    pub inverted: bool,
    pub name: Ident,
}

/// One operand, or two with an operator between them.
#[derive(Debug, Drop)]
pub enum SmallExpr {
    One(SmallOperand),
    Two(SmallOperand, SmallOperator, SmallOperand),
}

/// A module of one-bit registers with one process, which assigns one of them.
#[derive(Debug, Drop)]
pub struct SmallModule {
    pub name: Ident,
    /// The first port.
    pub clock: Ident,
    /// The ports behind the clock, in order.
    pub ports: Items<SmallPort>,
    /// The name in the process's event.
    pub event: Ident,
    pub target: Ident,
    pub value: SmallExpr,
}
