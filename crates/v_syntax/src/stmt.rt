use crate::{Expr, Ident, Range};
use lz_base::{Boxed, Items};

/// What an assignment writes.
#[derive(Debug, Drop)]
pub enum Target {
    Name(Ident),
    /// `name[index]`, with the byte of the bracket: a bit, or a word of a memory.
    Select {
        name: Ident,
        bracket: u64,
        index: Expr,
    },
    /// `name[msb:lsb]`
    Part {
        name: Ident,
        range: Range,
    },
    /// `{a, b}`, with the byte of the brace. The first part is the most significant.
    Concat {
        brace: u64,
        parts: Items<Target>,
    },
}

/// How an assignment in a process takes effect.
#[derive(Clone, Copy, Debug, PartialEq, Eq)]
pub enum AssignKind {
    /// `=`
    Blocking,
    /// `<=`
    Nonblocking,
}

/// How a case compares.
#[derive(Clone, Copy, Debug, PartialEq, Eq)]
pub enum CaseKind {
    Case,
    Casez,
}

/// When an arm of a case is taken.
#[derive(Debug, Drop)]
pub enum Label {
    Items(Items<Expr>),
    /// The byte of the word `default`.
    Default(u64),
}

/// A statement as it is written.
#[cycle(statement)]
#[derive(Debug, Drop)]
pub enum Stmt {
    Null,
    Block(Items<Stmt>),
    If(Expr, Boxed<Stmt>),
    IfElse(Expr, Boxed<Stmt>, Boxed<Stmt>),
    Case {
        kind: CaseKind,
        subject: Expr,
        arms: Items<Arm>,
    },
    Assign {
        target: Boxed<Target>,
        kind: AssignKind,
        value: Expr,
    },
}

/// An arm of a case.
#[cycle(statement)]
#[derive(Debug, Drop)]
pub struct Arm {
    pub label: Label,
    pub body: Stmt,
}
