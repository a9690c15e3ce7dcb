use crate::Typed;
use lz_base::{Boxed, Items};
use v_syntax::AssignKind;

/// What an assignment writes. A name is its number in the list of declared names, with the byte where it stands.
#[derive(Debug, Drop)]
pub enum TypedTarget {
    /// So many bits of a variable, from the lowest one up, which is counted from the variable's lowest bit (IEEE Std
    /// 1364-2005, 5.2.1).
    Part {
        name: u32,
        at: u64,
        low: u32,
        width: u32,
    },
    /// A bit of a variable or a word of a memory, of so many bits, at an index of this width and sign (5.2.1 and 5.2.2).
    Select {
        name: u32,
        at: u64,
        bits: u32,
        width: u32,
        signed: bool,
        index: Typed,
    },
    /// Parts side by side; the first is the most significant (9.2).
    Concat(Items<TypedTarget>),
}

/// An item of a case: a word, and the mask of its bits that are not compared (9.5.1).
#[derive(Debug, Drop)]
pub struct TypedItem {
    pub ignored: u128,
    pub value: Typed,
}

/// When an arm of a case is taken (9.5).
#[derive(Debug, Drop)]
pub enum TypedLabel {
    Items(Items<TypedItem>),
    Default,
}

/// A statement whose expressions are typed.
#[cycle(typed_statement)]
#[derive(Debug, Drop)]
pub enum TypedStmt {
    Null,
    Block(Items<TypedStmt>),
    /// A condition, which holds where its value is not 0, and both branches (9.4).
    If(Typed, Boxed<TypedStmt>, Boxed<TypedStmt>),
    /// The subject and all items have one width.
    Case {
        subject: Typed,
        arms: Items<TypedArm>,
    },
    /// The value has the greater one of its own width and the target's, to which it is cut (9.2).
    Assign {
        target: Boxed<TypedTarget>,
        kind: AssignKind,
        value: Typed,
    },
}

/// An arm of a case.
#[cycle(typed_statement)]
#[derive(Debug, Drop)]
pub struct TypedArm {
    pub label: TypedLabel,
    pub body: TypedStmt,
}
