//! The syntax of the source language: tokens, and the modules that they derive.
//!
//! It stands on `lz_base`. It has the types of tokens and of the syntax tree, and in its `specs/` the relations from the
//! bytes of a file to its tokens and from these to the module. Promised are: a number keeps the form of its kind, and
//! `Tokens` keeps the forms of its tokens and their places in order.
#![tactic(auto)]

mod digits;
mod expr;
mod module;
mod small;
mod stmt;
mod token;
mod tokens;

pub use digits::{Based, Decimal};
pub use expr::{
    BinaryOperator, Expr, INNER_LEVELS, Number, Placed, Range, Spelling, UnaryOperator,
};
pub use module::{
    Declared, Event, Item, Module, ParameterGroup, PortGroup, PortKind, Setting, Variable,
};
pub use small::{SmallExpr, SmallModule, SmallOperand, SmallOperator, SmallPort};
pub use stmt::{Arm, AssignKind, CaseKind, Label, Stmt, Target};
pub use token::{Cast, Ident, Keyword, Lexeme, Mark, Token};
pub use tokens::Tokens;
