use v_syntax::{Expr, Ident, Number, Target};

/// What the rules of names and expressions look at: a name, a number or a construct at its place in a module.
#[derive(Clone, Copy, Debug)]
pub enum Occurrence<'a> {
    /// A name is declared.
    Declares(&'a Ident),
    /// The value of a parameter ends.
    Valued(&'a Ident),
    /// A name is used by itself.
    Bare(&'a Ident),
    /// A name is used with an index.
    Indexed(&'a Ident),
    /// A name is used with bounds: the most and the least significant one.
    PartOf(&'a Ident, &'a Expr, &'a Expr),
    /// A number, and whether it is by itself an item of a `casez`.
    Digits(bool, &'a Number),
    /// The place of a number without a size that is a part of a concatenation or replication.
    UnsizedPart(u64),
    /// The brace of a concatenation, and its parts.
    Joined(u64, &'a [Expr]),
    /// The outer brace of a replication, its count, and its parts.
    Replicated(u64, &'a Expr, &'a [Expr]),
    /// The brace of a concatenation that is a target, and its parts.
    JoinedTargets(u64, &'a [Target]),
    /// The place of a `default` behind another one of the same case.
    Again(u64),
}
