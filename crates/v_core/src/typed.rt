use lz_base::{Boxed, Items};
use v_meaning::Literal;
use v_syntax::{BinaryOperator, UnaryOperator};

/// An operator between what stands before it and its right operand, with the width and sign of its operands; of a shift
/// with those of its left operand (IEEE Std 1364-2005, 5.4.1).
#[derive(Clone, Copy, Debug, PartialEq, Eq)]
pub struct Link {
    pub operator: BinaryOperator,
    pub width: u32,
    pub signed: bool,
}

/// An expression each of whose widths is written out. A name is its number in the list of declared names, with the byte
/// where it is read; a site is its number in the list of sites. One level of a chain, and of a concatenation, is a list.
#[derive(Debug, Drop)]
pub enum Typed {
    /// A word of this width and value.
    Constant(u32, u128),
    /// A number with open bits, and its site (3.5.1).
    Number(Literal, u32),
    /// The word of a name.
    Name {
        name: u32,
        at: u64,
    },
    /// A bit of a vector or a word of a memory, at an index of this width and sign; the bits of the site where the index
    /// is out of range (5.2.1 and 5.2.2).
    Select {
        name: u32,
        at: u64,
        site: u32,
        width: u32,
        signed: bool,
        index: Boxed<Typed>,
    },
    /// So many bits of a vector, from the lowest one up, which is counted from the vector's lowest bit (5.2.1).
    Part {
        name: u32,
        at: u64,
        low: u32,
        width: u32,
    },
    /// The operand at a greater width: copies of its top bit stand above it where it is signed, else zeros (5.5.2).
    Extend {
        from: u32,
        to: u32,
        signed: bool,
        operand: Boxed<Typed>,
    },
    /// An operator before an operand of this width.
    Unary(UnaryOperator, u32, Boxed<Typed>),
    /// The first operand, and each other one behind its operator. It associates to the left (5.1.2). What stands before
    /// an operator may be narrower than the operator's width, as a comparison is; then zeros stand above it.
    Chain(Boxed<Typed>, Items<(Link, Typed)>),
    /// `condition ? then : otherwise`, of which the last two have this width (5.1.13).
    Choice {
        width: u32,
        condition: Boxed<Typed>,
        then: Boxed<Typed>,
        otherwise: Boxed<Typed>,
    },
    /// Operands side by side, each with its width; the first is the most significant (5.1.14).
    Concat(Items<(u32, Typed)>),
    /// So many copies of an operand of this width side by side (5.1.14).
    Copies {
        count: u32,
        width: u32,
        operand: Boxed<Typed>,
    },
}
