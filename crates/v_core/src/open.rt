use crate::Typed;
use lz_base::{Boxed, Items};
use v_syntax::{BinaryOperator, UnaryOperator};

/// An expression whose final width and sign are open: they come down from where it stands (IEEE Std 1364-2005, 5.4.1).
#[derive(Debug, Drop)]
pub enum Body {
    /// What is extended from this width to the final one.
    Leaf(u32, Typed),
    /// What determines its width itself, also here.
    Own(Typed),
    /// An operator whose operand takes the final width and sign.
    Unary(UnaryOperator, Boxed<Body>),
    /// Operators whose operands take the final width and sign, but for those that determine themselves.
    Chain(Boxed<Body>, Items<(BinaryOperator, Body)>),
    /// `condition ? then : otherwise`
    Choice(Typed, Boxed<Body>, Boxed<Body>),
}

/// An expression with its own width and sign, and what it is at the final ones.
#[derive(Debug, Drop)]
pub struct Open {
    pub width: u32,
    pub signed: bool,
    pub body: Body,
}
