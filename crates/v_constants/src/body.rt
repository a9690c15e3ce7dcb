use lz_base::{Boxed, Items};
use v_syntax::{BinaryOperator, UnaryOperator};

/// A constant whose final width and sign are open: they come down from where it stands (IEEE Std 1364-2005, 5.4.1). What
/// determines its width itself is a value already.
#[derive(Debug, Drop)]
pub enum Body {
    /// A value that is extended from this width to the final one.
    Leaf(u32, u128),
    /// An operator whose operand takes the final width and sign.
    Unary(UnaryOperator, Boxed<Body>),
    /// Operators whose operands take the final width and sign, behind a first operand.
    Chain(Boxed<Body>, Items<(BinaryOperator, Body)>),
    /// Shifts by so much each, behind a first operand, which takes the final width and sign.
    Shifts(Boxed<Body>, Items<(BinaryOperator, u128)>),
}

/// A constant with its own width and sign, and what it is at the final ones.
#[derive(Debug, Drop)]
pub struct Open {
    pub width: u32,
    pub signed: bool,
    pub body: Body,
}
