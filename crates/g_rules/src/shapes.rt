use lz_base::Num;

/// An `and` or an `xor` of two literals.
///
/// A literal is `2n` for node n, and `2n + 1` for its inverse. Node 0 is the constant 0.
#[derive(Clone, Copy, Debug, PartialEq, Eq)]
pub enum Shape {
    And(Num, Num),
    Xor(Num, Num),
}

/// What a rule makes of a shape: nothing, a literal, or a shape that is an `and` or an `xor`, the latter inverted where
/// it says so.
#[derive(Clone, Copy, Debug, PartialEq, Eq)]
pub enum Rewrite {
    Keep,
    Literal(Num),
    And(Num, Num),
    Xor { a: Num, b: Num, invert: bool },
}

/// A shape and the gates below it: `left` is the `and` or `xor` gate at the node of the shape's first literal, and
/// `right` that at the node of the second. They are None where the node is no such gate.
#[derive(Clone, Copy, Debug, PartialEq, Eq)]
pub struct Deep {
    pub shape: Shape,
    pub left: Option<Shape>,
    pub right: Option<Shape>,
}
