ghost use Rattle.std.specs.Prelude.{◌≡◌, if◌then◌else◌, List};
ghost use Rattle.v_meaning.specs.Senses.{class_of, is_through};
ghost use Rattle.x_expr.specs.declared.node.Node.{Node};
ghost use Rattle.x_expr.specs.Nodes.{IsNode, answer_width, shape_of};

use std::hash::{Hash, Hasher};
use v_syntax::{BinaryOperator, UnaryOperator};

/// An operator before its operand, as a part of a node. Nodes that differ in it alone hash alike.
#[derive(Clone, Copy, Debug, PartialEq, Eq)]
pub struct Before(pub UnaryOperator);

impl Hash for Before {
    ghost use Rattle.std.specs.Prelude.{[], refl};

    ghost hash_input = { λ operator. [] };

    ghost respects_eq = { λ x y same. refl };

    fn hash<H: Hasher>(&self, state: &mut H) {}
}

/// An operator between its operands, as a part of a node. Nodes that differ in it alone hash alike.
#[derive(Clone, Copy, Debug, PartialEq, Eq)]
pub struct Between(pub BinaryOperator);

impl Hash for Between {
    ghost use Rattle.std.specs.Prelude.{[], refl};

    ghost hash_input = { λ operator. [] };

    ghost respects_eq = { λ x y same. refl };

    fn hash<H: Hasher>(&self, state: &mut H) {}
}

/// What a node stands for.
#[derive(Clone, Copy, Debug, PartialEq, Eq, Hash)]
pub enum Shape {
    /// A word of this width.
    Word(u32),
    /// A memory of so many words of this width.
    Memory(u32, u32),
}

/// A node: what is read, or an operation over nodes, which are numbers of an arena. Each width is written out.
#[derive(Clone, Copy, Debug, PartialEq, Eq, Hash)]
pub enum Node {
    /// A word of this width and value.
    Constant {
        width: u32,
        value: u128,
    },
    /// The word of an input other than the clock.
    Input {
        index: u32,
        width: u32,
    },
    /// The word of a variable before the edge.
    Variable {
        index: u32,
        width: u32,
    },
    /// The words of a memory before the edge.
    Memory {
        index: u32,
        count: u32,
        width: u32,
    },
    /// The bits of a site, which the source leaves open.
    Site {
        index: u32,
        width: u32,
    },
    /// An operator before an operand of this width (IEEE Std 1364-2005, 5.1.5 and 5.1.9 to 5.1.11).
    Unary {
        operator: Before,
        width: u32,
        operand: u64,
    },
    /// An operator between operands at this width and sign (5.1.5 to 5.1.10 and 5.1.12).
    Binary {
        operator: Between,
        width: u32,
        signed: bool,
        left: u64,
        right: u64,
    },
    /// `condition ? then : otherwise`, of words or of memories of this shape (5.1.13).
    Choose {
        shape: Shape,
        condition: u64,
        then: u64,
        otherwise: u64,
    },
    /// So many bits of a word, from the lowest one up; 0 where it has none (5.2.1).
    Part {
        low: u32,
        width: u32,
        operand: u64,
    },
    /// A word at a width that is no smaller: copies of its top bit stand above it where it is signed, else zeros (5.5.2).
    Extend {
        from: u32,
        to: u32,
        signed: bool,
        operand: u64,
    },
    /// Two words side by side, the left one more significant (5.1.14).
    Concat {
        left_width: u32,
        left: u64,
        right_width: u32,
        right: u64,
    },
    /// So many copies of a word side by side (5.1.14).
    Copies {
        count: u32,
        width: u32,
        operand: u64,
    },
    /// The word of a memory that has this number, from 0 at the lowest address; 0 where there are not so many (5.2.2).
    Read {
        count: u32,
        width: u32,
        memory: u64,
        index: u64,
    },
    /// A memory whose word of this number has become another; itself where there are not so many (5.2.2).
    Write {
        count: u32,
        width: u32,
        memory: u64,
        index: u64,
        value: u64,
    },
}

/// The width of what an operator before an operand of this width answers (5.4.1).
pub fn before_width(operator: Before, width: u32) -> u32
    ensures { result ≡ (if is_through operator.0 then width else 1) }
{
    match operator.0 {
        UnaryOperator::Plus => width,
        UnaryOperator::Minus => width,
        UnaryOperator::Invert => width,
        _ => 1,
    }
}

/// The width of what an operator between operands answers, where it works at this width (5.4.1).
pub fn between_width(operator: Between, width: u32) -> u32
    ensures { result ≡ answer_width (class_of operator.0) width }
{
    match operator.0 {
        BinaryOperator::Less => 1,
        BinaryOperator::LessEqual => 1,
        BinaryOperator::Greater => 1,
        BinaryOperator::GreaterEqual => 1,
        BinaryOperator::Equal => 1,
        BinaryOperator::NotEqual => 1,
        BinaryOperator::AndAlso => 1,
        BinaryOperator::OrElse => 1,
        _ => width,
    }
}

/// What a node of an arena stands for.
pub fn shape_of(node: Node) -> Shape
    requires { (nodes : List Node) × IsNode nodes node }
    ensures { result ≡ shape_of node }
{
    match node {
        Node::Constant { width, .. } => Shape::Word(width),
        Node::Input { width, .. } => Shape::Word(width),
        Node::Variable { width, .. } => Shape::Word(width),
        Node::Memory { count, width, .. } => Shape::Memory(count, width),
        Node::Site { width, .. } => Shape::Word(width),
        Node::Unary {
            operator,
            width,
            ..
        } => Shape::Word(before_width(operator, width)),
        Node::Binary {
            operator,
            width,
            ..
        } => Shape::Word(between_width(operator, width)),
        Node::Choose { shape, .. } => shape,
        Node::Part { width, .. } => Shape::Word(width),
        Node::Extend { to, .. } => Shape::Word(to),
        Node::Concat {
            left_width,
            right_width,
            ..
        } => Shape::Word(left_width + right_width),
        Node::Copies { count, width, .. } => Shape::Word(count * width),
        Node::Read { width, .. } => Shape::Word(width),
        Node::Write { count, width, .. } => Shape::Memory(count, width),
    }
}
