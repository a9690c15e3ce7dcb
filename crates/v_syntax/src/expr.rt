use crate::{Based, Cast, Decimal, Ident};
use lz_base::{Boxed, Items};

/// An operator before its operand.
#[derive(Clone, Copy, Debug, PartialEq, Eq)]
pub enum UnaryOperator {
    Plus,
    Minus,
    /// `!`
    Not,
    /// `~`
    Invert,
    And,
    /// `~&`
    Nand,
    Or,
    /// `~|`
    Nor,
    Xor,
    /// `~^` or `^~`
    Xnor,
}

/// An operator between two operands.
#[derive(Clone, Copy, Debug, PartialEq, Eq)]
pub enum BinaryOperator {
    Multiply,
    Add,
    Subtract,
    /// `<<` or `<<<`
    ShiftLeft,
    /// `>>`
    ShiftRight,
    /// `>>>`
    ShiftRightSigned,
    Less,
    LessEqual,
    Greater,
    GreaterEqual,
    Equal,
    NotEqual,
    And,
    Xor,
    /// `~^` or `^~`
    Xnor,
    Or,
    /// `&&`
    AndAlso,
    /// `||`
    OrElse,
}

/// How a number is spelled.
#[derive(Debug, Drop)]
pub enum Spelling {
    /// Decimal digits alone.
    Decimal(Decimal),
    /// A base and its digits, without a size.
    Based(Based),
    /// A size, then a base and its digits.
    Sized(Decimal, Based),
}

/// A number and its first byte.
#[derive(Debug, Drop)]
pub struct Number {
    pub at: u64,
    pub spelling: Spelling,
}

/// How many levels of nesting stand below the first one at most: expressions, statements and the braces of targets
/// are nested 200 levels deep at most.
pub const INNER_LEVELS: u32 = 199;

/// An expression as it is written, without its parentheses.
#[derive(Debug, Drop)]
pub enum Expr {
    Number(Number),
    Name(Ident),
    /// `name[index]`, with the byte of the bracket.
    Select {
        name: Ident,
        bracket: u64,
        index: Boxed<Expr>,
    },
    /// `name[msb:lsb]`, with the byte of the bracket and the first byte of each bound.
    Part {
        name: Ident,
        bracket: u64,
        msb_at: u64,
        msb: Boxed<Expr>,
        lsb_at: u64,
        lsb: Boxed<Expr>,
    },
    Unary(UnaryOperator, Boxed<Expr>),
    /// Two or more operands of one level of precedence: the first, and each other one behind
    /// its operator. It associates to the left.
    Chain(Boxed<Expr>, Items<(BinaryOperator, Expr)>),
    /// `condition ? then : otherwise`
    Conditional(Boxed<Expr>, Boxed<Expr>, Boxed<Expr>),
    /// `{a, b}`, with the byte of the brace. The first part is the most significant.
    Concat {
        brace: u64,
        parts: Items<Expr>,
    },
    /// `{count{a, b}}`, with the bytes of both braces and the first byte of the count.
    Replicate {
        brace: u64,
        count_at: u64,
        count: Boxed<Expr>,
        inner_brace: u64,
        parts: Items<Expr>,
    },
    /// `$signed(a)` or `$unsigned(a)`
    Cast(Cast, Boxed<Expr>),
}

/// An expression and its first byte, which may be that of a parenthesis.
#[derive(Debug, Drop)]
pub struct Placed {
    pub at: u64,
    pub expr: Expr,
}

/// `[msb:lsb]` and the byte of its bracket.
#[derive(Debug, Drop)]
pub struct Range {
    pub bracket: u64,
    pub msb: Placed,
    pub lsb: Placed,
}
