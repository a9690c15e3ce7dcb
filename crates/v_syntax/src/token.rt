use crate::{Based, Decimal};
use lz_base::Name;

/// A reserved word that the grammar uses.
#[derive(Clone, Copy, Debug, PartialEq, Eq)]
pub enum Keyword {
    Module,
    Endmodule,
    Input,
    Output,
    Wire,
    Reg,
    Signed,
    Parameter,
    Localparam,
    Assign,
    Always,
    Posedge,
    Begin,
    End,
    If,
    Else,
    Case,
    Casez,
    Endcase,
    Default,
}

/// A mark of punctuation or an operator.
#[derive(Clone, Copy, Debug, PartialEq, Eq)]
pub enum Mark {
    OpenParen,
    CloseParen,
    OpenBracket,
    CloseBracket,
    OpenBrace,
    CloseBrace,
    Semicolon,
    Colon,
    Comma,
    Dot,
    Hash,
    At,
    Question,
    Equal,
    Plus,
    Minus,
    Star,
    Bang,
    Tilde,
    Ampersand,
    Bar,
    Caret,
    Less,
    Greater,
    AndAnd,
    OrOr,
    EqualEqual,
    BangEqual,
    LessEqual,
    GreaterEqual,
    ShiftLeft,
    ShiftRight,
    ShiftLeftSigned,
    ShiftRightSigned,
    TildeAmpersand,
    TildeBar,
    TildeCaret,
    CaretTilde,
}

/// A system function that changes the sign of an expression.
#[derive(Clone, Copy, Debug, PartialEq, Eq)]
pub enum Cast {
    Signed,
    Unsigned,
}

/// What a token is, with its bytes where the kind leaves them open.
#[derive(Debug, Drop)]
pub enum Lexeme {
    /// An identifier: a name that is no reserved word.
    Identifier(Name),
    Keyword(Keyword),
    /// A reserved word that stands in no rule of the grammar.
    Reserved(Name),
    Cast(Cast),
    /// A decimal number, which may be the size of a based one.
    Decimal(Decimal),
    /// A base and its digits.
    Based(Based),
    Mark(Mark),
}

/// A token and the byte at which it begins.
#[derive(Debug, Drop)]
pub struct Token {
    pub lexeme: Lexeme,
    pub at: u64,
}

/// A name of the source and the byte at which it begins.
#[derive(Debug, Drop)]
pub struct Ident {
    pub name: Name,
    pub at: u64,
}
