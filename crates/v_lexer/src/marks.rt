ghost use Rattle.std.specs.Prelude.{◌≡◌, ◌≢◌, ◌++◌, map, IfSome, IfNone, List, ℕ, IsFalse, false};
ghost use Rattle.v_syntax.specs.Tokens.{Begins};
ghost use Rattle.v_syntax.specs.Tokens.Piece.{Item};
ghost use Rattle.v_lexer.specs.Scan as scan;
ghost use Rattle.v_lexer.specs.Scan.{BeginsNoToken};

use crate::classes::Kind;
use v_syntax::{Lexeme, Mark};

// Longer ones first, so that the first that fits is the longest.
const MARKS: [(&[u8], Mark); 38] = [
    (b"<<<", Mark::ShiftLeftSigned),
    (b">>>", Mark::ShiftRightSigned),
    (b"&&", Mark::AndAnd),
    (b"||", Mark::OrOr),
    (b"==", Mark::EqualEqual),
    (b"!=", Mark::BangEqual),
    (b"<=", Mark::LessEqual),
    (b">=", Mark::GreaterEqual),
    (b"<<", Mark::ShiftLeft),
    (b">>", Mark::ShiftRight),
    (b"~&", Mark::TildeAmpersand),
    (b"~|", Mark::TildeBar),
    (b"~^", Mark::TildeCaret),
    (b"^~", Mark::CaretTilde),
    (b"(", Mark::OpenParen),
    (b")", Mark::CloseParen),
    (b";", Mark::Semicolon),
    (b",", Mark::Comma),
    (b"[", Mark::OpenBracket),
    (b"]", Mark::CloseBracket),
    (b"{", Mark::OpenBrace),
    (b"}", Mark::CloseBrace),
    (b":", Mark::Colon),
    (b".", Mark::Dot),
    (b"#", Mark::Hash),
    (b"@", Mark::At),
    (b"?", Mark::Question),
    (b"=", Mark::Equal),
    (b"+", Mark::Plus),
    (b"-", Mark::Minus),
    (b"*", Mark::Star),
    (b"!", Mark::Bang),
    (b"~", Mark::Tilde),
    (b"&", Mark::Ampersand),
    (b"|", Mark::Bar),
    (b"^", Mark::Caret),
    (b"<", Mark::Less),
    (b">", Mark::Greater),
];

// The first mark of the table with which the bytes begin, and its length.
fn mark_in(mut table: &[(&[u8], Mark)], bytes: &[u8]) -> Option<(Mark, usize)>
    ensures { result ≡ scan.mark_in (map (λ m. (m.0.now, m.1)) table.entry.now) bytes.now }
{
    while let [entry, rest @ ..] = table {
        if bytes.starts_with(entry.0) {
            return Some((entry.1, entry.0.len()));
        }
        table = rest;
    }
    None
}

#[tactic(auto, unfolding(crate::specs::Scan::marks))]
fn listed_mark(bytes: &[u8]) -> Option<(Mark, usize)>
    ensures { result ≡ scan.mark_in scan.marks bytes.now }
{
    mark_in(&MARKS, bytes)
}

/// The mark at the front, and what follows it.
#[tactic(auto, using(crate::proofs::Steps::mark_begins, crate::proofs::Steps::mark_within, crate::proofs::Steps::no_mark_token))]
pub fn mark(bytes: &[u8]) -> Option<(Lexeme, &[u8])>
    requires { scan.kind_of bytes.now ≡ Kind.Other }
    ensures found { IfSome result (λ f. Begins bytes.now f.1.now (Item f.0)) }
    ensures none { IfNone result (BeginsNoToken bytes.now) }
{
    match listed_mark(bytes) {
        Some((mark, length)) => {
            let (_, rest) = bytes.split_at(length);
            Some((Lexeme::Mark(mark), rest))
        }
        None => None,
    }
}
