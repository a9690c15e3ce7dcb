ghost use Rattle.std.specs.Prelude.{◌≡◌, ◌≢◌, ◌+◌, ◌≤◌, false, length, map, IfOk, IfSome, IfNone, IsTrue, IsFalse, ℕ};
ghost use Rattle.lz_base.specs.Names.{is_name, IsNew};
ghost use Rattle.v_syntax.specs.Tokens.{keyword_spelling, cast_spelling, unused_words, HasForm, spelling, Begins};
ghost use Rattle.lz_base.specs.Names.{IsAmong};
ghost use Rattle.v_syntax.specs.Tokens.Piece.{Item};
ghost use Rattle.v_lexer.specs.Scan as scan;
ghost use Rattle.v_lexer.specs.Scan.{BeginsNoToken};

use crate::classes::{Class, Kind, split};
use lz_base::{Name, OutOfMemory};
use std::alloc::Global;
use v_syntax::{Cast, Keyword, Lexeme};

const KEYWORDS: [(&[u8], Keyword); 20] = [
    (b"module", Keyword::Module),
    (b"endmodule", Keyword::Endmodule),
    (b"input", Keyword::Input),
    (b"output", Keyword::Output),
    (b"wire", Keyword::Wire),
    (b"reg", Keyword::Reg),
    (b"signed", Keyword::Signed),
    (b"parameter", Keyword::Parameter),
    (b"localparam", Keyword::Localparam),
    (b"assign", Keyword::Assign),
    (b"always", Keyword::Always),
    (b"posedge", Keyword::Posedge),
    (b"begin", Keyword::Begin),
    (b"end", Keyword::End),
    (b"if", Keyword::If),
    (b"else", Keyword::Else),
    (b"case", Keyword::Case),
    (b"casez", Keyword::Casez),
    (b"endcase", Keyword::Endcase),
    (b"default", Keyword::Default),
];

// The reserved words that stand in no rule of the grammar.
const UNUSED_WORDS: [&[u8]; 46] = [
    b"inout",
    b"integer",
    b"real",
    b"realtime",
    b"time",
    b"initial",
    b"function",
    b"endfunction",
    b"task",
    b"endtask",
    b"generate",
    b"endgenerate",
    b"genvar",
    b"for",
    b"while",
    b"repeat",
    b"forever",
    b"wait",
    b"negedge",
    b"casex",
    b"tri",
    b"wand",
    b"wor",
    b"supply0",
    b"supply1",
    b"and",
    b"or",
    b"not",
    b"nand",
    b"nor",
    b"xor",
    b"xnor",
    b"buf",
    b"specify",
    b"endspecify",
    b"primitive",
    b"endprimitive",
    b"defparam",
    b"event",
    b"fork",
    b"join",
    b"disable",
    b"force",
    b"release",
    b"deassign",
    b"edge",
];

fn keyword_in(mut table: &[(&[u8], Keyword)], word: &[u8]) -> Option<Keyword>
    ensures { result ≡ scan.keyword_in (map (λ k. (k.0.now, k.1)) table.entry.now) word.now }
{
    while let [entry, rest @ ..] = table {
        if entry.0 == word {
            return Some(entry.1);
        }
        table = rest;
    }
    None
}

#[tactic(auto, unfolding(crate::specs::Scan::keywords))]
fn listed_keyword(word: &[u8]) -> Option<Keyword>
    ensures { result ≡ scan.keyword_in scan.keywords word.now }
{
    keyword_in(&KEYWORDS, word)
}

// The keyword that the word spells.
#[tactic(auto, using(crate::proofs::WordForms::keyword_is, crate::proofs::WordForms::no_keywords))]
fn keyword(word: &[u8]) -> Option<Keyword>
    ensures found { IfSome result (λ k. word.now ≡ keyword_spelling k) }
    ensures none { IfNone result ((k : Keyword) → word.now ≢ keyword_spelling k) }
{
    listed_keyword(word)
}

/// Whether the word is one of these.
pub fn is_in(mut words: &[&[u8]], word: &[u8]) -> bool
    ensures { result ≡ scan.is_in (map (λ w. w.now) words.entry.now) word.now }
{
    while let [other, rest @ ..] = words {
        if *other == word {
            return true;
        }
        words = rest;
    }
    false
}

#[tactic(auto, unfolding(v_syntax::specs::Tokens::unused_words))]
fn is_listed(word: &[u8]) -> bool
    ensures { result ≡ scan.is_in unused_words word.now }
{
    is_in(&UNUSED_WORDS, word)
}

// Whether the word is reserved and stands in no rule of the grammar.
#[tactic(auto, using(crate::proofs::WordForms::listed, crate::proofs::WordForms::not_listed))]
fn is_unused(word: &[u8]) -> bool
    ensures yes { IsTrue result → IsAmong word.now unused_words }
    ensures no { result ≡ false → IsNew word.now unused_words }
{
    is_listed(word)
}

fn word_lexeme(alloc: Global, word: &[u8]) -> Result<Lexeme, OutOfMemory>
    requires { IsTrue (is_name word.now) }
    ensures form { IfOk result HasForm }
    ensures bytes { IfOk result (λ w. spelling w ≡ word.now) }
{
    if let Some(keyword) = keyword(word) {
        return Ok(Lexeme::Keyword(keyword));
    }
    let name = Name::new(alloc, word)?;
    if is_unused(word) {
        Ok(Lexeme::Reserved(name))
    } else {
        Ok(Lexeme::Identifier(name))
    }
}

/// The identifier or reserved word at the front, and what follows it.
#[tactic(auto, using(crate::proofs::Steps::front_is_name))]
pub fn word(alloc: Global, bytes: &[u8]) -> Result<(Lexeme, &[u8]), OutOfMemory>
    requires { scan.kind_of bytes.now ≡ Kind.Word }
    ensures { IfOk result (λ f. Begins bytes.now f.1.now (Item f.0)) }
{
    let (word, rest) = split(Class::Name, bytes);
    Ok((word_lexeme(alloc, word)?, rest))
}

// The system function that the word spells.
#[tactic(auto, unfolding(v_syntax::specs::Tokens::cast_spelling))]
fn cast_of(word: &[u8]) -> Option<Cast>
    ensures found { IfSome result (λ c. word.now ≡ cast_spelling c) }
    ensures none { IfNone result ((c : Cast) → word.now ≢ cast_spelling c) }
{
    if word == b"$signed".as_slice() {
        Some(Cast::Signed)
    } else if word == b"$unsigned".as_slice() {
        Some(Cast::Unsigned)
    } else {
        None
    }
}

/// The system function at the front, and what follows it.
pub fn cast(bytes: &[u8]) -> Option<(Lexeme, &[u8])>
    requires { scan.kind_of bytes.now ≡ Kind.Cast }
    ensures found { IfSome result (λ f. Begins bytes.now f.1.now (Item f.0)) }
    ensures none { IfNone result (BeginsNoToken bytes.now) }
{
    let (word, rest) = split(Class::Name, bytes);
    match cast_of(word) {
        Some(cast) => Some((Lexeme::Cast(cast), rest)),
        None => None,
    }
}
