ghost use Rattle.std.specs.Prelude.{◌≡◌, ℕ, List, IfSome, IfNone};
ghost use Rattle.std.specs.Option.{option_copied};
ghost use Rattle.v_syntax.specs.Tokens.{Piece, Begins, skipped_words};
ghost use Rattle.v_lexer.specs.Scan as scan;
ghost use Rattle.v_lexer.specs.Scan.{IsGap, Skips};

use crate::classes::{Class, after, is_white, split};
use crate::words::is_in;

// The directives whose lines are skipped.
const SKIPPED_WORDS: [&[u8]; 2] = [b"timescale", b"default_nettype"];

// What follows the next `*/`.
fn after_close(bytes: &[u8]) -> Option<&[u8]>
    ensures { option_copied result ≡ scan.after_close bytes.now }
{
    let mut left = bytes;
    while let Some((first, rest)) = left.split_first() {
        if *first == b'*' {
            if let Some((b'/', behind)) = rest.split_first() {
                return Some(behind);
            }
        }
        left = rest;
    }
    None
}

// What follows a comment, behind its first slash.
fn after_comment(bytes: &[u8]) -> Option<&[u8]>
    ensures { option_copied result ≡ scan.after_comment bytes.now }
{
    match bytes.split_first() {
        Some((b'/', body)) => Some(after(Class::Line, body)),
        Some((b'*', body)) => after_close(body),
        _ => None,
    }
}

#[tactic(auto, unfolding(v_syntax::specs::Tokens::skipped_words))]
fn is_skipped(word: &[u8]) -> bool
    ensures { result ≡ scan.is_in skipped_words word.now }
{
    is_in(&SKIPPED_WORDS, word)
}

// What follows a skipped line, behind its backquote.
fn after_directive(bytes: &[u8]) -> Option<&[u8]>
    ensures { option_copied result ≡ scan.after_directive bytes.now }
{
    let (word, rest) = split(Class::Name, bytes);
    if is_skipped(word) {
        Some(after(Class::Line, rest))
    } else {
        None
    }
}

fn after_one(bytes: &[u8]) -> Option<&[u8]>
    ensures { option_copied result ≡ scan.after_gap bytes.now }
{
    let (first, rest) = bytes.split_first()?;
    match *first {
        b'/' => after_comment(rest),
        b'`' => after_directive(rest),
        byte if is_white(byte) => Some(rest),
        _ => None,
    }
}

/// What follows the white space byte, comment or skipped line at the front.
#[tactic(auto, using(crate::proofs::Between::gap_skips, crate::proofs::Between::no_gap))]
pub fn after_gap(bytes: &[u8]) -> Option<&[u8]>
    ensures found { IfSome result (λ rest. Skips bytes.now rest.now) }
    ensures none { IfNone result ((gap : Piece) (more : List ℕ) → IsGap gap → Begins bytes.now more gap → ⊥) }
{
    after_one(bytes)
}
