ghost use Rattle.std.specs.Prelude.{◌≡◌, ◌∷◌, map, IfOk, IfSome};
ghost use Rattle.v_syntax.specs.Small.{seen, word, mark, name};
ghost use Rattle.v_small.specs.Reading.{Shows, mark_at, word_at, name_at};

use lz_base::OutOfMemory;
use std::alloc::Global;
use v_syntax::{Ident, Keyword, Lexeme, Mark, Token};

// The tokens behind this mark.
pub(crate) fn after_mark(tokens: &[Token], wanted: Mark) -> Option<&[Token]>
    ensures found { IfSome result (λ rest. map seen tokens.now ≡ mark wanted ∷ map seen rest.now) }
    ensures same { Shows (λ rest. map seen rest.now) result (mark_at wanted (map seen tokens.now)) }
{
    let (first, rest) = tokens.split_first()?;
    match &first.lexeme {
        Lexeme::Mark(found) if *found == wanted => Some(rest),
        _ => None,
    }
}

// The tokens behind this reserved word.
pub(crate) fn after_word(tokens: &[Token], wanted: Keyword) -> Option<&[Token]>
    ensures found { IfSome result (λ rest. map seen tokens.now ≡ word wanted ∷ map seen rest.now) }
    ensures same { Shows (λ rest. map seen rest.now) result (word_at wanted (map seen tokens.now)) }
{
    let (first, rest) = tokens.split_first()?;
    match &first.lexeme {
        Lexeme::Keyword(found) if *found == wanted => Some(rest),
        _ => None,
    }
}

// A name, and the tokens behind it.
pub(crate) fn take_name(
    alloc: Global,
    tokens: &[Token],
) -> Result<Option<(Ident, &[Token])>, OutOfMemory>
    ensures found { IfOk result (λ o. IfSome o (λ f. map seen tokens.now ≡ name f.0 ∷ map seen f.1.now)) }
    ensures same { IfOk result (λ o. Shows (λ f. (f.0, map seen f.1.now)) o (name_at (map seen tokens.now))) }
{
    let Some((first, rest)) = tokens.split_first() else {
        return Ok(None);
    };
    match &first.lexeme {
        Lexeme::Identifier(spelled) => {
            let copy = spelled.copy(alloc)?;
            Ok(Some((
                Ident {
                    name: copy,
                    at: first.at,
                },
                rest,
            )))
        }
        _ => Ok(None),
    }
}
