ghost use Rattle.std.specs.Prelude.{◌≡◌, ◌++◌, IfOk, IfSome, IfNone, Option, option_map};
ghost use Rattle.std.specs.Option.{option_copied};
ghost use Rattle.v_syntax.specs.Numbers.{IsBased};
ghost use Rattle.v_syntax.specs.Tokens.{Begins};
ghost use Rattle.v_syntax.specs.Tokens.Piece.{Item};
ghost use Rattle.v_lexer.specs.Scan as scan;
ghost use Rattle.v_lexer.specs.Scan.{BeginsNoToken};

use crate::classes::{Class, Kind, after, is_base, is_digit_of, split};
use lz_base::OutOfMemory;
use std::alloc::Global;
use v_syntax::{Based, Decimal, Lexeme};

/// The number without a base at the front, and what follows it.
#[tactic(auto, using(crate::proofs::Steps::front_is_plain))]
pub fn decimal(alloc: Global, bytes: &[u8]) -> Result<(Lexeme, &[u8]), OutOfMemory>
    requires { scan.kind_of bytes.now ≡ Kind.Decimal }
    ensures { IfOk result (λ f. Begins bytes.now f.1.now (Item f.0)) }
{
    let (digits, rest) = split(Class::Decimal, bytes);
    Ok((Lexeme::Decimal(Decimal::new(alloc, digits)?), rest))
}

fn after_sign(bytes: &[u8]) -> &[u8]
    ensures { result.now ≡ scan.after_sign bytes.now }
{
    match bytes.split_first() {
        Some((b's' | b'S', rest)) => rest,
        _ => bytes,
    }
}

fn base_letter(bytes: &[u8]) -> Option<(u8, &[u8])>
    ensures { option_map (λ b. (b.0, b.1.now)) result ≡ scan.base_letter bytes.now }
{
    match bytes.split_first() {
        Some((letter, rest)) if is_base(*letter) => Some((*letter, rest)),
        _ => None,
    }
}

// The base's letter, and what follows it.
fn base_of(bytes: &[u8]) -> Option<(u8, &[u8])>
    ensures { option_map (λ b. (b.0, b.1.now)) result ≡ scan.base_of bytes.now }
{
    match bytes.split_first() {
        Some((b'\'', rest)) => base_letter(after_sign(rest)),
        _ => None,
    }
}

fn after_digits(base: u8, bytes: &[u8]) -> Option<&[u8]>
    ensures { option_copied result ≡ scan.after_digits base bytes.now }
{
    match bytes.split_first() {
        Some((first, rest)) if is_digit_of(base, *first) => Some(after(
            Class::Digits(base, *first),
            rest,
        )),
        _ => None,
    }
}

fn after_based(bytes: &[u8]) -> Option<&[u8]>
    ensures { option_copied result ≡ scan.after_based bytes.now }
{
    match base_of(bytes) {
        Some((base, rest)) => after_digits(base, after(Class::White, rest)),
        None => None,
    }
}

// The bytes of the based number at the front, and what follows it.
#[tactic(auto, using(crate::proofs::BasedNumbers::based_split, crate::proofs::BasedNumbers::based_form, crate::proofs::BasedNumbers::based_within))]
fn split_based(bytes: &[u8]) -> Option<(&[u8], &[u8])>
    ensures rest { option_map (λ f. f.1.now) result ≡ scan.after_based bytes.now }
    ensures front { IfSome result (λ f. bytes.now ≡ f.0.now ++ f.1.now) }
    ensures form { IfSome result (λ f. IsBased f.0.now) }
{
    match after_based(bytes) {
        Some(rest) => Some((&bytes[..bytes.len() - rest.len()], rest)),
        None => None,
    }
}

/// The number with a base at the front, and what follows it.
#[tactic(auto, using(crate::proofs::BasedNumbers::based_begins, crate::proofs::BasedNumbers::no_based))]
pub fn based(alloc: Global, bytes: &[u8]) -> Result<Option<(Lexeme, &[u8])>, OutOfMemory>
    requires { scan.kind_of bytes.now ≡ Kind.Based }
    ensures found { IfOk result (λ o. IfSome o (λ f. Begins bytes.now f.1.now (Item f.0))) }
    ensures none { IfOk result (λ o. IfNone o (BeginsNoToken bytes.now)) }
{
    match split_based(bytes) {
        Some((number, rest)) => Ok(Some((Lexeme::Based(Based::new(alloc, number)?), rest))),
        None => Ok(None),
    }
}
