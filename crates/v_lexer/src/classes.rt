ghost use Rattle.std.specs.Prelude.{◌≡◌};
ghost use Rattle.v_syntax.specs.Numbers as numbers;
ghost use Rattle.v_lexer.specs.Scan as scan;

use lz_base::{is_name_byte, is_name_start};

/// What a piece is, as its first byte tells.
#[derive(Clone, Copy, Debug)]
pub enum Kind {
    Word,
    Decimal,
    White,
    Based,
    Cast,
    Slash,
    Backquote,
    Other,
    End,
}

/// Bytes that run on.
#[derive(Clone, Copy, Debug)]
pub enum Class {
    Name,
    White,
    Line,
    Decimal,
    /// Behind the first digit of a number with the base's letter.
    Digits(u8, u8),
}

pub fn is_white(byte: u8) -> bool
    ensures { result ≡ numbers.is_white byte }
{
    byte == b' ' || byte == b'\t' || byte == b'\n' || byte == 12 || byte == b'\r'
}

fn is_digit(byte: u8) -> bool
    ensures { result ≡ numbers.is_digit byte }
{
    48 <= byte && byte <= 57
}

fn is_unknown_digit(byte: u8) -> bool
    ensures { result ≡ numbers.is_unknown_digit byte }
{
    byte == b'x' || byte == b'X' || byte == b'z' || byte == b'Z' || byte == b'?'
}

fn is_binary(letter: u8) -> bool
    ensures { result ≡ numbers.is_binary letter }
{
    letter == b'b' || letter == b'B'
}

fn is_octal(letter: u8) -> bool
    ensures { result ≡ numbers.is_octal letter }
{
    letter == b'o' || letter == b'O'
}

fn is_decimal(letter: u8) -> bool
    ensures { result ≡ numbers.is_decimal letter }
{
    letter == b'd' || letter == b'D'
}

pub fn is_base(letter: u8) -> bool
    ensures { result ≡ numbers.is_base letter }
{
    is_binary(letter) || is_octal(letter) || is_decimal(letter) || letter == b'h' || letter == b'H'
}

fn is_known_digit_of(base: u8, byte: u8) -> bool
    ensures { result ≡ numbers.is_known_digit_of base byte }
{
    if is_binary(base) {
        48 <= byte && byte <= 49
    } else if is_octal(base) {
        48 <= byte && byte <= 55
    } else if is_decimal(base) {
        is_digit(byte)
    } else {
        is_digit(byte) || (97 <= byte && byte <= 102) || (65 <= byte && byte <= 70)
    }
}

pub fn is_digit_of(base: u8, byte: u8) -> bool
    ensures { result ≡ numbers.is_digit_of base byte }
{
    is_unknown_digit(byte) || is_known_digit_of(base, byte)
}

fn is_later_digit(base: u8, first: u8, byte: u8) -> bool
    ensures { result ≡ numbers.is_later_digit base first byte }
{
    if byte == b'_' {
        true
    } else if is_decimal(base) {
        is_digit(first) && is_digit(byte)
    } else {
        is_digit_of(base, byte)
    }
}

fn is_in(class: Class, byte: u8) -> bool
    ensures { result ≡ scan.passes class byte }
{
    match class {
        Class::Name => is_name_byte(byte),
        Class::White => is_white(byte),
        Class::Line => byte != b'\n',
        Class::Decimal => is_digit(byte) || byte == b'_',
        Class::Digits(base, first) => is_later_digit(base, first, byte),
    }
}

fn kind_of_byte(byte: u8) -> Kind
    ensures { result ≡ scan.kind_of_byte byte }
{
    if is_name_start(byte) {
        Kind::Word
    } else if is_digit(byte) {
        Kind::Decimal
    } else if is_white(byte) {
        Kind::White
    } else {
        match byte {
            b'\'' => Kind::Based,
            b'$' => Kind::Cast,
            b'/' => Kind::Slash,
            b'`' => Kind::Backquote,
            _ => Kind::Other,
        }
    }
}

/// What the piece at the front is, if it is one.
pub fn kind_of(bytes: &[u8]) -> Kind
    ensures { result ≡ scan.kind_of bytes.now }
{
    match bytes.split_first() {
        Some((first, _)) => kind_of_byte(*first),
        None => Kind::End,
    }
}

/// What is left behind the bytes of a class at the front.
pub fn after(class: Class, bytes: &[u8]) -> &[u8]
    ensures { result.now ≡ scan.rest_of (scan.passes class) bytes.now }
{
    let mut left = bytes;
    while let Some((first, rest)) = left.split_first() {
        if !is_in(class, *first) {
            break;
        }
        left = rest;
    }
    left
}

/// The bytes of a class at the front, and what follows them.
#[tactic(auto, using(crate::proofs::Runs::front_is_taken, crate::proofs::Runs::rest_fits))]
pub fn split(class: Class, bytes: &[u8]) -> (&[u8], &[u8])
    ensures front { result.0.now ≡ scan.front_of (scan.passes class) bytes.now }
    ensures rest { result.1.now ≡ scan.rest_of (scan.passes class) bytes.now }
{
    let rest = after(class, bytes);
    (&bytes[..bytes.len() - rest.len()], rest)
}
