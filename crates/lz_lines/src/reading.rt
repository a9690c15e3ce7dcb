ghost use Rattle.std.specs.Prelude.{true, ◌≡◌, ℕ, ◌+◌, ◌-◌, ◌*◌, ◌^◌, ◌<◌, ◌≤◌, ◌++◌, ◌∷◌, [], List, length, IfOk, IfErr, OnOk, IsOk, IfSome, IfNone, Err};
ghost use Rattle.lz_lines.specs.Readers.{is_digit};
ghost use Rattle.lz_lines.specs.Fields.{IsHex, IsNumber, IsWord, field, hex, number};
ghost use Rattle.lz_lines.specs.Forms.{Anything, Parted, Reads};
ghost use Rattle.lz_lines.specs.Digits.{Tells, decimal_at, more_digits, goes_on, is_first, is_hex, hex_value, is_top, hex_at, more_hex};

use thiserror::Error;

/// The bytes go on as no text can: so many are left at the first wrong byte, none where they only end too soon.
#[derive(Clone, Copy, Debug, PartialEq, Eq, Error)]
#[error("unreadable with {left} bytes left")]
pub struct Broken {
    pub left: usize,
}

/// Takes a fixed word from the front, and gives what is left after it. The fault is at the first byte that differs.
pub fn read_word<'a>(bytes: &'a [u8], word: &[u8]) -> Result<&'a [u8], Broken>
    ensures found { IfOk result (λ rest. bytes.now ≡ word.now ++ rest.now) }
    ensures left { IfErr result (λ e. e.left ≤ length bytes.now) }
    ensures reads { Reads (IsWord word.now) Anything (λ _. tt) (λ r. r.now) bytes.now result }
{
    let Some((letter, letters)) = word.split_first() else {
        return Ok(bytes);
    };
    match bytes.split_first() {
        Some((byte, rest)) if *byte == *letter => read_word(rest, letters),
        _ => Err(Broken { left: bytes.len() }),
    }
}

/// Says that nothing is left. The fault is at the first byte.
pub fn read_end(bytes: &[u8]) -> Result<(), Broken>
    ensures found { OnOk result (bytes.now ≡ []) }
    ensures only { bytes.now ≡ [] → IsOk result }
    ensures left { IfErr result (λ e. e.left ≡ length bytes.now) }
{
    if bytes.is_empty() {
        Ok(())
    } else {
        Err(Broken { left: bytes.len() })
    }
}

/// Takes a blank and a decimal number between `low`, which is 0 or 1, and `high`, and gives what is left after it. The
/// number ends where one more digit would make it greater than `high`, and after a leading 0. The fault is at the blank
/// or at the first digit.
pub fn read_number<'a>(bytes: &'a [u8], low: u128, high: u128) -> Result<(u128, &'a [u8]), Broken>
    requires low { low ≤ 1 }
    requires high { low ≤ high }
    ensures found { IfOk result (λ r. (low ≤ r.0) × (r.0 ≤ high) × (bytes.now ≡ number r.0 ++ r.1.now)) }
    ensures left { IfErr result (λ e. e.left ≤ length bytes.now) }
    ensures reads { Reads (IsNumber low high) Parted (λ r. r.0) (λ r. r.1.now) bytes.now result }
{
    match after_blank(bytes) {
        Some(rest) => decimal(rest, low, high),
        None => Err(Broken { left: bytes.len() }),
    }
}

/// What is left after a blank, where one stands at the front.
pub(crate) fn after_blank(bytes: &[u8]) -> Option<&[u8]>
    ensures found { IfSome result (λ rest. bytes.now ≡ 32 ∷ rest.now) }
    ensures only { IfNone result ((rest : List ℕ) → bytes.now ≡ 32 ∷ rest → ⊥) }
{
    match bytes.split_first() {
        Some((byte, rest)) if *byte == b' ' => Some(rest),
        _ => None,
    }
}

// Takes a decimal number.
fn decimal<'a>(bytes: &'a [u8], low: u128, high: u128) -> Result<(u128, &'a [u8]), Broken>
    ensures { Tells (λ r. (r.0, r.1.now)) result (decimal_at low high bytes.now) }
{
    match bytes.split_first() {
        Some((digit, rest)) if is_first(*digit, low, high) => Ok(more_digits(
            rest,
            u128::from(*digit - b'0'),
            high,
        )),
        _ => Err(Broken { left: bytes.len() }),
    }
}

// Takes the digits with which a number goes on.
fn more_digits<'a>(bytes: &'a [u8], value: u128, high: u128) -> (u128, &'a [u8])
    ensures { more_digits high value bytes.now ≡ (result.0, result.1.now) }
{
    let mut read = value;
    let mut left = bytes;
    while let Some((digit, rest)) = next_digit(left, read, high) {
        read = read * 10 + u128::from(digit);
        left = rest;
    }
    (read, left)
}

// The digit with which a number goes on, and what is left after it.
fn next_digit(bytes: &[u8], value: u128, high: u128) -> Option<(u8, &[u8])>
    ensures digit { IfSome result (λ r. value * 10 + r.0 ≤ high) }
    ensures shorter { IfSome result (λ r. length r.1.now < length bytes.now) }
    ensures found { IfSome result (λ r. more_digits high value bytes.now ≡ more_digits high (value * 10 + r.0) r.1.now) }
    ensures none { IfNone result (more_digits high value bytes.now ≡ (value, bytes.now)) }
{
    match bytes.split_first() {
        Some((digit, rest)) if goes_on(*digit, value, high) => Some((*digit - b'0', rest)),
        _ => None,
    }
}

fn is_digit(byte: u8) -> bool
    ensures { result ≡ is_digit byte }
{
    b'0' <= byte && byte <= b'9'
}

fn is_first(byte: u8, low: u128, high: u128) -> bool
    ensures { result ≡ is_first low high byte }
{
    is_digit(byte) && low <= u128::from(byte - b'0') && u128::from(byte - b'0') <= high
}

fn goes_on(byte: u8, value: u128, high: u128) -> bool
    ensures { result ≡ goes_on high value byte }
{
    is_digit(byte)
        && 0 < value
        && value <= u128::MAX / 10
        && u128::from(byte - b'0') <= high
        && value * 10 <= high - u128::from(byte - b'0')
}

/// Takes a blank and a number of `width` bits in lower-case hexadecimal, and gives what is left after it. The fault is
/// at the blank or at the first wrong digit, which the first digit also is where it has bits beyond the width.
pub fn read_hex<'a>(bytes: &'a [u8], width: u32) -> Result<(u128, &'a [u8]), Broken>
    requires low { 1 ≤ width }
    requires high { width ≤ 128 }
    ensures found { IfOk result (λ r. (r.0 < 2 ^ width) × (bytes.now ≡ field (hex width r.0) ++ r.1.now)) }
    ensures left { IfErr result (λ e. e.left ≤ length bytes.now) }
    ensures reads { Reads (IsHex width) Anything (λ r. r.0) (λ r. r.1.now) bytes.now result }
{
    match after_blank(bytes) {
        Some(rest) => hexadecimal(rest, width),
        None => Err(Broken { left: bytes.len() }),
    }
}

// Takes a hexadecimal number.
fn hexadecimal<'a>(bytes: &'a [u8], width: u32) -> Result<(u128, &'a [u8]), Broken>
    requires low { 1 ≤ width }
    requires high { width ≤ 128 }
    ensures read { Tells (λ r. (r.0, r.1.now)) result (hex_at width bytes.now) }
    ensures left { IfErr result (λ e. e.left ≤ length bytes.now) }
{
    match bytes.split_first() {
        Some((digit, rest)) if is_top(*digit, width) => more_hex(
            rest,
            (width + 3) / 4 - 1,
            u128::from(hex_value(*digit)),
        ),
        _ => Err(Broken { left: bytes.len() }),
    }
}

// Takes so many more hexadecimal digits.
fn more_hex<'a>(bytes: &'a [u8], count: u32, value: u128) -> Result<(u128, &'a [u8]), Broken>
    requires few { count ≤ 32 }
    requires room { value < 2 ^ (128 - 4 * count) }
    ensures read { Tells (λ r. (r.0, r.1.now)) result (more_hex count value bytes.now) }
    ensures left { IfErr result (λ e. e.left ≤ length bytes.now) }
{
    let mut read = value;
    let mut left = bytes;
    for _ in 0..count {
        let Some((digit, rest)) = next_hex(left) else {
            return Err(Broken { left: left.len() });
        };
        read = read * 16 + u128::from(digit);
        left = rest;
    }
    Ok((read, left))
}

// The hexadecimal digit at the front, and what is left after it.
fn next_hex(bytes: &[u8]) -> Option<(u8, &[u8])>
    ensures digit { IfSome result (λ r. r.0 < 16) }
    ensures shorter { IfSome result (λ r. length r.1.now < length bytes.now) }
    ensures found { IfSome result (λ r. (count n : ℕ) → more_hex (count + 1) n bytes.now ≡ more_hex count (n * 16 + r.0) r.1.now) }
    ensures none { IfNone result ((count n : ℕ) → more_hex (count + 1) n bytes.now ≡ Err (length bytes.now)) }
{
    match bytes.split_first() {
        Some((digit, rest)) if is_hex(*digit) => Some((hex_value(*digit), rest)),
        _ => None,
    }
}

fn is_hex(byte: u8) -> bool
    ensures { result ≡ is_hex byte }
{
    is_digit(byte) || (b'a' <= byte && byte <= b'f')
}

fn hex_value(byte: u8) -> u8
    requires { is_hex byte ≡ true }
    ensures value { result ≡ hex_value byte }
    ensures digit { result < 16 }
{
    byte % 16 + 9 * (byte / 64)
}

fn is_top(byte: u8, width: u32) -> bool
    requires low { 1 ≤ width }
    requires high { width ≤ 128 }
    ensures top { result ≡ is_top width byte }
    ensures hex { result ≡ true → is_hex byte ≡ true }
{
    is_hex(byte) && hex_value(byte) < 1 << ((width + 3) % 4 + 1)
}
