ghost use Rattle.std.specs.Prelude.{◌≡◌, ◌==◌, ◌&&◌, ◌<◌, ◌≤◌, not};
ghost use Rattle.v_syntax.specs.Numbers.{is_white};
ghost use Rattle.v_meaning.specs.Literals.{is_x, is_z, digit_value, digit_bits, radix_of};

// Whether a byte is an x.
pub fn is_x(byte: u8) -> bool
    ensures { result ≡ is_x byte }
{
    byte == b'x' || byte == b'X'
}

// Whether a byte is a z, or a ? in its place.
pub fn is_z(byte: u8) -> bool
    ensures { result ≡ is_z byte }
{
    byte == b'z' || byte == b'Z' || byte == b'?'
}

// Whether a byte counts: white space and underscores mean nothing.
pub fn counts(byte: u8) -> bool
    ensures { result ≡ (not (is_white byte) && not (byte == 95)) }
{
    !(byte == b' ' || byte == b'\t' || byte == b'\n' || byte == 12 || byte == b'\r')
        && !(byte == b'_')
}

// The value of a digit, which is 0 for x and z.
pub fn digit_value(byte: u8) -> u8
    ensures { result ≡ digit_value byte }
{
    if is_x(byte) || is_z(byte) {
        0
    } else if b'0' <= byte && byte <= b'9' {
        byte - b'0'
    } else if b'a' <= byte {
        byte - 87
    } else {
        byte.saturating_sub(55)
    }
}

// The base that a letter stands for.
#[derive(Clone, Copy)]
pub struct Base {
    // How many bits a digit has; a decimal digit has none of its own.
    pub bits: u32,
    pub radix: u128,
}

// The base of a letter; of a byte that is no letter of a base, 16.
pub fn base_of(letter: u8) -> Base
    ensures bits { result.bits ≡ digit_bits letter }
    ensures radix { result.radix ≡ radix_of letter }
    ensures few { result.bits ≤ 4 }
{
    match letter {
        b'b' | b'B' => Base { bits: 1, radix: 2 },
        b'o' | b'O' => Base { bits: 3, radix: 8 },
        b'd' | b'D' => Base { bits: 0, radix: 10 },
        _ => Base { bits: 4, radix: 16 },
    }
}
