ghost use Rattle.std.specs.Prelude.{◌≡◌, ◌<◌, ◌≤◌, ◌++◌, ◌∷◌, [], OnOk};
ghost use Rattle.lz_lines.specs.Fields.{bit, field, number, hex, hex_digit, hex_digits};

use itoa::Buffer;
use lz_base::OutOfMemory;

/// Appends a blank and the bytes of a field, such as a name.
pub fn push_field(out: &mut Vec<u8>, bytes: &[u8]) -> Result<(), OutOfMemory>
    ensures { OnOk result (out.new.items ≡ out.old.items ++ field bytes.now) }
{
    out.push(b' ')?;
    out.extend_from_slice(bytes)?;
    Ok(())
}

/// Appends a blank and the number in decimal, without leading zeros.
pub fn push_number(out: &mut Vec<u8>, n: u128) -> Result<(), OutOfMemory>
    ensures { OnOk result (out.new.items ≡ out.old.items ++ number n) }
{
    let mut digits = Buffer::new();
    out.push(b' ')?;
    out.extend_from_slice(digits.format(n).as_bytes())?;
    Ok(())
}

/// Appends a blank and `0` or `1`.
pub fn push_bit(out: &mut Vec<u8>, value: bool) -> Result<(), OutOfMemory>
    ensures { OnOk result (out.new.items ≡ out.old.items ++ bit value) }
{
    out.extend_from_slice(if value { b" 1" } else { b" 0" })?;
    Ok(())
}

/// Appends a blank and a number of `width` bits in lower-case hexadecimal, the most significant digit first.
pub fn push_hex(out: &mut Vec<u8>, width: u32, value: u128) -> Result<(), OutOfMemory>
    requires { width ≤ 128 }
    ensures { OnOk result (out.new.items ≡ out.old.items ++ field (hex width value)) }
{
    out.push(b' ')?;
    push_digits(out, (width + 3) / 4, value)
}

// Appends the last so many hexadecimal digits of a number.
fn push_digits(out: &mut Vec<u8>, count: u32, value: u128) -> Result<(), OutOfMemory>
    requires { count ≤ 32 }
    ensures { OnOk result (out.new.items ≡ out.old.items ++ hex_digits count value) }
{
    for i in 0..count {
        out.push(digit(((value >> (4 * (count - 1 - i))) % 16) as u8))?;
    }
    Ok(())
}

fn digit(value: u8) -> u8
    requires { value < 16 }
    ensures { result ≡ hex_digit value }
{
    if value < 10 {
        b'0' + value
    } else {
        b'a' + (value - 10)
    }
}

/// Appends the end of a line.
pub fn push_line_end(out: &mut Vec<u8>) -> Result<(), OutOfMemory>
    ensures { OnOk result (out.new.items ≡ out.old.items ++ 10 ∷ []) }
{
    out.push(b'\n')?;
    Ok(())
}
