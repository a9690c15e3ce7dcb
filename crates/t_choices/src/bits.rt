ghost use Rattle.std.specs.Prelude.{◌≡◌, ◌++◌, flat_map, length, OnOk};
ghost use Rattle.lz_lines.specs.Forms.{Anything, Obtains, Reads};
ghost use Rattle.t_choices.specs.Bits.{AnyBit, HasBits, choice_field, digit};
ghost use Rattle.t_choices.specs.Repeated.{Exactly, Spelled};

use lz_base::{Items, OutOfMemory};
use lz_lines::{Broken, Unread, read_word};
use std::alloc::Global;

// Takes `0` or `1`. The fault is at the byte.
fn read_digit(bytes: &[u8]) -> Result<(bool, &[u8]), Broken>
    ensures { Reads (Spelled digit AnyBit) Anything (λ r. r.0) (λ r. r.1.now) bytes.now result }
{
    let Some((byte, rest)) = bytes.split_first() else {
        return Err(Broken { left: 0 });
    };
    if *byte == b'0' {
        return Ok((false, rest));
    }
    if *byte == b'1' {
        return Ok((true, rest));
    }
    Err(Broken { left: bytes.len() })
}

// Takes so many digits.
fn read_digits<'a>(
    alloc: Global,
    bytes: &'a [u8],
    count: u64,
) -> Result<(Items<bool>, &'a [u8]), Unread>
    ensures { Obtains (Exactly digit AnyBit count) Anything (λ r. r.0) (λ r. r.1.now) bytes.now result }
{
    let mut bits = Vec::new(alloc);
    let mut left = bytes;
    'digits: while (bits.len() as u64) < count {
        let (bit, rest) = read_digit(left)?;
        bits.push(bit)?;
        left = rest;
    }
    Ok((Items::from_vec(bits), left))
}

/// Takes the field of a choice of so many bits, which lacks with its blank where there are none.
pub(crate) fn read_choice<'a>(
    alloc: Global,
    bytes: &'a [u8],
    count: u64,
) -> Result<(Items<bool>, &'a [u8]), Unread>
    ensures { Obtains (Spelled choice_field (HasBits count)) Anything (λ r. r.0) (λ r. r.1.now) bytes.now result }
{
    if count == 0 {
        return Ok((Items::new(alloc), bytes));
    }
    let rest = read_word(bytes, b" ")?;
    read_digits(alloc, rest, count)
}

fn push_digits(out: &mut Vec<u8>, bits: &[bool]) -> Result<(), OutOfMemory>
    ensures { OnOk result (out.new.items ≡ out.old.items ++ flat_map digit bits.now) }
{
    for bit in bits {
        out.push(if *bit { b'1' } else { b'0' })?;
    }
    Ok(())
}

/// Appends the field of a choice, which lacks with its blank where there are no bits.
pub(crate) fn push_choice(out: &mut Vec<u8>, bits: &[bool]) -> Result<(), OutOfMemory>
    ensures { OnOk result (out.new.items ≡ out.old.items ++ choice_field bits.now) }
{
    if bits.is_empty() {
        return Ok(());
    }
    out.push(b' ')?;
    push_digits(out, bits)
}
