ghost use Rattle.std.specs.Prelude.{◌≡◌, ◌≤◌, ◌<◌, ◌^◌, ◌++◌, length, flat_map, IfOk, IfErr};
ghost use Rattle.lz_lines.specs.Fields.{AllUpTo, AreNumbers, number};
ghost use Rattle.lz_lines.specs.Forms.{EndNumbers, Obtains};
ghost use Rattle.lz_lines.specs.Readers.{begins_field, wants_number};
ghost use Rattle.lz_lines.specs.Unread.{IsWithin};

use crate::reading::read_number;
use crate::unread::Unread;

// Whether a field comes next.
fn begins_field(bytes: &[u8]) -> bool
    ensures { result ≡ begins_field bytes.now }
{
    match bytes.first() {
        Some(byte) => *byte == b' ',
        None => false,
    }
}

// Whether one more number has to be taken behind so many, or comes next and may be.
fn wants_number(count: usize, low: usize, high: usize, bytes: &[u8]) -> bool
    ensures { result ≡ wants_number count low high bytes.now }
{
    count < low || (count < high && begins_field(bytes))
}

/// Takes between `low` and `high` numbers of at most `most` into `numbers`, as many as there are, and gives what is left
/// after them. What `numbers` held before is gone. The fault is where the number that has to come, or does, is none.
pub fn read_numbers<'a>(
    bytes: &'a [u8],
    low: usize,
    high: usize,
    most: u128,
    numbers: &mut Vec<u128>,
) -> Result<&'a [u8], Unread>
    requires { low ≤ high }
    ensures found { IfOk result (λ rest. AreNumbers low high most numbers.new.items (flat_map number numbers.new.items) × (bytes.now ≡ flat_map number numbers.new.items ++ rest.now)) }
    ensures left { IfErr result (IsWithin (length bytes.now)) }
    ensures reads { Obtains (AreNumbers low high most) (EndNumbers high) (λ _. numbers.new.items) (λ r. r.now) bytes.now result }
{
    numbers.clear();
    let mut left = bytes;
    while wants_number(numbers.len(), low, high, left) {
        let (number, rest) = read_number(left, 0, most)?;
        numbers.push(number)?;
        left = rest;
    }
    Ok(left)
}
