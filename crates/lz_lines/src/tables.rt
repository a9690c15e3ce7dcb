ghost use Rattle.std.specs.Prelude.{◌≡◌, ◌^◌, ◌≤◌, ◌++◌, length, OnOk};
ghost use Rattle.lz_lines.specs.Fields.{AllUpTo, greatest};
ghost use Rattle.lz_lines.specs.Forms.{Anything, Obtains};
ghost use Rattle.lz_lines.specs.Tables.{IsTable, table_fields};

use crate::numbers::read_numbers;
use crate::printing::{push_hex, push_number};
use crate::reading::{read_hex, read_number};
use crate::shared::push_numbers;
use crate::unread::Unread;
use lz_base::OutOfMemory;

// The bits of a table over so many numbers.
fn table_width(count: u32) -> u32
    requires { count ≤ 6 }
    ensures { result ≡ 2 ^ count }
{
    1 << count
}

/// Takes a look-up table over at most `most` numbers: how many they are, the numbers, and the table in hexadecimal. The
/// numbers go into `numbers`, and what it held before is gone. Gives the table and what is left after it.
pub fn read_table<'a>(
    bytes: &'a [u8],
    most: u128,
    numbers: &mut Vec<u128>,
) -> Result<(u64, &'a [u8]), Unread>
    requires { most ≤ 6 }
    ensures { Obtains (IsTable most) Anything (λ r. (numbers.new.items, r.0)) (λ r. r.1.now) bytes.now result }
{
    let (count, rest) = read_number(bytes, 0, most)?;
    let rest = read_numbers(rest, count as usize, count as usize, u128::MAX, numbers)?;
    let (table, rest) = read_hex(rest, table_width(count as u32))?;
    Ok((table as u64, rest))
}

/// Appends a look-up table over at most six numbers.
pub fn push_table(out: &mut Vec<u8>, ns: &[u128], table: u64) -> Result<(), OutOfMemory>
    requires { length ns.now ≤ 6 }
    ensures text { OnOk result (out.new.items ≡ out.old.items ++ table_fields ns.now table) }
    ensures small { OnOk result (AllUpTo greatest ns.now) }
{
    push_number(out, ns.len() as u128)?;
    push_numbers(out, ns)?;
    push_hex(out, table_width(ns.len() as u32), u128::from(table))
}
