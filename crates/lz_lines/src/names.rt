ghost use Rattle.std.specs.Prelude.{◌≡◌, true, ◌++◌, ◌≤◌, List, ℕ, length, take, drop, IfOk, IfErr};
ghost use Rattle.std.specs.List.{list_all};
ghost use Rattle.lz_base.specs.Names.{IsName, is_name_byte};
ghost use Rattle.lz_lines.specs.Fields.{IsNameField, field};
ghost use Rattle.lz_lines.specs.Forms.{Parted, Reads};
ghost use Rattle.lz_lines.specs.Readers.{BeginsWithout, begins_name};

use crate::reading::{Broken, after_blank};
use lz_base::{is_name_byte, is_name_start};

/// Takes a blank and a name, which ends before the first byte that no name has, and gives what is left after it. The
/// fault is at the blank or at the first byte of the name.
pub fn read_name<'a>(bytes: &'a [u8]) -> Result<(&'a [u8], &'a [u8]), Broken>
    ensures found { IfOk result (λ r. IsName r.0.now × (bytes.now ≡ field r.0.now ++ r.1.now)) }
    ensures left { IfErr result (λ e. e.left ≤ length bytes.now) }
    ensures reads { Reads IsNameField Parted (λ r. r.0.now) (λ r. r.1.now) bytes.now result }
{
    let Some(rest) = after_blank(bytes) else {
        return Err(Broken { left: bytes.len() });
    };
    if !begins_name(rest) {
        return Err(Broken { left: rest.len() });
    }
    Ok(rest.split_at(name_length(rest)))
}

fn begins_name(bytes: &[u8]) -> bool
    ensures { result ≡ begins_name bytes.now }
{
    match bytes.first() {
        Some(byte) => is_name_start(*byte),
        None => false,
    }
}

// How many bytes of a name stand at the front.
fn name_length(bytes: &[u8]) -> usize
    ensures within { result ≤ length bytes.now }
    ensures name { list_all is_name_byte (take result bytes.now) ≡ true }
    ensures end { BeginsWithout is_name_byte (drop result bytes.now) }
{
    for (i, byte) in bytes.iter().enumerate() {
        if !is_name_byte(*byte) {
            return i;
        }
    }
    bytes.len()
}
