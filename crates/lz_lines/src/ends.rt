ghost use Rattle.std.specs.Prelude.{◌≡◌, ◌++◌, length, IfOk, IfErr};
ghost use Rattle.lz_lines.specs.Fields.{line_end};
ghost use Rattle.lz_lines.specs.Forms.{Anything, Ended, Obtains};
ghost use Rattle.lz_lines.specs.Unread.{IsWithin};

use crate::reading::read_word;
use crate::unread::Unread;

/// Takes the end of a line whose fields made this value, and gives the value and what is left after the line. The fault
/// is at the first byte.
pub fn end_line<'a, T: Drop>(value: T, bytes: &'a [u8]) -> Result<(T, &'a [u8]), Unread>
    ensures found { IfOk result (λ r. (r.0 ≡ value) × (bytes.now ≡ line_end ++ r.1.now)) }
    ensures left { IfErr result (IsWithin (length bytes.now)) }
    ensures reads { Obtains (Ended value) Anything (λ r. r.0) (λ r. r.1.now) bytes.now result }
{
    let rest = read_word(bytes, b"\n")?;
    Ok((value, rest))
}
