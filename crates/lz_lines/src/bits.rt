ghost use Rattle.std.specs.Prelude.{◌≡◌, ◌≤◌, ◌++◌, length, IfOk, IfErr};
ghost use Rattle.lz_lines.specs.Fields.{IsBit, bit};
ghost use Rattle.lz_lines.specs.Forms.{Anything, Reads};

use crate::reading::{Broken, after_blank};

/// Takes a blank and `0` or `1`, and gives what is left after it. The fault is at the blank or at the digit.
pub fn read_bit(bytes: &[u8]) -> Result<(bool, &[u8]), Broken>
    ensures found { IfOk result (λ r. bytes.now ≡ bit r.0 ++ r.1.now) }
    ensures left { IfErr result (λ e. e.left ≤ length bytes.now) }
    ensures reads { Reads IsBit Anything (λ r. r.0) (λ r. r.1.now) bytes.now result }
{
    let Some(rest) = after_blank(bytes) else {
        return Err(Broken { left: bytes.len() });
    };
    let Some((digit, left)) = rest.split_first() else {
        return Err(Broken { left: 0 });
    };
    if *digit == b'0' {
        return Ok((false, left));
    }
    if *digit == b'1' {
        return Ok((true, left));
    }
    Err(Broken { left: rest.len() })
}
