ghost use Rattle.std.specs.Prelude.{[]};
ghost use Rattle.lz_lines.specs.Forms.{Nothing, Obtains};
ghost use Rattle.t_choices.specs.Repeated.{Last};

use lz_lines::{Unread, read_end, read_word};

/// Takes the last line of a text that made this value, behind which nothing stands.
pub(crate) fn read_last<T: Drop>(value: T, bytes: &[u8]) -> Result<T, Unread>
    ensures { Obtains (Last value) Nothing (λ r. r) (λ _. []) bytes.now result }
{
    let rest = read_word(bytes, b"end\n")?;
    read_end(rest)?;
    Ok(value)
}
