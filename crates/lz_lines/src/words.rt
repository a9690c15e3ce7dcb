ghost use Rattle.std.specs.Prelude.{◌≡◌, ◌++◌, ◌≤◌, List, ℕ, IsTrue, length, IfOk, IfErr};
ghost use Rattle.lz_lines.specs.Forms.{Anything, Reads};
ghost use Rattle.lz_lines.specs.Keywords.{OneOf, all_apart};

use crate::reading::{Broken, read_word};

/// What has a word of its own, as the kinds of lines have.
pub trait Keyword: Copy {
    ghost use Rattle.std.specs.Prelude.{List, ℕ, ◌≡◌};

    ghost spelled: { Self → List ℕ };

    /// The word. It takes no memory.
    fn word(self) -> &'static [u8]
        ensures { result.now ≡ spelled self };
}

/// Takes the word of one of these keys, or of `last`, from the front, and gives what is left after it. None of the words
/// is the front of another. The fault is at the first letter that none of them has there.
pub fn read_key<'a, K: Keyword>(
    bytes: &'a [u8],
    keys: &[K],
    last: K,
) -> Result<(K, &'a [u8]), Broken>
    requires { IsTrue (all_apart K.spelled last keys.now) }
    ensures found { IfOk result (λ r. bytes.now ≡ K.spelled r.0 ++ r.1.now) }
    ensures left { IfErr result (λ e. e.left ≤ length bytes.now) }
    ensures reads { Reads (OneOf K.spelled last keys.now) Anything (λ r. r.0) (λ r. r.1.now) bytes.now result }
{
    let Some((key, others)) = keys.split_first() else {
        return match read_word(bytes, last.word()) {
            Ok(rest) => Ok((last, rest)),
            Err(broken) => Err(broken),
        };
    };
    let broken = match read_word(bytes, key.word()) {
        Ok(rest) => return Ok((*key, rest)),
        Err(broken) => broken,
    };
    match read_key(bytes, others, last) {
        Ok(read) => Ok(read),
        Err(other) => Err(Broken {
            left: broken.left.min(other.left),
        }),
    }
}
