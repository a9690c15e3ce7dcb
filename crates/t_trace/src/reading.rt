ghost use Rattle.std.specs.Prelude.{◌≡◌, ◌<◌, ◌++◌, ◌∷◌, [], length, IsTrue, IfOk};
ghost use Rattle.lz_lines.specs.Forms.{Anything, Nothing, Obtains};
ghost use Rattle.lz_lines.specs.Keywords.{all_apart};
ghost use Rattle.t_trace.specs.Lines.{AreWords, IsCycles, IsLine, Tail, head_word};
ghost use Rattle.t_trace.specs.Widths.{AreWidths};
ghost use Rattle.t_trace.specs.declared.head.Head.TheVariants as heads;

use crate::head::Head;
use lz_base::{Items, Word};
use lz_lines::{Unread, end_line, read_end, read_hex, read_key, read_word};
use std::alloc::Global;

// Reads the fields of a line, one word for each width.
fn read_words<'a>(
    alloc: Global,
    bytes: &'a [u8],
    widths: &[u32],
) -> Result<(Items<Word>, &'a [u8]), Unread>
    requires { AreWidths widths.now }
    ensures { Obtains (AreWords widths.now) Anything (λ r. r.0) (λ r. r.1.now) bytes.now result }
{
    let mut words = Vec::with_capacity(alloc, widths.len())?;
    let mut left = bytes;
    for width in widths {
        let (value, rest) = read_hex(left, *width)?;
        words.push(Word {
            width: *width,
            value,
        })?;
        left = rest;
    }
    Ok((Items::from_vec(words), left))
}

// Reads what stands behind the word that begins a line.
fn read_tail<'a>(
    alloc: Global,
    bytes: &'a [u8],
    widths: &[u32],
    head: Head,
) -> Result<(Option<Items<Word>>, &'a [u8]), Unread>
    requires { AreWidths widths.now }
    ensures { Obtains (Tail widths.now head) Anything (λ r. r.0) (λ r. r.1.now) bytes.now result }
{
    match head {
        Head::End => end_line(None, bytes),
        _ => {
            let (words, rest) = read_words(alloc, bytes, widths)?;
            end_line(Some(words), rest)
        }
    }
}

// Reads one line: the words of a cycle, behind their word, or none for the last line.
fn read_line<'a>(
    alloc: Global,
    bytes: &'a [u8],
    widths: &[u32],
    head: Head,
) -> Result<(Option<Items<Word>>, &'a [u8]), Unread>
    requires widths { AreWidths widths.now }
    requires apart { IsTrue (all_apart head_word heads.End (head ∷ [])) }
    ensures { Obtains (IsLine widths.now (head_word head)) Anything (λ r. r.0) (λ r. r.1.now) bytes.now result }
{
    let (head, rest) = read_key(bytes, &[head], Head::End)?;
    read_tail(alloc, rest, widths, head)
}

/// The cycles of a text that has this first line and this word before each cycle's words.
pub(crate) fn read_cycles(
    alloc: Global,
    bytes: &[u8],
    widths: &[u32],
    first: &[u8],
    head: Head,
) -> Result<Items<Items<Word>>, Unread>
    requires widths { AreWidths widths.now }
    requires apart { IsTrue (all_apart head_word heads.End (head ∷ [])) }
    ensures { Obtains (IsCycles first.now (head_word head) widths.now) Nothing (λ r. r) (λ _. []) bytes.now result }
{
    let mut left = read_word(bytes, first)?;
    let mut cycles = Items::new(alloc);
    'lines: loop {
        let (line, rest) = read_line(alloc, left, widths, head)?;
        let Some(words) = line else {
            read_end(rest)?;
            return Ok(cycles);
        };
        cycles.push(words)?;
        left = rest;
    }
}
