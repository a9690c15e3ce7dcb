ghost use Rattle.std.specs.Prelude.{◌≡◌, []};
ghost use Rattle.lz_lines.specs.Forms.{Nothing, Obtains};
ghost use Rattle.g_text.specs.Answers.{IsText};
ghost use Rattle.g_text.specs.Grammar.{Rest};
ghost use Rattle.g_text.specs.Raw.{bare};
ghost use Rattle.g_text.specs.Text.{head};

use crate::lines::read_line;
use crate::raw::Raw;
use lz_base::Name;
use lz_lines::{Unread, read_end, read_name_copy, read_word};
use std::alloc::Global;

// Takes the lines behind the model's, up to the end.
fn read_lines(alloc: Global, bytes: &[u8], name: Name) -> Result<Raw, Unread>
    ensures { Obtains (Rest (bare name)) Nothing (λ r. r) (λ _. []) bytes.now result }
{
    let mut literals = Vec::new(alloc);
    let mut raw = Raw::new(alloc, name);
    let mut left = bytes;
    'lines: loop {
        let (line, rest) = read_line(alloc, left, raw.keys(), &mut literals)?;
        let Some(line) = line else {
            read_end(rest)?;
            return Ok(raw);
        };
        raw.add(line)?;
        left = rest;
    }
}

// The first line, and the model's up to its name.
fn head() -> &'static [u8]
    ensures { result.now ≡ head }
{
    b"network 2\nmodel"
}

/// The network whose lines these are, whatever its literals and names refer to.
pub(crate) fn read_raw(alloc: Global, bytes: &[u8]) -> Result<Raw, Unread>
    ensures { Obtains IsText Nothing (λ r. r) (λ _. []) bytes.now result }
{
    let rest = read_word(bytes, head())?;
    let (name, rest) = read_name_copy(alloc, rest)?;
    let rest = read_word(rest, b"\n")?;
    read_lines(alloc, rest, name)
}
