ghost use Rattle.std.specs.Prelude.{◌≡◌, []};
ghost use Rattle.lz_lines.specs.Forms.{Nothing, Obtains};
ghost use Rattle.n_text.specs.Answers.{IsText};
ghost use Rattle.n_text.specs.Grammar.{Rest};
ghost use Rattle.n_text.specs.Raw.{bare, head};

use crate::lines::read_line;
use crate::raw::{add, bare, keys_of};
use lz_base::Name;
use lz_lines::{Unread, read_end, read_name_copy, read_word};
use n_cells::Format;
use n_parts::Parts;
use std::alloc::Global;

// Takes the lines behind the model's, up to the end.
fn read_lines(alloc: Global, format: Format, bytes: &[u8], name: Name) -> Result<Parts, Unread>
    ensures { Obtains (Rest format (bare name)) Nothing (λ r. r) (λ _. []) bytes.now result }
{
    let mut nets = Vec::new(alloc);
    let mut raw = bare(alloc, name);
    let mut left = bytes;
    'lines: loop {
        let (line, rest) = read_line(alloc, format, left, keys_of(&raw), &mut nets)?;
        let Some(line) = line else {
            read_end(rest)?;
            return Ok(raw);
        };
        add(&mut raw, line)?;
        left = rest;
    }
}

// The first line, and the model's up to its name.
fn head(format: Format) -> &'static [u8]
    ensures { result.now ≡ head format }
{
    match format {
        Format::One => b"lutnet 1\nmodel",
        Format::Two => b"lutnet 2\nmodel",
    }
}

/// The netlist whose lines these are, whatever its nets and names refer to.
pub(crate) fn read_raw(alloc: Global, format: Format, bytes: &[u8]) -> Result<Parts, Unread>
    ensures { Obtains (IsText format) Nothing (λ r. r) (λ _. []) bytes.now result }
{
    let rest = read_word(bytes, head(format))?;
    let (name, rest) = read_name_copy(alloc, rest)?;
    let rest = read_word(rest, b"\n")?;
    read_lines(alloc, format, rest, name)
}
