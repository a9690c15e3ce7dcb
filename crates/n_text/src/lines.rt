ghost use Rattle.std.specs.Prelude.{◌≡◌, ◌≤◌, IsTrue};
ghost use Rattle.lz_lines.specs.Forms.{Anything, Obtains, Parted};
ghost use Rattle.lz_lines.specs.Keywords.{all_apart};
ghost use Rattle.n_cells.specs.Form.{leaves_of};
ghost use Rattle.n_cells.specs.Leaves.{most_leaves};
ghost use Rattle.n_text.specs.Grammar.{IsEnable, IsNext, Tail};
ghost use Rattle.n_text.specs.Keys.{key_word};

use crate::line::{Key, Line};
use lz_base::{Items, Num, Port};
use lz_lines::{
    Unread, end_line, read_bit, read_key, read_name_copy, read_number, read_numbers, read_table,
};
use n_cells::{Flop, Format, LEAVES, Leaves};
use n_parts::Piece;
use std::alloc::Global;

fn read_clock<'a>(alloc: Global, bytes: &'a [u8]) -> Result<(Option<Line>, &'a [u8]), Unread>
    ensures { Obtains (Tail Format.Two Key.Clock) Anything (λ r. r.0) (λ r. r.1.now) bytes.now result }
{
    let (name, rest) = read_name_copy(alloc, bytes)?;
    end_line(Some(Line::Clock(name)), rest)
}

fn read_input<'a>(alloc: Global, bytes: &'a [u8]) -> Result<(Option<Line>, &'a [u8]), Unread>
    ensures { Obtains (Tail Format.Two Key.Input) Anything (λ r. r.0) (λ r. r.1.now) bytes.now result }
{
    let (name, rest) = read_name_copy(alloc, bytes)?;
    let (width, rest) = read_number(rest, 1, 128)?;
    let port = Port {
        name,
        width: width as u32,
    };
    end_line(Some(Line::Input(port)), rest)
}

// Takes the enable of a flip-flop, which is the constant 1 where the format leaves it out.
fn read_enable(format: Format, bytes: &[u8]) -> Result<(Num, &[u8]), Unread>
    ensures { Obtains (IsEnable format) Parted (λ r. r.0) (λ r. r.1.now) bytes.now result }
{
    match format {
        Format::One => Ok((1, bytes)),
        Format::Two => Ok(read_number(bytes, 0, u128::MAX)?),
    }
}

fn read_flop(format: Format, bytes: &[u8]) -> Result<(Option<Line>, &[u8]), Unread>
    ensures { Obtains (Tail format Key.Flop) Anything (λ r. r.0) (λ r. r.1.now) bytes.now result }
{
    let (first, rest) = read_bit(bytes)?;
    let (net, rest) = read_number(rest, 0, u128::MAX)?;
    let (enable, rest) = read_enable(format, rest)?;
    let flop = Flop { first, net, enable };
    end_line(Some(Line::Flop(flop)), rest)
}

// The most leaves of a look-up table.
fn most_leaves(format: Format) -> u128
    ensures most { result ≡ leaves_of format }
    ensures few { result ≤ most_leaves }
{
    match format {
        Format::One => 4,
        Format::Two => LEAVES as u128,
    }
}

fn read_lut<'a>(
    format: Format,
    bytes: &'a [u8],
    nets: &mut Vec<Num>,
) -> Result<(Option<Line>, &'a [u8]), Unread>
    ensures { Obtains (Tail format Key.Lut) Anything (λ r. r.0) (λ r. r.1.now) bytes.now result }
{
    let (table, rest) = read_table(bytes, most_leaves(format), nets)?;
    let cell = Piece::lut(Leaves::new(nets), table);
    end_line(Some(Line::Cell(cell)), rest)
}

fn read_carry(bytes: &[u8]) -> Result<(Option<Line>, &[u8]), Unread>
    ensures { Obtains (Tail Format.Two Key.Carry) Anything (λ r. r.0) (λ r. r.1.now) bytes.now result }
{
    let (a, rest) = read_number(bytes, 0, u128::MAX)?;
    let (b, rest) = read_number(rest, 0, u128::MAX)?;
    let (c, rest) = read_number(rest, 0, u128::MAX)?;
    end_line(Some(Line::Cell(Piece::carry(a, b, c))), rest)
}

fn read_output<'a>(
    alloc: Global,
    bytes: &'a [u8],
    nets: &mut Vec<Num>,
) -> Result<(Option<Line>, &'a [u8]), Unread>
    ensures { Obtains (Tail Format.Two Key.Output) Anything (λ r. r.0) (λ r. r.1.now) bytes.now result }
{
    let (name, rest) = read_name_copy(alloc, bytes)?;
    let rest = read_numbers(rest, 1, 128, u128::MAX, nets)?;
    let port = Port {
        name,
        width: nets.len() as u32,
    };
    let nets = Items::from_slice(alloc, nets)?;
    end_line(Some(Line::Output(port, nets)), rest)
}

/// Takes a line whose word is one of these, or the end's, for which it gives none. The vector is room for its nets.
pub(crate) fn read_line<'a>(
    alloc: Global,
    format: Format,
    bytes: &'a [u8],
    keys: &[Key],
    nets: &mut Vec<Num>,
) -> Result<(Option<Line>, &'a [u8]), Unread>
    requires { IsTrue (all_apart key_word Key.End keys.now) }
    ensures { Obtains (IsNext format keys.now) Anything (λ r. r.0) (λ r. r.1.now) bytes.now result }
{
    let (key, rest) = read_key(bytes, keys, Key::End)?;
    read_tail(alloc, format, rest, key, nets)
}

// Takes what stands behind the word of a line.
fn read_tail<'a>(
    alloc: Global,
    format: Format,
    bytes: &'a [u8],
    key: Key,
    nets: &mut Vec<Num>,
) -> Result<(Option<Line>, &'a [u8]), Unread>
    ensures { Obtains (Tail format key) Anything (λ r. r.0) (λ r. r.1.now) bytes.now result }
{
    match key {
        Key::Clock => read_clock(alloc, bytes),
        Key::Input => read_input(alloc, bytes),
        Key::Flop => read_flop(format, bytes),
        Key::Lut => read_lut(format, bytes, nets),
        Key::Carry => read_carry(bytes),
        Key::Output => read_output(alloc, bytes, nets),
        Key::End => end_line(None, bytes),
    }
}
