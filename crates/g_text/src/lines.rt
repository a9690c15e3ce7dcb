ghost use Rattle.std.specs.Prelude.{◌≡◌, IsTrue};
ghost use Rattle.lz_lines.specs.Forms.{Anything, Obtains, Parted};
ghost use Rattle.lz_lines.specs.Keywords.{all_apart};
ghost use Rattle.g_text.specs.Grammar.{IsNext, Pair, Tail};
ghost use Rattle.g_text.specs.Keys.{key_word};

use crate::line::{Key, Line};
use crate::raw::RawOutput;
use g_net::{Flip, Gate};
use lz_base::{Items, Num, Port};
use lz_lines::{Unread, end_line, read_bit, read_key, read_name_copy, read_number, read_numbers};
use std::alloc::Global;

// Takes two literals.
fn read_pair(bytes: &[u8]) -> Result<((Num, Num), &[u8]), Unread>
    ensures { Obtains Pair Parted (λ r. r.0) (λ r. r.1.now) bytes.now result }
{
    let (a, rest) = read_number(bytes, 0, u128::MAX)?;
    let (b, rest) = read_number(rest, 0, u128::MAX)?;
    Ok(((a, b), rest))
}

fn read_clock<'a>(alloc: Global, bytes: &'a [u8]) -> Result<(Option<Line>, &'a [u8]), Unread>
    ensures { Obtains (Tail Key.Clock) Anything (λ r. r.0) (λ r. r.1.now) bytes.now result }
{
    let (name, rest) = read_name_copy(alloc, bytes)?;
    end_line(Some(Line::Clock(name)), rest)
}

fn read_input<'a>(alloc: Global, bytes: &'a [u8]) -> Result<(Option<Line>, &'a [u8]), Unread>
    ensures { Obtains (Tail Key.Input) Anything (λ r. r.0) (λ r. r.1.now) bytes.now result }
{
    let (name, rest) = read_name_copy(alloc, bytes)?;
    let (width, rest) = read_number(rest, 1, 128)?;
    let port = Port {
        name,
        width: width as u32,
    };
    end_line(Some(Line::Input(port)), rest)
}

fn read_flip(bytes: &[u8]) -> Result<(Option<Line>, &[u8]), Unread>
    ensures { Obtains (Tail Key.Flip) Anything (λ r. r.0) (λ r. r.1.now) bytes.now result }
{
    let (first, rest) = read_bit(bytes)?;
    let (pair, rest) = read_pair(rest)?;
    let flip = Flip {
        first,
        literal: pair.0,
        enable: pair.1,
    };
    end_line(Some(Line::Flip(flip)), rest)
}

fn read_and(bytes: &[u8]) -> Result<(Option<Line>, &[u8]), Unread>
    ensures { Obtains (Tail Key.And) Anything (λ r. r.0) (λ r. r.1.now) bytes.now result }
{
    let (pair, rest) = read_pair(bytes)?;
    end_line(Some(Line::Gate(Gate::And(pair.0, pair.1))), rest)
}

fn read_xor(bytes: &[u8]) -> Result<(Option<Line>, &[u8]), Unread>
    ensures { Obtains (Tail Key.Xor) Anything (λ r. r.0) (λ r. r.1.now) bytes.now result }
{
    let (pair, rest) = read_pair(bytes)?;
    end_line(Some(Line::Gate(Gate::Xor(pair.0, pair.1))), rest)
}

fn read_carry(bytes: &[u8]) -> Result<(Option<Line>, &[u8]), Unread>
    ensures { Obtains (Tail Key.Carry) Anything (λ r. r.0) (λ r. r.1.now) bytes.now result }
{
    let (a, rest) = read_number(bytes, 0, u128::MAX)?;
    let (pair, rest) = read_pair(rest)?;
    end_line(Some(Line::Gate(Gate::Carry(a, pair.0, pair.1))), rest)
}

fn read_output<'a>(
    alloc: Global,
    bytes: &'a [u8],
    literals: &mut Vec<Num>,
) -> Result<(Option<Line>, &'a [u8]), Unread>
    ensures { Obtains (Tail Key.Output) Anything (λ r. r.0) (λ r. r.1.now) bytes.now result }
{
    let (name, rest) = read_name_copy(alloc, bytes)?;
    let rest = read_numbers(rest, 1, 128, u128::MAX, literals)?;
    let literals = Items::from_slice(alloc, literals)?;
    end_line(Some(Line::Output(RawOutput { name, literals })), rest)
}

/// Takes a line whose word is one of these, or the end's, for which it gives none. The vector is room for its literals.
pub(crate) fn read_line<'a>(
    alloc: Global,
    bytes: &'a [u8],
    keys: &[Key],
    literals: &mut Vec<Num>,
) -> Result<(Option<Line>, &'a [u8]), Unread>
    requires { IsTrue (all_apart key_word Key.End keys.now) }
    ensures { Obtains (IsNext keys.now) Anything (λ r. r.0) (λ r. r.1.now) bytes.now result }
{
    let (key, rest) = read_key(bytes, keys, Key::End)?;
    read_tail(alloc, rest, key, literals)
}

// Takes what stands behind the word of a line.
fn read_tail<'a>(
    alloc: Global,
    bytes: &'a [u8],
    key: Key,
    literals: &mut Vec<Num>,
) -> Result<(Option<Line>, &'a [u8]), Unread>
    ensures { Obtains (Tail key) Anything (λ r. r.0) (λ r. r.1.now) bytes.now result }
{
    match key {
        Key::Clock => read_clock(alloc, bytes),
        Key::Input => read_input(alloc, bytes),
        Key::Flip => read_flip(bytes),
        Key::And => read_and(bytes),
        Key::Xor => read_xor(bytes),
        Key::Carry => read_carry(bytes),
        Key::Output => read_output(alloc, bytes, literals),
        Key::End => end_line(None, bytes),
    }
}
