ghost use Rattle.std.specs.Prelude.{◌≡◌, OnOk, IsTrue};
ghost use Rattle.lz_lines.specs.Keywords.{all_apart};
ghost use Rattle.lz_lines.specs.Sections.{none};
ghost use Rattle.n_text.specs.Keys.{key_word, keys, keys_of};
ghost use Rattle.n_text.specs.Lent.{lent_value};
ghost use Rattle.n_text.specs.Raw.{bare, with_line};

use crate::line::{Key, Line};
use lz_base::{Items, Name, Num, OutOfMemory, Port};
use n_cells::Flop;
use n_parts::{Parts, Piece};
use std::alloc::Global;

/// The parts of a netlist, lent.
#[derive(Clone, Copy)]
pub(crate) struct Lent<'a> {
    pub(crate) name: &'a Name,
    pub(crate) clock: Option<&'a Name>,
    pub(crate) inputs: &'a [Port],
    pub(crate) flops: &'a [Flop],
    pub(crate) cells: &'a [Piece],
    pub(crate) outputs: &'a [Port],
    pub(crate) nets: &'a [Items<Num>],
}

/// Lends parts.
pub(crate) fn lend(parts: &Parts) -> Lent<'_>
    ensures { lent_value result ≡ parts.now }
{
    Lent {
        name: &parts.name,
        clock: parts.clock.as_ref(),
        inputs: parts.inputs.as_slice(),
        flops: parts.flops.as_slice(),
        cells: parts.cells.as_slice(),
        outputs: parts.outputs.as_slice(),
        nets: parts.nets.as_slice(),
    }
}

/// No line but the model's was read.
pub(crate) fn bare(alloc: Global, name: Name) -> Parts
    ensures { result ≡ bare name }
{
    Parts {
        name,
        clock: None,
        inputs: Items::new(alloc),
        flops: Items::new(alloc),
        cells: Items::new(alloc),
        outputs: Items::new(alloc),
        nets: Items::new(alloc),
    }
}

/// One line more.
pub(crate) fn add(parts: &mut Parts, line: Line) -> Result<(), OutOfMemory>
    ensures { OnOk result (parts.new ≡ with_line parts.old line) }
{
    match line {
        Line::Clock(name) => parts.clock = Some(name),
        Line::Input(port) => parts.inputs.push(port)?,
        Line::Flop(flop) => parts.flops.push(flop)?,
        Line::Cell(cell) => parts.cells.push(cell)?,
        Line::Output(port, nets) => {
            parts.outputs.push(port)?;
            parts.nets.push(nets)?;
        }
    }
    Ok(())
}

/// The words of the lines that may come next, besides the end's: lines stand in the order of the kinds, and flip-flops
/// only behind a clock line.
pub(crate) fn keys_of(parts: &Parts) -> &'static [Key]
    ensures keys { result.now ≡ keys_of parts.now }
    ensures apart { IsTrue (all_apart key_word Key.End result.now) }
{
    keys(
        is_none(parts.outputs.as_slice()),
        is_none(parts.cells.as_slice()),
        is_none(parts.flops.as_slice()),
        parts.clock.is_some(),
        is_none(parts.inputs.as_slice()),
    )
}

// The words of the lines that may come next, for whether there are no outputs, cells and flip-flops yet, whether there is
// a clock, and whether there are no inputs yet.
fn keys(outputs: bool, cells: bool, flops: bool, clock: bool, inputs: bool) -> &'static [Key]
    ensures keys { result.now ≡ keys outputs cells flops clock inputs }
    ensures apart { IsTrue (all_apart key_word Key.End result.now) }
{
    if !outputs {
        &[Key::Output]
    } else if !cells {
        &[Key::Lut, Key::Carry, Key::Output]
    } else if !flops {
        &[Key::Flop, Key::Lut, Key::Carry, Key::Output]
    } else if clock {
        &[Key::Input, Key::Flop, Key::Lut, Key::Carry, Key::Output]
    } else if !inputs {
        &[Key::Input, Key::Lut, Key::Carry, Key::Output]
    } else {
        &[Key::Clock, Key::Input, Key::Lut, Key::Carry, Key::Output]
    }
}

fn is_none<T>(all: &[T]) -> bool
    ensures { result ≡ none all.now }
{
    all.is_empty()
}
