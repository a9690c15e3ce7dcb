ghost use Rattle.std.specs.Prelude.{◌≡◌, OnOk, IsTrue};
ghost use Rattle.lz_lines.specs.Keywords.{all_apart};
ghost use Rattle.lz_lines.specs.Sections.{none};
ghost use Rattle.g_text.specs.Keys.{key_word, keys, keys_of};
ghost use Rattle.g_text.specs.Parts.{parts_value};
ghost use Rattle.g_text.specs.Raw.{bare, with_line};

use crate::line::{Key, Line};
use g_net::{Flip, Gate};
use lz_base::{Items, Name, Num, OutOfMemory, Port};
use std::alloc::Global;
use std::marker::Model;

/// An output whose line was read, whatever its literals and its name refer to.
#[derive(Drop)]
pub(crate) struct RawOutput {
    pub(crate) name: Name,
    pub(crate) literals: Items<Num>,
}

impl Model for RawOutput {
    ghost use Rattle.g_net.specs.declared.network.Output.{Output};

    ghost Value = { Output };

    ghost view = { λ o. record { name = o.name; literals = o.literals } };

    ghost inverse = { λ o. record { name = o.name; literals = o.literals } };
}

/// A network whose lines were read, whatever its literals and names refer to.
#[derive(Drop)]
pub(crate) struct Raw {
    pub(crate) name: Name,
    pub(crate) clock: Option<Name>,
    pub(crate) inputs: Items<Port>,
    pub(crate) flips: Items<Flip>,
    pub(crate) gates: Items<Gate>,
    pub(crate) outputs: Items<RawOutput>,
}

/// The same, lent.
#[derive(Clone, Copy)]
pub(crate) struct Parts<'a> {
    pub(crate) name: &'a Name,
    pub(crate) clock: Option<&'a Name>,
    pub(crate) inputs: &'a [Port],
    pub(crate) flips: &'a [Flip],
    pub(crate) gates: &'a [Gate],
    pub(crate) outputs: &'a [RawOutput],
}

impl Model for Raw {
    ghost use Rattle.g_net.specs.Network.{NetworkValue};

    ghost Value = { NetworkValue };

    ghost use Rattle.g_text.specs.Raw.{raw_value};

    ghost view = { raw_value };
}

impl Raw {
    /// No line but the model's was read.
    pub(crate) fn new(alloc: Global, name: Name) -> Raw
        ensures { result ≡ bare name }
    {
        Raw {
            name,
            clock: None,
            inputs: Items::new(alloc),
            flips: Items::new(alloc),
            gates: Items::new(alloc),
            outputs: Items::new(alloc),
        }
    }

    /// Its parts.
    pub(crate) fn parts(&self) -> Parts<'_>
        ensures { parts_value result ≡ self.now }
    {
        Parts {
            name: &self.name,
            clock: self.clock.as_ref(),
            inputs: self.inputs.as_slice(),
            flips: self.flips.as_slice(),
            gates: self.gates.as_slice(),
            outputs: self.outputs.as_slice(),
        }
    }

    /// One line more.
    pub(crate) fn add(&mut self, line: Line) -> Result<(), OutOfMemory>
        ensures { OnOk result (self.new ≡ with_line self.old line) }
    {
        match line {
            Line::Clock(name) => self.clock = Some(name),
            Line::Input(port) => self.inputs.push(port)?,
            Line::Flip(flip) => self.flips.push(flip)?,
            Line::Gate(gate) => self.gates.push(gate)?,
            Line::Output(output) => self.outputs.push(output)?,
        }
        Ok(())
    }

    /// The words of the lines that may come next, besides the end's: lines stand in the order of the kinds, and
    /// flip-flops only behind a clock line.
    pub(crate) fn keys(&self) -> &'static [Key]
        ensures keys { result.now ≡ keys_of self.now }
        ensures apart { IsTrue (all_apart key_word Key.End result.now) }
    {
        keys(
            is_none(self.outputs.as_slice()),
            is_none(self.gates.as_slice()),
            is_none(self.flips.as_slice()),
            self.clock.is_some(),
            is_none(self.inputs.as_slice()),
        )
    }
}

// The words of the lines that may come next, for whether there are no outputs, gates and flip-flops yet, whether there is
// a clock, and whether there are no inputs yet.
fn keys(outputs: bool, gates: bool, flips: bool, clock: bool, inputs: bool) -> &'static [Key]
    ensures keys { result.now ≡ keys outputs gates flips clock inputs }
    ensures apart { IsTrue (all_apart key_word Key.End result.now) }
{
    if !outputs {
        &[Key::Output]
    } else if !gates {
        &[Key::And, Key::Xor, Key::Carry, Key::Output]
    } else if !flips {
        &[Key::Flip, Key::And, Key::Xor, Key::Carry, Key::Output]
    } else if clock {
        &[
            Key::Input,
            Key::Flip,
            Key::And,
            Key::Xor,
            Key::Carry,
            Key::Output,
        ]
    } else if !inputs {
        &[Key::Input, Key::And, Key::Xor, Key::Carry, Key::Output]
    } else {
        &[
            Key::Clock,
            Key::Input,
            Key::And,
            Key::Xor,
            Key::Carry,
            Key::Output,
        ]
    }
}

fn is_none<T>(all: &[T]) -> bool
    ensures { result ≡ none all.now }
{
    all.is_empty()
}
