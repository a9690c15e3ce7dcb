use crate::raw::RawOutput;
use g_net::{Flip, Gate};
use lz_base::{Name, Port};
use lz_lines::Keyword;

/// The word that begins a line.
#[derive(Clone, Copy)]
pub(crate) enum Key {
    Clock,
    Input,
    Flip,
    And,
    Xor,
    Carry,
    Output,
    End,
}

/// A line between the model's and the end, whatever its literals and its name refer to.
#[derive(Drop)]
pub(crate) enum Line {
    Clock(Name),
    Input(Port),
    Flip(Flip),
    Gate(Gate),
    Output(RawOutput),
}

impl Keyword for Key {
    ghost use Rattle.g_text.specs.Keys.{key_word};

    ghost spelled = { key_word };

    fn word(self) -> &'static [u8] {
        match self {
            Key::Clock => b"clock",
            Key::Input => b"input",
            Key::Flip => b"ff",
            Key::And => b"and",
            Key::Xor => b"xor",
            Key::Carry => b"carry",
            Key::Output => b"output",
            Key::End => b"end",
        }
    }
}
