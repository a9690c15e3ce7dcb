use lz_base::{Items, Name, Num, Port};
use lz_lines::Keyword;
use n_cells::Flop;
use n_parts::Piece;

/// The word that begins a line.
#[derive(Clone, Copy)]
pub(crate) enum Key {
    Clock,
    Input,
    Flop,
    Lut,
    Carry,
    Output,
    End,
}

/// A line between the model's and the end, whatever its nets and its name refer to.
#[derive(Drop)]
pub(crate) enum Line {
    Clock(Name),
    Input(Port),
    Flop(Flop),
    Cell(Piece),
    Output(Port, Items<Num>),
}

impl Keyword for Key {
    ghost use Rattle.n_text.specs.Keys.{key_word};

    ghost spelled = { key_word };

    fn word(self) -> &'static [u8] {
        match self {
            Key::Clock => b"clock",
            Key::Input => b"input",
            Key::Flop => b"ff",
            Key::Lut => b"lut",
            Key::Carry => b"carry",
            Key::Output => b"output",
            Key::End => b"end",
        }
    }
}
