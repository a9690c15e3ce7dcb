use lz_lines::Keyword;

/// The word that begins a line.
#[derive(Clone, Copy)]
pub(crate) enum Head {
    In,
    Out,
    End,
}

impl Keyword for Head {
    ghost use Rattle.t_trace.specs.Lines.{head_word};

    ghost spelled = { head_word };

    fn word(self) -> &'static [u8] {
        match self {
            Head::In => b"in",
            Head::Out => b"out",
            Head::End => b"end",
        }
    }
}
