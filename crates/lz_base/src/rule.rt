ghost use Rattle.std.specs.Prelude.{◌≡◌};

/// A rule of the source language (E, P, W) or of one of the texts: N of a netlist, G of a network, T of a
/// stimulus or a trace, C of choices, S of a schedule. U1 says that the source uses a construct that is not
/// built yet.
#[derive(Clone, Copy, Debug, PartialEq, Eq)]
pub enum Rule {
    E1,
    E2,
    E3,
    E4,
    E5,
    E6,
    E7,
    E8,
    E9,
    E10,
    E11,
    E12,
    E13,
    P1,
    P2,
    P3,
    P4,
    P5,
    P6,
    P7,
    P8,
    P9,
    P10,
    W1,
    N1,
    N2,
    G1,
    G2,
    T1,
    C1,
    S1,
    U1,
}

impl Rule {
    ghost use Rattle.lz_base.specs.Rules.{rule_text};

    /// The letter and the digits of the rule, as they are printed. It takes no memory.
    pub fn text(&self) -> &'static str
        ensures { result.now ≡ rule_text self.now }
    {
        match self {
            Rule::E1 => "E1",
            Rule::E2 => "E2",
            Rule::E3 => "E3",
            Rule::E4 => "E4",
            Rule::E5 => "E5",
            Rule::E6 => "E6",
            Rule::E7 => "E7",
            Rule::E8 => "E8",
            Rule::E9 => "E9",
            Rule::E10 => "E10",
            Rule::E11 => "E11",
            Rule::E12 => "E12",
            Rule::E13 => "E13",
            Rule::P1 => "P1",
            Rule::P2 => "P2",
            Rule::P3 => "P3",
            Rule::P4 => "P4",
            Rule::P5 => "P5",
            Rule::P6 => "P6",
            Rule::P7 => "P7",
            Rule::P8 => "P8",
            Rule::P9 => "P9",
            Rule::P10 => "P10",
            Rule::W1 => "W1",
            Rule::N1 => "N1",
            Rule::N2 => "N2",
            Rule::G1 => "G1",
            Rule::G2 => "G2",
            Rule::T1 => "T1",
            Rule::C1 => "C1",
            Rule::S1 => "S1",
            Rule::U1 => "U1",
        }
    }
}
