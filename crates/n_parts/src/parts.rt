use crate::piece::Piece;
use lz_base::{Items, Name, Num, Port};
use n_cells::Flop;
use std::marker::Model;

/// The lines of a netlist, whatever its nets and names refer to. Each output has its port in `outputs` and, at the same
/// index, its nets in `nets`, bit 0 first.
#[derive(Drop)]
pub struct Parts {
    pub name: Name,
    pub clock: Option<Name>,
    pub inputs: Items<Port>,
    pub flops: Items<Flop>,
    pub cells: Items<Piece>,
    pub outputs: Items<Port>,
    pub nets: Items<Items<Num>>,
}

impl Model for Parts {
    ghost use Rattle.n_cells.specs.Netlist.{NetlistValue};

    ghost Value = { NetlistValue };

    ghost use Rattle.n_parts.specs.Views.{parts_value};

    ghost view = { parts_value };
}
