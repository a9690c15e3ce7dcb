ghost use Rattle.std.specs.Prelude.{◌≡◌};
ghost use Rattle.n_cells.specs.Cell.{stored_of};
ghost use Rattle.n_cells.specs.declared.netlist.Stored.TheVariants as stored;
ghost use Rattle.n_parts.specs.Cells.{kept_of};

use lz_base::Num;
use n_cells::{Cell, Leaves};
use std::marker::Model;

#[derive(Drop)]
enum Kept {
    Lut { leaves: Leaves, table: u64 },
    Carry(Num, Num, Num),
}

/// A cell that is to be made. Its nets may refer to anything, and its table may have any bits.
#[derive(Drop)]
pub struct Piece {
    kept: Kept,
}

impl Model for Piece {
    ghost use Rattle.n_cells.specs.declared.netlist.Stored.{Stored};
    ghost use Rattle.n_parts.specs.Cells.{kept_of};

    ghost Value = { Stored };

    ghost view = { λ c. kept_of c.kept };
}

impl Piece {
    /// A look-up table over its leaves' nets.
    pub fn lut(leaves: Leaves, table: u64) -> Piece
        ensures { result ≡ stored.Lut leaves table }
    {
        Piece {
            kept: Kept::Lut { leaves, table },
        }
    }

    /// A carry cell over three nets.
    pub fn carry(a: Num, b: Num, c: Num) -> Piece
        ensures { result ≡ stored.Carry a b c }
    {
        Piece {
            kept: Kept::Carry(a, b, c),
        }
    }

    /// It as a netlist's cell.
    pub fn cell(&self) -> Cell<'_>
        ensures { stored_of result ≡ self.now }
    {
        cell_of(&self.kept)
    }
}

fn cell_of(kept: &Kept) -> Cell<'_>
    ensures { stored_of result ≡ kept_of kept.now }
{
    match kept {
        Kept::Lut { leaves, table } => Cell::Lut {
            leaves: leaves.as_slice(),
            table: *table,
        },
        Kept::Carry(a, b, c) => Cell::Carry(*a, *b, *c),
    }
}
