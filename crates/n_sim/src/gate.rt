ghost use Rattle.std.specs.Prelude.{◌≡◌, ◌≤◌, IfOk, length, take};
ghost use Rattle.n_cells.specs.Cell.{stored_of};
ghost use Rattle.n_cells.specs.Netlist.{HasShape, IsWellFormed};
ghost use Rattle.n_sim.specs.Gates.{kind_cell};

use crate::wires::{Wires, short};
use lz_base::{Items, OutOfMemory};
use n_cells::{Cell, Netlist};
use std::alloc::Global;
use std::marker::Model;

#[derive(Debug, Drop)]
pub(crate) enum Kind {
    Lut { leaves: Wires, table: u64 },
    Carry(u32, u32, u32),
}

// A cell, laid out for evaluation.
#[derive(Debug, Drop)]
pub(crate) struct Gate {
    pub(crate) kind: Kind,
}

impl Model for Gate {
    ghost use Rattle.n_cells.specs.declared.netlist.Stored.{Stored};
    ghost use Rattle.n_sim.specs.Gates.{kind_cell};

    ghost Value = { Stored };

    ghost view = { λ g. kind_cell g.kind };
}

// The cell, where the numbers of its nets are short.
fn kind_of(cell: Cell<'_>) -> Result<Kind, OutOfMemory>
    requires { HasShape (stored_of cell) }
    ensures { IfOk result (λ kind. kind_cell kind ≡ stored_of cell.entry) }
{
    Ok(match cell {
        Cell::Lut { leaves, table } => Kind::Lut {
            leaves: Wires::new(leaves)?,
            table,
        },
        Cell::Carry(a, b, c) => Kind::Carry(short(a)?, short(b)?, short(c)?),
    })
}

// The cells of a netlist, laid out in their order. For 2^32 nets and more there is no room.
pub(crate) fn lay_out(alloc: Global, netlist: &Netlist) -> Result<Items<Gate>, OutOfMemory>
    ensures gates { IfOk result (λ gates. gates ≡ netlist.now.cells) }
    ensures formed { IsWellFormed netlist.now }
{
    let mut gates = Items::new(alloc);
    for i in 0..netlist.cell_count() {
        gates.push(Gate {
            kind: kind_of(netlist.cell(i))?,
        })?;
    }
    Ok(gates)
}
