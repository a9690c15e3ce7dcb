ghost use Rattle.std.specs.Prelude.{◌≡◌, ◌+◌, IfOk};
ghost use Rattle.n_cells.specs.Cell.{stored_of};
ghost use Rattle.n_cells.specs.Netlist.{first_net, net_count, nets_of};

use lz_base::OutOfMemory;
use n_cells::{Cell, Netlist};

// The number of the nets before a netlist's cells.
pub(crate) fn count_front(netlist: &Netlist) -> Result<usize, OutOfMemory>
    ensures { IfOk result (λ count. count ≡ first_net netlist.now.inputs netlist.now.flops) }
{
    let mut count = 2;
    for port in netlist.inputs() {
        count = add(count, port.width as usize)?;
    }
    add(count, netlist.flops().len())
}

// The number of a netlist's nets.
pub(crate) fn count_nets(netlist: &Netlist) -> Result<usize, OutOfMemory>
    ensures { IfOk result (λ count. count ≡ net_count netlist.now) }
{
    let mut count = count_front(netlist)?;
    for i in 0..netlist.cell_count() {
        count = add(count, nets_of_cell(netlist.cell(i)))?;
    }
    Ok(count)
}

// The sum. For so many nets there is no room where it has more than 64 bits.
pub(crate) fn add(a: usize, b: usize) -> Result<usize, OutOfMemory>
    ensures { IfOk result (λ sum. sum ≡ a + b) }
{
    match a.checked_add(b) {
        Some(sum) => Ok(sum),
        None => Err(OutOfMemory),
    }
}

// How many nets a cell makes.
fn nets_of_cell(cell: Cell<'_>) -> usize
    ensures { result ≡ nets_of (stored_of cell.entry) }
{
    match cell {
        Cell::Lut {
            leaves: _,
            table: _,
        } => 1,
        Cell::Carry(_, _, _) => 2,
    }
}
