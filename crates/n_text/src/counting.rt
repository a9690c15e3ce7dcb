ghost use Rattle.std.specs.Prelude.{◌≡◌, ◌≤◌, ◌<◌, ◌+◌, ◌*◌, ◌^◌, length};
ghost use Rattle.lz_circuit.specs.Lines.{HaveWidths, port_bits};
ghost use Rattle.n_cells.specs.Netlist.{first_net, cell_nets};

use lz_base::Port;
use n_cells::Flop;
use n_parts::Piece;

// The bits of all ports.
fn count_bits(ports: &[Port]) -> u128
    requires { HaveWidths ports.now }
    ensures count { result ≡ port_bits ports.now }
    ensures bound { result ≤ 128 * length ports.now }
{
    let mut bits = 0;
    for port in ports {
        bits += u128::from(port.width);
    }
    bits
}

/// The number of the first net behind the flip-flops'.
pub(crate) fn count_front(inputs: &[Port], flops: &[Flop]) -> u128
    requires { HaveWidths inputs.now }
    ensures count { result ≡ first_net inputs.now flops.now }
    ensures bound { result < 2 ^ 72 }
{
    2 + count_bits(inputs) + flops.len() as u128
}

/// The nets of all cells.
pub(crate) fn count_nets(cells: &[Piece]) -> u128
    ensures count { result ≡ cell_nets cells.now }
    ensures bound { result < 2 ^ 66 }
{
    let mut nets = 0;
    for cell in cells {
        nets += u128::from(cell.cell().nets());
    }
    nets
}
