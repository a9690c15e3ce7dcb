ghost use Rattle.std.specs.Prelude.{◌≡◌, ◌≤◌, ◌<◌, ◌+◌, ◌*◌, ◌^◌, length};
ghost use Rattle.lz_lines.specs.Fields.{Each};
ghost use Rattle.lz_circuit.specs.Lines.{port_bits};
ghost use Rattle.g_net.specs.Network.{gate_nodes};
ghost use Rattle.g_text.specs.Form.{IsPort};

use crate::judging::nodes_of;
use g_net::{Flip, Gate};
use lz_base::{Num, Port};

// The bits of all ports.
fn count_bits(ports: &[Port]) -> Num
    requires { Each IsPort ports.now }
    ensures count { result ≡ port_bits ports.now }
    ensures bound { result ≤ 128 * length ports.now }
{
    let mut bits = 0;
    for port in ports {
        bits += Num::from(port.width);
    }
    bits
}

/// The number of the first node behind the flip-flops'.
pub(crate) fn count_front(inputs: &[Port], flips: &[Flip]) -> Num
    requires { Each IsPort inputs.now }
    ensures count { result ≡ 1 + (port_bits inputs.now + length flips.now) }
    ensures bound { result < 2 ^ 71 }
{
    1 + count_bits(inputs) + flips.len() as Num
}

/// The nodes of all gates.
pub(crate) fn count_nodes(gates: &[Gate]) -> Num
    ensures count { result ≡ gate_nodes gates.now }
    ensures bound { result < 2 ^ 66 }
{
    let mut nodes = 0;
    for gate in gates {
        nodes += nodes_of(*gate);
    }
    nodes
}
