ghost use Rattle.std.specs.Prelude.{◌≡◌, ◌++◌, [], List, map, OnOk, IfOk};
ghost use Rattle.lz_base.specs.Names.{AreDistinct};
ghost use Rattle.lz_circuit.specs.Lines.{HasClock, HaveWidths};
ghost use Rattle.g_net.specs.Network.{FlipsBelow, HaveLiterals, IsWellFormed, OutputsBelow, ReadBackwards, names_of, node_count};
ghost use Rattle.g_text.specs.Raw.{begun};

use crate::raw::{Raw, RawOutput};
use g_net::{Flip, Gate, Network};
use lz_base::{Num, OutOfMemory, Port};
use std::alloc::Global;

fn fill_inputs(alloc: Global, network: &mut Network, ports: &[Port]) -> Result<(), OutOfMemory>
    requires no_flip { network.old.flips ≡ [] }
    requires no_gate { network.old.gates ≡ [] }
    requires no_output { network.old.outputs ≡ [] }
    requires widths { HaveWidths ports.now }
    requires names { AreDistinct (names_of network.old ++ map (λ p. p.name) ports.now) }
    ensures { OnOk result (network.new ≡ record network.old { inputs = network.old.inputs ++ ports.now }) }
{
    for port in ports {
        let name = port.name.copy(alloc)?;
        network.input(Port {
            name,
            width: port.width,
        })?;
    }
    Ok(())
}

// Appends flip-flops that start with these bits, and whose literals are not set yet.
fn begin_flips(network: &mut Network, flips: &[Flip]) -> Result<(), OutOfMemory>
    requires clocked { HasClock network.old.clock flips.now }
    requires no_gate { network.old.gates ≡ [] }
    requires no_output { network.old.outputs ≡ [] }
    ensures { OnOk result (network.new ≡ record network.old { flips = network.old.flips ++ map begun flips.now }) }
{
    for flip in flips {
        network.flip(flip.first)?;
    }
    Ok(())
}

fn fill_gates(network: &mut Network, gates: &[Gate]) -> Result<(), OutOfMemory>
    requires no_output { network.old.outputs ≡ [] }
    requires backwards { ReadBackwards (node_count network.old) gates.now }
    ensures { OnOk result (network.new ≡ record network.old { gates = network.old.gates ++ gates.now }) }
{
    for gate in gates {
        network.add(*gate)?;
    }
    Ok(())
}

// Sets the literals of flip-flops that were begun.
fn set_flips(network: &mut Network, flips: &[Flip])
    requires begun { network.old.flips ≡ map begun flips.now }
    requires there { FlipsBelow (node_count network.old) flips.now }
    ensures { network.new ≡ record network.old { flips = flips.now } }
{
    for i in 0..flips.len() {
        network.set_flip(i as Num, flips[i].literal, flips[i].enable);
    }
}

fn fill_outputs(
    alloc: Global,
    network: &mut Network,
    outputs: &[RawOutput],
) -> Result<(), OutOfMemory>
    requires widths { HaveLiterals outputs.now }
    requires names { AreDistinct (names_of network.old ++ map (λ o. o.name) outputs.now) }
    requires there { OutputsBelow (node_count network.old) outputs.now }
    ensures { OnOk result (network.new ≡ record network.old { outputs = network.old.outputs ++ outputs.now }) }
{
    for output in outputs {
        let name = output.name.copy(alloc)?;
        network.output(name, output.literals.as_slice())?;
    }
    Ok(())
}

/// The network of lines that were read, where no reference is wrong.
pub(crate) fn make(alloc: Global, raw: Raw) -> Result<Network, OutOfMemory>
    requires { IsWellFormed raw }
    ensures same { IfOk result (λ n. n ≡ raw) }
    ensures formed { IfOk result IsWellFormed }
{
    let Raw {
        name,
        clock,
        inputs,
        flips,
        gates,
        outputs,
    } = raw;
    let mut network = Network::new(alloc, name, clock);
    fill_inputs(alloc, &mut network, inputs.as_slice())?;
    begin_flips(&mut network, flips.as_slice())?;
    fill_gates(&mut network, gates.as_slice())?;
    set_flips(&mut network, flips.as_slice());
    fill_outputs(alloc, &mut network, outputs.as_slice())?;
    Ok(network)
}
