ghost use Rattle.std.specs.Prelude.{◌≡◌, ◌<◌, length, map, slice_get, Some, IfOk, OnOk};
ghost use Rattle.std.specs.Option.{option_copied, option_map};
ghost use Rattle.g_net.specs.AsMachine.{port_of};
ghost use Rattle.m_valid.specs.Assembly.{after_flips, after_outputs, flops_of, nets_of, output_nets, with_inverters};

use crate::draft::Draft;
use g_net::{Flip, Network};
use lz_base::{Items, Name, Num, OutOfMemory, Port};
use n_cells::Flop;
use std::alloc::Global;

/// The name of the clock again, where there is one.
pub(crate) fn clock_of(alloc: Global, clock: Option<&Name>) -> Result<Option<Name>, OutOfMemory>
    ensures { IfOk result (λ n. n ≡ option_copied clock.entry) }
{
    match clock {
        Some(name) => Ok(Some(name.copy(alloc)?)),
        None => Ok(None),
    }
}

/// The inputs again.
pub(crate) fn input_ports(alloc: Global, inputs: &[Port]) -> Result<Items<Port>, OutOfMemory>
    ensures { IfOk result (λ ports. ports ≡ inputs.now) }
{
    let mut ports = Items::new(alloc);
    for input in inputs {
        let name = input.name.copy(alloc)?;
        ports.push(Port {
            name,
            width: input.width,
        })?;
    }
    Ok(ports)
}

/// The flip-flops over nets. Each may give an inverter for its data, and then one for its enable.
pub(crate) fn flops_of(
    alloc: Global,
    draft: &mut Draft,
    flips: &[Flip],
) -> Result<Items<Flop>, OutOfMemory>
    ensures made { OnOk result (draft.new ≡ after_flips draft.old flips.now) }
    ensures flops { IfOk result (λ flops. flops ≡ flops_of draft.old flips.now) }
{
    let mut flops = Items::new(alloc);
    for flip in flips {
        let net = draft.net(flip.literal)?;
        let enable = draft.net(flip.enable)?;
        flops.push(Flop {
            first: flip.first,
            net,
            enable,
        })?;
    }
    Ok(flops)
}

// The nets of literals, each inverted one of which gives an inverter.
fn nets_of(alloc: Global, draft: &mut Draft, literals: &[Num]) -> Result<Items<Num>, OutOfMemory>
    ensures made { OnOk result (draft.new ≡ with_inverters draft.old literals.now) }
    ensures nets { IfOk result (λ nets. nets ≡ nets_of draft.old literals.now) }
{
    let mut nets = Items::new(alloc);
    for literal in literals {
        let net = draft.net(*literal)?;
        nets.push(net)?;
    }
    Ok(nets)
}

/// The nets of each output.
pub(crate) fn output_nets(
    alloc: Global,
    draft: &mut Draft,
    network: &Network,
) -> Result<Items<Items<Num>>, OutOfMemory>
    ensures made { OnOk result (draft.new ≡ after_outputs draft.old network.now.outputs) }
    ensures nets { IfOk result (λ nets. nets ≡ output_nets draft.old network.now.outputs) }
{
    let mut all = Items::new(alloc);
    for i in 0..network.output_count() {
        let nets = nets_of(alloc, draft, network.output_literals(i))?;
        all.push(nets)?;
    }
    Ok(all)
}

// The output at an index as a port.
fn port_at(alloc: Global, network: &Network, index: usize) -> Result<Port, OutOfMemory>
    requires { index < length network.now.outputs }
    ensures { IfOk result (λ port. option_map port_of (slice_get network.now.outputs index) ≡ Some port) }
{
    let name = network.output_name(index).copy(alloc)?;
    let width = network.output_literals(index).len() as u32;
    Ok(Port { name, width })
}

/// The outputs as ports.
pub(crate) fn output_ports(alloc: Global, network: &Network) -> Result<Items<Port>, OutOfMemory>
    ensures { IfOk result (λ ports. ports ≡ map port_of network.now.outputs) }
{
    let mut ports = Items::new(alloc);
    for i in 0..network.output_count() {
        let port = port_at(alloc, network, i)?;
        ports.push(port)?;
    }
    Ok(ports)
}
