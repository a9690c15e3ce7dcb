ghost use Rattle.std.specs.Prelude.{◌≡◌, IfOk};
ghost use Rattle.lz_machine.specs.Machine.{Realises};
ghost use Rattle.n_cells.specs.AsMachine.{netlist_machine};
ghost use Rattle.g_net.specs.AsMachine.{network_machine};
ghost use Rattle.m_valid.specs.declared.verdict.Verdict.TheVariants.{Valid};
ghost use Rattle.m_valid.specs.Assembly.{assembled};
ghost use Rattle.m_valid.specs.Validity.{verdict};
ghost use Rattle.m_assembly.specs.Cursor.{AreCuts};

use crate::draft::Draft;
use crate::ends::{clock_of, flops_of, input_ports, output_nets, output_ports};
use crate::gates::push_gates;
use g_net::{Line, Network, Proposal};
use lz_base::{Items, Name, OutOfMemory, Port};
use m_valid::assembly_agrees;
use n_cells::Netlist;
use n_parts::{Parts, make};
use std::alloc::Global;

// What a netlist has as its network has it.
#[derive(Drop)]
struct Front {
    name: Name,
    clock: Option<Name>,
    inputs: Items<Port>,
}

fn front_of(alloc: Global, network: &Network) -> Result<Front, OutOfMemory>
    ensures { IfOk result (λ front. front ≡ record { name = network.now.name; clock = network.now.clock; inputs = network.now.inputs }) }
{
    let inputs = input_ports(alloc, network.inputs())?;
    let clock = clock_of(alloc, network.clock())?;
    let name = network.name().copy(alloc)?;
    Ok(Front {
        name,
        clock,
        inputs,
    })
}

// The parts of the netlist that these lines make of a network.
fn parts_of(alloc: Global, network: &Network, lines: &[Line]) -> Result<Parts, OutOfMemory>
    requires { AreCuts 0 lines.now }
    ensures { IfOk result (λ parts. parts ≡ assembled network.now lines.now) }
{
    let mut draft = Draft::new(alloc, network)?;
    push_gates(&mut draft, lines, network.gates())?;
    let flops = flops_of(alloc, &mut draft, network.flips())?;
    let nets = output_nets(alloc, &mut draft, network)?;
    let outputs = output_ports(alloc, network)?;
    let Front {
        name,
        clock,
        inputs,
    } = front_of(alloc, network)?;
    Ok(Parts {
        name,
        clock,
        inputs,
        flops,
        cells: draft.into_cells(),
        outputs,
        nets,
    })
}

/// The netlist that a valid proposal makes of a network.
///
/// It has the network's name, clock, inputs and outputs, and a flip-flop for each of the network's. Its cells are, in the
/// order of the nodes, a look-up table for each line, over the nets of its leaves and with the low bits of its table, one
/// for each assignment of the leaves, and a carry cell for each carry gate; behind these come the inverters for flip-flops
/// and then those for outputs.
///
/// Each inverted literal that a carry, a flip-flop, by its data and then by its enable, or an output reads gives an
/// inverter of its own, which is a look-up table of one leaf; those of a carry come right before it. The literal 1 is the
/// net of the constant 1 and gives none.
///
/// It takes work that is linear in network and proposal. `OutOfMemory` is the only other answer.
pub fn assemble(
    alloc: Global,
    network: &Network,
    proposal: &Proposal,
) -> Result<Netlist, OutOfMemory>
    requires valid { verdict network.now proposal.now.lines 6 ≡ Valid }
    ensures netlist { IfOk result (λ n. n ≡ assembled network.now proposal.now.lines) }
    ensures realises { IfOk result (λ n. Realises (network_machine network.now) (netlist_machine n)) }
{
    assembly_agrees();
    let _gates = network.gates();
    let parts = parts_of(alloc, network, proposal.lines.as_slice())?;
    let netlist = make(alloc, parts)?;
    Ok(netlist)
}
