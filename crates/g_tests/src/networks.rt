ghost use Rattle.std.specs.Prelude.{◌≡◌, [], ◌∷◌, IfOk, Some};

use g_net::{Flip, Gate, Network};
use lz_base::{Name, OutOfMemory, Port};
use std::alloc::Global;

// A network with the clock `clk`, and nothing else.
fn clocked(alloc: Global) -> Result<Network, OutOfMemory>
    ensures clock { IfOk result (λ n. n.clock ≡ Some (99 ∷ 108 ∷ 107 ∷ [])) }
    ensures inputs { IfOk result (λ n. n.inputs ≡ []) }
    ensures flips { IfOk result (λ n. n.flips ≡ []) }
    ensures gates { IfOk result (λ n. n.gates ≡ []) }
    ensures outputs { IfOk result (λ n. n.outputs ≡ []) }
{
    let model = Name::new(alloc, b"t")?;
    let clock = Name::new(alloc, b"clk")?;
    Ok(Network::new(alloc, model, Some(clock)))
}

// An input of two bits (nodes 1 and 2), and a register (node 3) that takes the sum of both and itself (node 4) where
// their conjunction (node 6) is 0.
fn add_register(alloc: Global, network: &mut Network) -> Result<(), OutOfMemory>
    requires clock { network.old.clock ≡ Some (99 ∷ 108 ∷ 107 ∷ []) }
    requires inputs { network.old.inputs ≡ [] }
    requires flips { network.old.flips ≡ [] }
    requires gates { network.old.gates ≡ [] }
    requires outputs { network.old.outputs ≡ [] }
{
    let name = Name::new(alloc, b"a")?;
    network.input(Port { name, width: 2 })?;
    network.flip(true)?;
    let sum = network.add(Gate::Carry(2, 4, 6))?;
    let both = network.add(Gate::And(2, 4))?;
    network.set_flip(0, 2 * sum, 2 * both + 1);
    let name = Name::new(alloc, b"q")?;
    network.output(name, &[6, 11])
}

fn has_names(network: &Network) -> bool {
    match network.clock() {
        Some(clock) => clock.bytes() == b"clk".as_slice()
            && network.name().bytes() == b"t".as_slice(),
        None => false,
    }
}

fn has_nodes(network: &Network) -> bool {
    let inputs = network.inputs();
    let flip = Flip {
        first: true,
        literal: 8,
        enable: 13,
    };
    inputs.len() == 1
        && inputs[0].width == 2
        && network.flips() == [flip].as_slice()
        && network.gates() == [Gate::Carry(2, 4, 6), Gate::And(2, 4)].as_slice()
        && network.node_count() == 7
}

fn has_output(network: &Network) -> bool {
    network.output_count() == 1
        && network.output_name(0).bytes() == b"q".as_slice()
        && network.output_literals(0) == [6, 11].as_slice()
}

fn reads_back(alloc: Global) -> Result<bool, OutOfMemory> {
    let mut network = clocked(alloc)?;
    let added = add_register(alloc, &mut network).is_ok();
    Ok(added && has_names(&network) && has_nodes(&network) && has_output(&network))
}

#[test]
fn reads_what_was_made(rt: HostRuntime) {
    assert!(rt; matches!(reads_back(rt.alloc()), Ok(true)));
}
