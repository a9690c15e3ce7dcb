ghost use Rattle.std.specs.Prelude.{◌≡◌, ◌++◌, ◌&&◌, if◌then◌else◌, true, [], length, List, ℕ, flat_map, IfOk};
ghost use Rattle.g_net.specs.Network.{FlipsBelow, ReadsBelow, node_count};
ghost use Rattle.m_valid.specs.Nodes.{nodes_of};
ghost use Rattle.m_valid.specs.Validity.{carry_uses, first_broken, flip_uses, is_met, needs_hold, output_uses, uses_of};
ghost use Rattle.m_valid.specs.Walk.{AllReadBelow, Tells};

use crate::flags::{has_flag, no_flags, set_nodes};
use crate::nodes::{Node, is_gate};
use g_net::{Flip, Gate, Network};
use lz_base::{Num, OutOfMemory};
use std::alloc::Global;

// Flags the nodes that outputs use.
fn flag_outputs(flags: &mut [bool], network: &Network)
    requires { length flags.old ≡ node_count network.now }
    ensures { (before : List ℕ) → Tells flags.old before → Tells flags.new (before ++ flat_map output_uses network.now.outputs) }
{
    for i in 0..network.output_count() {
        set_nodes(flags, network.output_literals(i));
    }
}

// Flags the nodes that flip-flops use.
fn flag_flips(flags: &mut [bool], flips: &[Flip])
    requires { FlipsBelow (length flags.old) flips.now }
    ensures { (before : List ℕ) → Tells flags.old before → Tells flags.new (before ++ flat_map flip_uses flips.now) }
{
    for flip in flips {
        set_nodes(flags, &[flip.literal, flip.enable]);
    }
}

// Flags the nodes that a gate uses, where it is a carry.
fn flag_carry(flags: &mut [bool], gate: Gate)
    requires { ReadsBelow (length flags.old) gate }
    ensures { (before : List ℕ) → Tells flags.old before → Tells flags.new (before ++ carry_uses gate) }
{
    match gate {
        Gate::And(_, _) => {}
        Gate::Xor(_, _) => {}
        Gate::Carry(a, b, c) => set_nodes(flags, &[a, b, c]),
    }
}

// Flags the nodes that the carries among gates use.
fn flag_carries(flags: &mut [bool], gates: &[Gate])
    requires { AllReadBelow (length flags.old) gates.now }
    ensures { (before : List ℕ) → Tells flags.old before → Tells flags.new (before ++ flat_map carry_uses gates.now) }
{
    for gate in gates {
        flag_carry(flags, *gate);
    }
}

// Flags the nodes that outputs, flip-flops and carries of a network use.
fn flag_all(flags: &mut [bool], network: &Network)
    requires { length flags.old ≡ node_count network.now }
    ensures { Tells flags.old [] → Tells flags.new (uses_of network.now) }
{
    flag_outputs(flags, network);
    flag_flips(flags, network.flips());
    flag_carries(flags, network.gates());
}

// Flags for the nodes that outputs, flip-flops and carries of a network use.
fn flag_uses(alloc: Global, network: &Network, count: usize) -> Result<Vec<bool>, OutOfMemory>
    requires { count ≡ node_count network.now }
    ensures { IfOk result (λ flags. Tells flags.items (uses_of network.now)) }
{
    let mut flags = no_flags(alloc, count)?;
    flag_all(&mut flags, network);
    Ok(flags)
}

// A gate that is used is a root.
fn gate_met(gate: bool, used: bool, rooted: bool) -> bool
    ensures { result ≡ (if gate && used then rooted else true) }
{
    if gate && used { rooted } else { true }
}

// Whether a node is a root if it is an `and` or `xor` node that is used.
fn is_met(node: Node, uses: &[bool], roots: &[bool], number: Num) -> bool
    ensures { (used rooted : List ℕ) → Tells uses.now used → Tells roots.now rooted → result ≡ is_met used rooted number node }
{
    let used = has_flag(uses, number);
    let rooted = has_flag(roots, number);
    gate_met(is_gate(node), used, rooted)
}

// The first `and` or `xor` node that is used and is no root.
fn first_missing(nodes: &[Node], uses: &[bool], roots: &[bool]) -> Option<Num>
    ensures { (used rooted : List ℕ) → Tells uses.now used → Tells roots.now rooted → result ≡ first_broken 0 (needs_hold used rooted 0 nodes.now) }
{
    for (i, node) in nodes.iter().enumerate() {
        let number = i as Num;
        if !is_met(*node, uses, roots, number) {
            return Some(number);
        }
    }
    None
}

/// The first `and` or `xor` node that an output, a flip-flop or a carry uses and that is no root. The nodes are those of
/// the network, and the roots are flagged.
pub fn missing_root(
    alloc: Global,
    network: &Network,
    nodes: &[Node],
    roots: &[bool],
) -> Result<Option<Num>, OutOfMemory>
    requires { nodes.now ≡ nodes_of network.now }
    ensures { (rooted : List ℕ) → Tells roots.now rooted → IfOk result (λ first. first ≡ first_broken 0 (needs_hold (uses_of network.now) rooted 0 nodes.now)) }
{
    let uses = flag_uses(alloc, network, nodes.len())?;
    let missing = first_missing(nodes, uses.as_slice(), roots);
    Ok(missing)
}
