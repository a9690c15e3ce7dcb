ghost use Rattle.std.specs.Prelude.{true, ◌≡◌, ◌<◌, ◌^◌, ◌++◌, ◌∷◌, [], IfOk, OnOk, flat_map, length, replicate};
ghost use Rattle.m_valid.specs.Nodes as nodes;
ghost use Rattle.m_valid.specs.Nodes.{AllReadBefore, gate_nodes, input_nodes, flip_nodes, node_at};

use g_net::{Flip, Gate, Network};
use lz_base::{Num, OutOfMemory, Port};
use std::alloc::Global;

/// A node of a network: the constant, another source, which is an input, a flip-flop or a node of a carry gate, or a gate
/// over two literals.
#[derive(Clone, Copy, Debug)]
pub enum Node {
    Constant,
    Source,
    And(Num, Num),
    Xor(Num, Num),
}

/// Whether it is an `and` or `xor` node.
pub fn is_gate(node: Node) -> bool
    ensures { result ≡ nodes.is_gate node }
{
    match node {
        Node::Constant => false,
        Node::Source => false,
        Node::And(_, _) => true,
        Node::Xor(_, _) => true,
    }
}

/// Whether it is an input, a flip-flop or a node of a carry gate.
pub fn is_source(node: Node) -> bool
    ensures { result ≡ nodes.is_source node }
{
    match node {
        Node::Constant => false,
        Node::Source => true,
        Node::And(_, _) => false,
        Node::Xor(_, _) => false,
    }
}

/// The node of a number. A number of no node is read as the constant.
pub fn node_at(all: &[Node], number: Num) -> Node
    ensures node { result ≡ node_at all.now number }
    ensures small { nodes.is_gate result ≡ true → number < 2 ^ 64 }
{
    if number < all.len() as Num {
        all[number as usize]
    } else {
        Node::Constant
    }
}

// Appends so many sources.
fn push_sources(all: &mut Vec<Node>, count: u32) -> Result<(), OutOfMemory>
    ensures { OnOk result (all.new.items ≡ all.old.items ++ replicate count Node.Source) }
{
    for _made in 0..count {
        all.push(Node::Source)?;
    }
    Ok(())
}

// Appends each bit of inputs.
fn push_inputs(all: &mut Vec<Node>, ports: &[Port]) -> Result<(), OutOfMemory>
    ensures { OnOk result (all.new.items ≡ all.old.items ++ flat_map input_nodes ports.now) }
{
    for port in ports {
        push_sources(all, port.width)?;
    }
    Ok(())
}

// Appends flip-flops.
fn push_flips(all: &mut Vec<Node>, flips: &[Flip]) -> Result<(), OutOfMemory>
    ensures { OnOk result (all.new.items ≡ all.old.items ++ flat_map flip_nodes flips.now) }
{
    for _flip in flips {
        all.push(Node::Source)?;
    }
    Ok(())
}

// Appends the nodes of a gate.
fn push_gate(all: &mut Vec<Node>, gate: Gate) -> Result<(), OutOfMemory>
    ensures { OnOk result (all.new.items ≡ all.old.items ++ gate_nodes gate) }
{
    match gate {
        Gate::And(a, b) => all.push(Node::And(a, b))?,
        Gate::Xor(a, b) => all.push(Node::Xor(a, b))?,
        Gate::Carry(_, _, _) => all.extend_from_slice(&[Node::Source, Node::Source])?,
    }
    Ok(())
}

// Appends the nodes of gates.
fn push_gates(all: &mut Vec<Node>, gates: &[Gate]) -> Result<(), OutOfMemory>
    ensures { OnOk result (all.new.items ≡ all.old.items ++ flat_map gate_nodes gates.now) }
{
    for gate in gates {
        push_gate(all, *gate)?;
    }
    Ok(())
}

// All nodes of a network, in the order of their numbers.
fn all_nodes(alloc: Global, network: &Network) -> Result<Vec<Node>, OutOfMemory>
    ensures { IfOk result (λ all. all.items ≡ nodes.nodes_of network.now) }
{
    let mut all = Vec::new(alloc);
    all.push(Node::Constant)?;
    push_inputs(&mut all, network.inputs())?;
    push_flips(&mut all, network.flips())?;
    push_gates(&mut all, network.gates())?;
    Ok(all)
}

/// All nodes of a network, in the order of their numbers. Each reads nodes before it.
pub fn nodes_of(alloc: Global, network: &Network) -> Result<Vec<Node>, OutOfMemory>
    ensures nodes { IfOk result (λ all. all.items ≡ nodes.nodes_of network.now) }
    ensures before { IfOk result (λ all. AllReadBefore all.items) }
{
    let _gates = network.gates();
    let all = all_nodes(alloc, network)?;
    Ok(all)
}
