use crate::places::{item, put};
use g_net::{Flip, Gate, Network};
use lz_base::{Num, OutOfMemory, Port};
use std::alloc::Global;

/// A node of a graph: the constant, another source, which is an input, a flip-flop or a node of a carry gate, or a gate over
/// two literals.
#[derive(Clone, Copy)]
pub enum Node {
    Constant,
    Source,
    And(u32, u32),
    Xor(u32, u32),
}

/// The nodes of a network, whose literals have 32 bits, and the literals that its outputs, flip-flops and carries use.
#[derive(Drop)]
pub struct Graph {
    pub nodes: Vec<Node>,
    pub ends: Vec<u32>,
}

// The most nodes that a graph has.
const MOST_NODES: Num = 1 << 30;

/// Both nodes that a gate reads. Other nodes read none.
pub fn operands(node: Node) -> Option<(u32, u32)> {
    match node {
        Node::Constant => None,
        Node::Source => None,
        Node::And(a, b) => Some((a / 2, b / 2)),
        Node::Xor(a, b) => Some((a / 2, b / 2)),
    }
}

/// Whether a node is an `and` or an `xor`.
pub fn is_gate(nodes: &[Node], number: u32) -> bool {
    operands(item(nodes, number, Node::Source)).is_some()
}

// A literal in 32 bits. A literal of no graph is read as 0.
fn narrow(literal: Num) -> u32 {
    if literal <= u32::MAX as Num {
        literal as u32
    } else {
        0
    }
}

impl Graph {
    // No nodes, with room for so many.
    fn with_room(alloc: Global, count: usize) -> Result<Graph, OutOfMemory> {
        Ok(Graph {
            nodes: Vec::with_capacity(alloc, count)?,
            ends: Vec::new(alloc),
        })
    }

    // Appends so many sources.
    fn push_sources(&mut self, count: u32) -> Result<(), OutOfMemory> {
        for _made in 0..count {
            self.nodes.push(Node::Source)?;
        }
        Ok(())
    }

    // Appends each bit of inputs.
    fn push_inputs(&mut self, ports: &[Port]) -> Result<(), OutOfMemory> {
        for port in ports {
            self.push_sources(port.width)?;
        }
        Ok(())
    }

    // Appends flip-flops, and what they use.
    fn push_flips(&mut self, flips: &[Flip]) -> Result<(), OutOfMemory> {
        for flip in flips {
            self.nodes.push(Node::Source)?;
            self.push_ends(&[flip.literal, flip.enable])?;
        }
        Ok(())
    }

    // Appends the nodes of a gate, and what it uses where it is a carry.
    fn push_gate(&mut self, gate: Gate) -> Result<(), OutOfMemory> {
        match gate {
            Gate::And(a, b) => self.nodes.push(Node::And(narrow(a), narrow(b)))?,
            Gate::Xor(a, b) => self.nodes.push(Node::Xor(narrow(a), narrow(b)))?,
            Gate::Carry(a, b, c) => {
                self.push_sources(2)?;
                self.push_ends(&[a, b, c])?;
            }
        }
        Ok(())
    }

    // Appends the nodes of gates.
    fn push_gates(&mut self, gates: &[Gate]) -> Result<(), OutOfMemory> {
        for gate in gates {
            self.push_gate(*gate)?;
        }
        Ok(())
    }

    // Appends what the outputs use.
    fn push_outputs(&mut self, network: &Network) -> Result<(), OutOfMemory> {
        for i in 0..network.output_count() {
            self.push_ends(network.output_literals(i))?;
        }
        Ok(())
    }

    // Appends literals that are used.
    fn push_ends(&mut self, literals: &[Num]) -> Result<(), OutOfMemory> {
        for literal in literals {
            self.ends.push(narrow(*literal))?;
        }
        Ok(())
    }

    /// The graph of a network, where it has at most 2^30 nodes.
    pub fn of(alloc: Global, network: &Network) -> Result<Option<Graph>, OutOfMemory> {
        let count = network.node_count();
        if count > MOST_NODES {
            return Ok(None);
        }
        let mut graph = Graph::with_room(alloc, count as usize)?;
        graph.nodes.push(Node::Constant)?;
        graph.push_inputs(network.inputs())?;
        graph.push_flips(network.flips())?;
        graph.push_gates(network.gates())?;
        graph.push_outputs(network)?;
        Ok(Some(graph))
    }

    // Counts one more use of a node.
    fn count_use(uses: &mut [u32], number: u32) {
        let more = item(uses, number, 0).saturating_add(1);
        put(uses, number, more);
    }

    // Counts the uses of nodes by gates.
    fn count_gates(&self, uses: &mut [u32]) {
        for node in &self.nodes {
            if let Some((a, b)) = operands(*node) {
                Graph::count_use(uses, a);
                Graph::count_use(uses, b);
            }
        }
    }

    // Counts the uses of nodes at the ends.
    fn count_ends(&self, uses: &mut [u32]) {
        for literal in &self.ends {
            Graph::count_use(uses, *literal / 2);
        }
    }

    /// How often each node is used.
    pub fn uses(&self, alloc: Global) -> Result<Vec<u32>, OutOfMemory> {
        let mut uses = vec![in alloc; 0; self.nodes.len()]?;
        self.count_gates(&mut uses);
        self.count_ends(&mut uses);
        Ok(uses)
    }
}
