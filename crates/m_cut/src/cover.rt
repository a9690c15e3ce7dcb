use crate::cut::{Cut, EMPTY};
use crate::graph::{Graph, is_gate};
use crate::places::{item, narrowed, put};
use crate::timing::Timing;
use lz_base::OutOfMemory;
use std::alloc::Global;

/// The depth of a node that nobody waits for.
pub const NEVER: u32 = u32::MAX;

/// The cut that is chosen for each gate, how often each node is read by what the ends need, and the greatest depth that it
/// may have.
#[derive(Drop)]
pub struct Cover {
    best: Vec<Cut>,
    references: Vec<u32>,
    latest: Vec<u32>,
}

// How deep the ends are: the deepest node, and the deepest literal, where an inverter is a table.
#[derive(Clone, Copy)]
struct Depths {
    nodes: u32,
    literals: u32,
}

// By how much a use of a literal lies behind its node: an inverter is a table.
fn behind(literal: u32) -> u32 {
    if literal > 1 { literal % 2 } else { 0 }
}

// How deep the ends are.
fn depths_of(ends: &[u32], timing: &Timing) -> Depths {
    let (mut nodes, mut literals) = (0u32, 0u32);
    for literal in ends {
        let depth = timing.depth(*literal / 2);
        nodes = nodes.max(depth);
        literals = literals.max(depth.saturating_add(behind(*literal)));
    }
    Depths { nodes, literals }
}

// The greatest depth that the node of an end may have for the ends to be no deeper than they are.
fn latest_of(literal: u32, depths: Depths) -> u32 {
    depths
        .nodes
        .min(depths.literals.saturating_sub(behind(literal)))
}

impl Cover {
    /// No choice for nodes that are used so often.
    pub fn new(alloc: Global, uses: Vec<u32>) -> Result<Cover, OutOfMemory> {
        let count = uses.len();
        Ok(Cover {
            best: vec![in alloc; EMPTY; count]?,
            references: uses,
            latest: vec![in alloc; NEVER; count]?,
        })
    }

    /// The cut that is chosen for a gate.
    pub fn chosen(&self, number: u32) -> Cut {
        item(&self.best, number, EMPTY)
    }

    /// Chooses a cut for a gate.
    pub fn choose(&mut self, number: u32, cut: Cut) {
        put(&mut self.best, number, cut);
    }

    /// The greatest depth that a node may have.
    pub fn latest(&self, number: u32) -> u32 {
        item(&self.latest, number, NEVER)
    }

    /// How often a node is read.
    pub fn references(&self, number: u32) -> u32 {
        item(&self.references, number, 0)
    }

    /// Whether a node is needed.
    pub fn is_needed(&self, number: u32) -> bool {
        self.references(number) > 0
    }

    /// Reads a node once more, and says how often it was read before.
    pub fn take(&mut self, number: u32) -> u32 {
        let before = self.references(number);
        put(&mut self.references, number, before.saturating_add(1));
        before
    }

    /// Reads a node once less, and says how often it was read before.
    pub fn give(&mut self, number: u32) -> u32 {
        let before = self.references(number);
        put(&mut self.references, number, before.saturating_sub(1));
        before
    }

    // Reads a node, which may have no greater depth than this.
    fn read(&mut self, number: u32, latest: u32) {
        self.take(number);
        let sooner = self.latest(number).min(latest);
        put(&mut self.latest, number, sooner);
    }

    // Reads the leaves of a cut.
    fn read_leaves(&mut self, cut: &Cut, latest: u32) {
        for leaf in cut.leaves.iter().take(cut.cost.leaves as usize) {
            self.read(*leaf, latest);
        }
    }

    // Reads what the ends use.
    fn read_ends(&mut self, ends: &[u32], depths: Depths) {
        for literal in ends {
            self.read(*literal / 2, latest_of(*literal, depths));
        }
    }

    // Reads what the nodes need, from the last one down.
    fn read_nodes(&mut self, graph: &Graph) {
        for place in (0..self.best.len()).rev() {
            let number = narrowed(place);
            if self.is_needed(number) && is_gate(&graph.nodes, number) {
                let latest = self.latest(number).saturating_sub(1);
                let cut = self.chosen(number);
                self.read_leaves(&cut, latest);
            }
        }
    }

    /// Counts anew how often each node is read, and how deep it may be for the ends to be no deeper than they are.
    pub fn settle(&mut self, graph: &Graph, timing: &Timing) {
        self.references.as_mut_slice().fill(0);
        self.latest.as_mut_slice().fill(NEVER);
        self.read_ends(&graph.ends, depths_of(&graph.ends, timing));
        self.read_nodes(graph);
    }
}
