use crate::cut::Cut;
use crate::graph::Node;
use crate::places::{item, put};
use lz_base::OutOfMemory;
use std::alloc::Global;

// The tables of the six leaves: bit i of that of leaf j is bit j of i.
const LEAF_TABLES: [u64; 6] = [
    0xaaaa_aaaa_aaaa_aaaa,
    0xcccc_cccc_cccc_cccc,
    0xf0f0_f0f0_f0f0_f0f0,
    0xff00_ff00_ff00_ff00,
    0xffff_0000_ffff_0000,
    0xffff_ffff_0000_0000,
];

// The bits of a table of fewer than six leaves.
const LOW_BITS: [u64; 6] = [1, 0x3, 0xf, 0xff, 0xffff, 0xffff_ffff];

// The table of a node in the cone of a root.
#[derive(Clone, Copy)]
struct Mark {
    root: u32,
    table: u64,
}

// The mark of a node in no cone. No root is the constant.
const NO_MARK: Mark = Mark { root: 0, table: 0 };

/// Finds the tables of cuts.
#[derive(Drop)]
pub struct Cones {
    marks: Vec<Mark>,
    path: Vec<u32>,
}

// What a node needs: nothing more, since it has this table, or the table of an operand first.
#[derive(Clone, Copy)]
enum Need {
    Nothing(u64),
    Table(u32),
}

// The table of a literal whose node has this one.
fn literal_table(literal: u32, table: u64) -> u64 {
    if literal % 2 == 1 { !table } else { table }
}

// The part of a table that so many leaves have.
fn low_bits(table: u64, leaves: u32) -> u64 {
    match LOW_BITS.get(leaves as usize) {
        Some(bits) => table & *bits,
        None => table,
    }
}

impl Cones {
    /// No cones in a graph of so many nodes.
    pub fn new(alloc: Global, count: usize) -> Result<Cones, OutOfMemory> {
        Ok(Cones {
            marks: vec![in alloc; NO_MARK; count]?,
            path: Vec::new(alloc),
        })
    }

    // The table of a node in the cone of a root, where it has one.
    fn known(&self, root: u32, number: u32) -> Option<u64> {
        let mark = item(&self.marks, number, NO_MARK);
        (mark.root == root).then_some(mark.table)
    }

    // Marks a node.
    fn mark(&mut self, root: u32, number: u32, table: u64) {
        put(&mut self.marks, number, Mark { root, table });
    }

    // Marks the leaves.
    fn mark_leaves(&mut self, root: u32, cut: &Cut) {
        for (leaf, table) in cut.leaves.iter().zip(LEAF_TABLES) {
            self.mark(root, *leaf, table);
        }
    }

    // What a gate needs.
    fn need_of_gate(&self, root: u32, a: u32, b: u32, exclusive: bool) -> Need {
        let (first, second) = (a / 2, b / 2);
        match (self.known(root, first), self.known(root, second)) {
            (None, _) => Need::Table(first),
            (_, None) => Need::Table(second),
            (Some(x), Some(y)) => {
                let (x, y) = (literal_table(a, x), literal_table(b, y));
                Need::Nothing(if exclusive { x ^ y } else { x & y })
            }
        }
    }

    // What a node needs.
    fn need(&self, root: u32, node: Node) -> Need {
        match node {
            Node::Constant => Need::Nothing(0),
            Node::Source => Need::Nothing(0),
            Node::And(a, b) => self.need_of_gate(root, a, b, false),
            Node::Xor(a, b) => self.need_of_gate(root, a, b, true),
        }
    }

    // Goes one step down or up.
    fn step(&mut self, nodes: &[Node], root: u32, number: u32) -> Result<(), OutOfMemory> {
        match self.need(root, item(nodes, number, Node::Source)) {
            Need::Nothing(table) => {
                self.mark(root, number, table);
                self.path.pop();
            }
            Need::Table(operand) => self.path.push(operand)?,
        }
        Ok(())
    }

    /// The table of a root over a cut of it, whose leaf j is bit j of an index.
    pub fn table(&mut self, nodes: &[Node], root: u32, cut: &Cut) -> Result<u64, OutOfMemory> {
        self.mark_leaves(root, cut);
        self.path.clear();
        self.path.push(root)?;
        for _step in 0..u32::MAX {
            match self.path.last() {
                Some(number) => {
                    let number = *number;
                    self.step(nodes, root, number)?;
                }
                None => break,
            }
        }
        let table = self.known(root, root).unwrap_or(0);
        Ok(low_bits(table, cut.cost.leaves))
    }
}
