use crate::cost::{Cost, Order};
use crate::cover::Cover;
use crate::cut::{Cut, EMPTY, merged, surely_more};
use crate::graph::{Node, operands};
use crate::kept::{Kept, MOST_CUTS};
use crate::places::item;
use crate::timing::Timing;
use lz_base::OutOfMemory;
use std::alloc::Global;

/// The cuts of all nodes, one node's after another's. The last cut of a node is the node itself.
#[derive(Drop)]
pub struct Sets {
    cuts: Vec<Cut>,
    starts: Vec<usize>,
}

/// What a round looks for: cuts of at most so many leaves, in an order.
#[derive(Clone, Copy)]
pub struct Round {
    pub most: u32,
    pub order: Order,
}

// The most cuts that nodes have together.
fn most_cuts(nodes: &[Node]) -> usize {
    let mut most = nodes.len();
    for node in nodes {
        if operands(*node).is_some() {
            most = most.saturating_add(MOST_CUTS);
        }
    }
    most
}

impl Sets {
    /// No cuts, with room for those of these nodes.
    pub fn new(alloc: Global, nodes: &[Node]) -> Result<Sets, OutOfMemory> {
        Ok(Sets {
            cuts: Vec::with_capacity(alloc, most_cuts(nodes))?,
            starts: Vec::with_capacity(alloc, nodes.len())?,
        })
    }

    /// The cuts of a node.
    pub fn of(&self, number: u32) -> &[Cut] {
        let end = self.cuts.len();
        let from = item(&self.starts, number, end);
        let to = item(&self.starts, number.saturating_add(1), end);
        if from <= to && to <= end {
            &self.cuts[from..to]
        } else {
            &[]
        }
    }

    // No cuts.
    fn clear(&mut self) {
        self.cuts.clear();
        self.starts.clear();
    }

    // Appends the cuts of the next node.
    fn push(&mut self, cuts: &[Cut], last: Cut) -> Result<(), OutOfMemory> {
        self.starts.push(self.cuts.len())?;
        self.cuts.extend_from_slice(cuts)?;
        self.cuts.push(last)?;
        Ok(())
    }
}

// The flow that a cut made of both has at least. Where no leaf may be one of both, it is their sum, with one table less.
fn least_flow(first: &Cut, second: &Cut) -> f32 {
    let (x, y) = (first.cost.flow, second.cost.flow);
    if first.signature & second.signature == 0 {
        x + y - 1.0
    } else if x < y {
        y
    } else {
        x
    }
}

// What a cut made of both costs at least.
fn least_cost(first: &Cut, second: &Cut) -> Cost {
    Cost {
        depth: first.cost.depth.max(second.cost.depth),
        leaves: first.cost.leaves.max(second.cost.leaves),
        flow: least_flow(first, second),
    }
}

// Whether two cuts may make one that is kept.
fn is_promising(kept: &Kept, first: &Cut, second: &Cut, round: Round) -> bool {
    !surely_more(first, second, round.most)
        && !kept.is_closed(least_cost(first, second), round.order)
}

// Offers what a cut makes with each of others.
fn offer_with(kept: &mut Kept, timing: &Timing, first: &Cut, others: &[Cut], round: Round) {
    for second in others {
        if is_promising(kept, first, second, round) {
            if let Some(cut) = merged(first, second, round.most) {
                let mut cut = cut;
                timing.measure_flow(&mut cut);
                kept.offer(&cut, round.order);
            }
        }
    }
}

// Offers what the cuts of both operands make.
fn offer_merged(kept: &mut Kept, timing: &Timing, firsts: &[Cut], seconds: &[Cut], round: Round) {
    for first in firsts {
        offer_with(kept, timing, first, seconds, round);
    }
}

// Finds the cuts of the gate of a number, and chooses the best one that is no deeper than it may be. Where there is none it
// keeps the one that was chosen before.
fn choose_gate(
    sets: &mut Sets,
    timing: &mut Timing,
    cover: &mut Cover,
    number: u32,
    read: (u32, u32),
    round: Round,
) -> Result<(), OutOfMemory> {
    let mut kept = Kept::new();
    let mut old = cover.chosen(number);
    timing.measure(&mut old);
    if let Order::Flow = round.order {
        kept.offer(&old, round.order);
    }
    offer_merged(&mut kept, timing, sets.of(read.0), sets.of(read.1), round);
    let best = kept.best(cover.latest(number), old);
    cover.choose(number, best);
    timing.note(number, &best, cover.references(number));
    sets.push(kept.as_slice(), timing.trivial(number))
}

// Finds the cuts of the node of a number, and chooses the best one of a gate.
fn choose_node(
    sets: &mut Sets,
    timing: &mut Timing,
    cover: &mut Cover,
    number: u32,
    node: Node,
    round: Round,
) -> Result<(), OutOfMemory> {
    match operands(node) {
        Some(read) => choose_gate(sets, timing, cover, number, read, round),
        None => match node {
            Node::Constant => sets.push(&[], EMPTY),
            _ => sets.push(&[], timing.trivial(number)),
        },
    }
}

/// Finds cuts of all nodes in order, and chooses the best one of each gate among those that are no deeper than they may be.
pub fn choose_all(
    sets: &mut Sets,
    timing: &mut Timing,
    cover: &mut Cover,
    nodes: &[Node],
    round: Round,
) -> Result<(), OutOfMemory> {
    sets.clear();
    let mut number = 0u32;
    for node in nodes {
        choose_node(sets, timing, cover, number, *node, round)?;
        number = number.wrapping_add(1);
    }
    Ok(())
}
