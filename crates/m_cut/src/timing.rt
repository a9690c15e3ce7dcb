use crate::cut::{Cut, trivial};
use crate::places::{item, put};
use lz_base::OutOfMemory;
use std::alloc::Global;
use std::num::nearest_u32_to_f32;

/// What a leaf brings to a table over it: its depth, and its share of the tables below.
#[derive(Clone, Copy)]
pub struct Share {
    pub depth: u32,
    pub flow: f32,
}

/// The share of a source.
pub const SOURCE: Share = Share {
    depth: 0,
    flow: 0.0,
};

/// The shares of all nodes.
#[derive(Drop)]
pub struct Timing {
    shares: Vec<Share>,
}

impl Timing {
    /// The timing of so many sources.
    pub fn new(alloc: Global, count: usize) -> Result<Timing, OutOfMemory> {
        Ok(Timing {
            shares: vec![in alloc; SOURCE; count]?,
        })
    }

    /// Gives a cut the flow that its leaves make.
    pub fn measure_flow(&self, cut: &mut Cut) {
        let mut flow = 1.0f32;
        for leaf in cut.leaves.iter().take(cut.cost.leaves as usize) {
            flow += item(&self.shares, *leaf, SOURCE).flow;
        }
        cut.cost.flow = flow;
    }

    /// The cut of a node that is the node itself.
    pub fn trivial(&self, number: u32) -> Cut {
        let share = item(&self.shares, number, SOURCE);
        trivial(number, share.depth.saturating_add(1), share.flow + 1.0)
    }

    /// Gives a cut the depth and the flow that its leaves make.
    pub fn measure(&self, cut: &mut Cut) {
        let (mut depth, mut flow) = (0u32, 0.0f32);
        for leaf in cut.leaves.iter().take(cut.cost.leaves as usize) {
            let share = item(&self.shares, *leaf, SOURCE);
            depth = depth.max(share.depth);
            flow += share.flow;
        }
        cut.cost.depth = depth.saturating_add(1);
        cut.cost.flow = flow + 1.0;
    }

    /// Notes the cut that is chosen for a node that is read so often.
    pub fn note(&mut self, number: u32, cut: &Cut, references: u32) {
        let share = Share {
            depth: cut.cost.depth,
            flow: cut.cost.flow / nearest_u32_to_f32(references.max(1)),
        };
        put(&mut self.shares, number, share);
    }

    /// The depth of a node.
    pub fn depth(&self, number: u32) -> u32 {
        item(&self.shares, number, SOURCE).depth
    }
}
