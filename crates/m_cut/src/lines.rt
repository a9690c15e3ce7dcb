use crate::cone::Cones;
use crate::cover::Cover;
use crate::cut::Cut;
use crate::graph::{Graph, Node, operands};
use g_net::{Leaves, Line};
use lz_base::{Items, Num, OutOfMemory};
use std::alloc::Global;

// The leaves of a cut.
fn leaves_of(alloc: Global, cut: &Cut) -> Result<Leaves, OutOfMemory> {
    let mut leaves = Leaves::new(alloc);
    for leaf in cut.leaves.iter().take(cut.cost.leaves as usize) {
        leaves.push(*leaf as Num)?;
    }
    Ok(leaves)
}

// The line of a root.
fn line_of(
    alloc: Global,
    cones: &mut Cones,
    nodes: &[Node],
    root: u32,
    cut: &Cut,
) -> Result<Line, OutOfMemory> {
    let table = cones.table(nodes, root, cut)?;
    let leaves = leaves_of(alloc, cut)?;
    Ok(Line {
        root: root as Num,
        leaves,
        table,
    })
}

/// A line for each gate that is needed, in order.
pub fn lines_of(alloc: Global, graph: &Graph, cover: &Cover) -> Result<Items<Line>, OutOfMemory> {
    let mut cones = Cones::new(alloc, graph.nodes.len())?;
    let mut lines = Items::new(alloc);
    let mut number = 0u32;
    for node in &graph.nodes {
        if operands(*node).is_some() && cover.is_needed(number) {
            let cut = cover.chosen(number);
            lines.push(line_of(alloc, &mut cones, &graph.nodes, number, &cut)?)?;
        }
        number = number.wrapping_add(1);
    }
    Ok(lines)
}
