ghost use Rattle.std.specs.Prelude.{◌≡◌, ◌≤◌, ◌<◌, IsTrue, true, ℕ, length, IfOk, slice_index_or};
ghost use Rattle.std.specs.List.{All};
ghost use Rattle.v_depends.specs.Nodes.{IsSuspect, is_marked};

use crate::marking::Marks;
use crate::rows::{row_of, rows_of};
use lz_base::{Items, OutOfMemory};
use std::alloc::Global;

// A step of a walk in depth: to a node, or back from it.
#[derive(Clone, Copy)]
enum Step {
    To(usize),
    From(usize),
}

// ---- the order in which a walk in depth leaves the nodes

// Steps to all of so many nodes.
fn steps_to_all(alloc: Global, count: usize) -> Result<Vec<Step>, OutOfMemory> {
    let mut steps = Vec::new(alloc);
    for node in 0..count {
        steps.push(Step::To(node))?;
    }
    Ok(steps)
}

// Steps to each node of a row, before all others.
fn step_along(steps: &mut Vec<Step>, row: &[usize]) -> Result<(), OutOfMemory> {
    for next in row {
        steps.push(Step::To(*next))?;
    }
    Ok(())
}

// Enters a node that was not met, and is to leave it behind all of its row.
fn enter(
    met: &mut [bool],
    steps: &mut Vec<Step>,
    rows: &[Items<usize>],
    node: usize,
) -> Result<(), OutOfMemory> {
    if node < met.len() && !met[node] {
        met[node] = true;
        steps.push(Step::From(node))?;
        step_along(steps, row_of(rows, node))?;
    }
    Ok(())
}

// The nodes in the order in which a walk in depth along rows leaves them. It takes a step for each node, one back from it,
// and one for each edge.
fn left_in_order(
    alloc: Global,
    rows: &[Items<usize>],
    steps_at_most: usize,
) -> Result<Vec<usize>, OutOfMemory> {
    let mut met = vec![in alloc; false; rows.len()]?;
    let mut steps = steps_to_all(alloc, rows.len())?;
    let mut left = Vec::new(alloc);
    for _ in 0..steps_at_most {
        match steps.pop() {
            Some(Step::To(node)) => enter(&mut met, &mut steps, rows, node)?,
            Some(Step::From(node)) => left.push(node)?,
            None => break,
        }
    }
    Ok(left)
}

// ---- the levels of strongly connected components

// Steps from each of these, the last one first.
fn steps_from(alloc: Global, nodes: &[usize]) -> Result<Vec<Step>, OutOfMemory> {
    let mut steps = Vec::new(alloc);
    for node in nodes {
        steps.push(Step::From(*node))?;
    }
    Ok(steps)
}

// Gives a node that has none a level, and is to do so with its row.
fn give_level(
    levels: &mut [usize],
    steps: &mut Vec<Step>,
    rows: &[Items<usize>],
    node: usize,
    level: usize,
) -> Result<(), OutOfMemory> {
    if node < levels.len() && levels[node] == 0 {
        levels[node] = level;
        step_along(steps, row_of(rows, node))?;
    }
    Ok(())
}

// The levels of nodes. Each of these nodes, from the last on, gives one to what a walk along rows reaches from it and has
// none yet. It takes a step for each node and one for each edge.
fn levels_behind(
    alloc: Global,
    rows: &[Items<usize>],
    left: &[usize],
    steps_at_most: usize,
) -> Result<Vec<usize>, OutOfMemory> {
    let mut levels = vec![in alloc; 0; rows.len()]?;
    let mut steps = steps_from(alloc, left)?;
    let mut level = 0;
    for taken in 0..steps_at_most {
        match steps.pop() {
            Some(Step::To(node)) => give_level(&mut levels, &mut steps, rows, node, level)?,
            Some(Step::From(node)) => {
                level = taken + 1;
                give_level(&mut levels, &mut steps, rows, node, level)?;
            }
            None => break,
        }
    }
    Ok(levels)
}

// Each edge the other way round.
fn reversed(alloc: Global, edges: &[(usize, usize)]) -> Result<Vec<(usize, usize)>, OutOfMemory> {
    let mut reversed = Vec::new(alloc);
    for edge in edges {
        reversed.push((edge.1, edge.0))?;
    }
    Ok(reversed)
}

// A level for each node: one for each strongly connected component, which is higher than those of all components to which
// edges lead. No clause says so: `falling_levels` looks whether no level rises along an edge.
fn component_levels(
    alloc: Global,
    count: usize,
    edges: &[(usize, usize)],
) -> Result<Vec<usize>, OutOfMemory> {
    let back = rows_of(alloc, count, edges)?;
    let edges_back = reversed(alloc, edges)?;
    let forth = rows_of(alloc, count, edges_back.as_slice())?;
    let steps_at_most = edges.len().saturating_add(count).saturating_add(count);
    let left = left_in_order(alloc, back.as_slice(), steps_at_most)?;
    levels_behind(alloc, forth.as_slice(), left.as_slice(), steps_at_most)
}

// ---- the nodes that may lie on a cycle

// The level of a node, which is 0 where it has none.
fn level_of(levels: &[usize], node: usize) -> usize
    ensures { result ≡ slice_index_or levels.now node 0 }
{
    match levels.get(node) {
        Some(level) => *level,
        None => 0,
    }
}

// Whether no edge leads to a higher level.
fn is_falling(levels: &[usize], edges: &[(usize, usize)]) -> bool
    ensures { IsTrue result → All (λ (e : ℕ × ℕ). slice_index_or levels.now e.1 0 ≤ slice_index_or levels.now e.0 0) edges.now }
{
    for edge in edges {
        if level_of(levels, edge.0) < level_of(levels, edge.1) {
            return false;
        }
    }
    true
}

// Levels that do not rise along an edge: those of the components, or else that of no node.
fn falling_levels(
    alloc: Global,
    count: usize,
    edges: &[(usize, usize)],
) -> Result<Vec<usize>, OutOfMemory>
    ensures { IfOk result (λ levels. All (λ (e : ℕ × ℕ). slice_index_or levels.items e.1 0 ≤ slice_index_or levels.items e.0 0) edges.now) }
{
    let levels = component_levels(alloc, count, edges)?;
    if is_falling(levels.as_slice(), edges) {
        Ok(levels)
    } else {
        Ok(Vec::new(alloc))
    }
}

// Marks from where an edge comes, if it leads to a level that is not lower.
#[tactic(auto, using(crate::proofs::Walks::mark_keeps, crate::proofs::Walks::mark_there))]
fn mark_flat(marks: &mut Marks, levels: &[usize], edge: (usize, usize))
    ensures long { length marks.new ≡ length marks.old }
    ensures keeps { (node : ℕ) → is_marked marks.old node ≡ true → is_marked marks.new node ≡ true }
    ensures flat { slice_index_or levels.now edge.0 0 ≤ slice_index_or levels.now edge.1 0 → edge.0 < length marks.old → is_marked marks.new edge.0 ≡ true }
{
    if level_of(levels, edge.0) <= level_of(levels, edge.1) {
        marks.mark(edge.0);
    }
}

/// Marks each node that may lie on a cycle, since an edge leads from it to a node of its level. Where the levels are those of
/// the components, all that are marked lie on one.
pub(crate) fn suspects(
    alloc: Global,
    count: usize,
    edges: &[(usize, usize)],
) -> Result<Marks, OutOfMemory>
    ensures { IfOk result (λ marks. IsSuspect count edges.now marks) }
{
    let levels = falling_levels(alloc, count, edges)?;
    let mut marks = Marks::none(alloc, count)?;
    for edge in edges {
        mark_flat(&mut marks, levels.as_slice(), *edge);
    }
    Ok(marks)
}
