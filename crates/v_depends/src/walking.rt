ghost use Rattle.std.specs.Prelude.{◌≡◌, ◌∷◌, [], length, IfOk, OnOk};
ghost use Rattle.v_depends.specs.Nodes.{Adds, IsReached, Marked, Once};

use crate::marking::Marks;
use crate::rows::row_of;
use lz_base::{Items, OutOfMemory};
use std::alloc::Global;

/// The nodes that a walk has reached: which are marked, and the order in which they were.
#[derive(Drop)]
pub struct Reached {
    pub marks: Marks,
    pub order: Vec<usize>,
}

/// Reaches a node, if it is one and was not reached.
pub(crate) fn reach(reached: &mut Reached, node: usize) -> Result<(), OutOfMemory>
    ensures marked { OnOk result (Marked reached.old → Marked reached.new) }
    ensures long { OnOk result (length reached.new.marks ≡ length reached.old.marks) }
    ensures adds { OnOk result (Marked reached.old → Adds (length reached.old.marks) reached.old.order.items (node ∷ []) reached.new.order.items) }
    ensures once { OnOk result (Marked reached.old → Once node reached.old.order.items reached.new.order.items) }
{
    if reached.marks.lacks(node) {
        reached.order.push(node)?;
        reached.marks.mark(node);
    }
    Ok(())
}

// Reaches each of these.
fn reach_all(reached: &mut Reached, nodes: &[usize]) -> Result<(), OutOfMemory>
    ensures marked { OnOk result (Marked reached.old → Marked reached.new) }
    ensures long { OnOk result (length reached.new.marks ≡ length reached.old.marks) }
    ensures adds { OnOk result (Marked reached.old → Adds (length reached.old.marks) reached.old.order.items nodes.now reached.new.order.items) }
{
    for node in nodes {
        reach(reached, *node)?;
    }
    Ok(())
}

/// Which nodes a walk along rows reaches from these, which it reaches too. Each row is walked once.
pub(crate) fn reached_from(
    alloc: Global,
    rows: &[Items<usize>],
    starts: &[usize],
) -> Result<Marks, OutOfMemory>
    ensures { IfOk result (λ marks. IsReached rows.now starts.now marks) }
{
    let mut reached = Reached {
        marks: Marks::none(alloc, rows.len())?,
        order: Vec::new(alloc),
    };
    reach_all(&mut reached, starts)?;
    let mut next = 0;
    while next < reached.order.len() {
        let node = reached.order[next];
        reach_all(&mut reached, row_of(rows, node))?;
        next += 1;
    }
    Ok(reached.marks)
}
