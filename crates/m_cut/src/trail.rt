use crate::cover::Cover;
use crate::cut::Cut;
use crate::graph::{Node, is_gate};
use lz_base::OutOfMemory;
use std::alloc::Global;

/// A walk over the tables that come to be needed, or are no longer needed, where a cut is taken or given up, with what it
/// takes to undo it.
#[derive(Drop)]
pub struct Trail {
    ahead: Vec<u32>,
    touched: Vec<u32>,
}

// Whether the leaves of a cut come to be read, or are read no longer.
#[derive(Clone, Copy)]
enum Way {
    Take,
    Give,
}

/// How many tables a walk met, and whether it came to its end.
#[derive(Clone, Copy)]
pub struct Walk {
    pub tables: u32,
    pub complete: bool,
}

impl Trail {
    /// No walk.
    pub fn new(alloc: Global) -> Trail {
        Trail {
            ahead: Vec::new(alloc),
            touched: Vec::new(alloc),
        }
    }

    // Goes on with the leaves of a cut.
    fn push_leaves(&mut self, cut: &Cut) -> Result<(), OutOfMemory> {
        for leaf in cut.leaves.iter().take(cut.cost.leaves as usize) {
            self.ahead.push(*leaf)?;
        }
        Ok(())
    }

    // Begins at a cut.
    fn begin(&mut self, cut: &Cut) -> Result<(), OutOfMemory> {
        self.ahead.clear();
        self.touched.clear();
        self.push_leaves(cut)
    }

    // Reads a node, or reads it no longer. Where it is a gate that nobody else reads, it goes on with its leaves.
    fn change_node(
        &mut self,
        nodes: &[Node],
        cover: &mut Cover,
        number: u32,
        way: Way,
    ) -> Result<bool, OutOfMemory> {
        self.touched.push(number)?;
        let (before, others) = match way {
            Way::Take => (cover.take(number), 0),
            Way::Give => (cover.give(number), 1),
        };
        let alone = before == others && is_gate(nodes, number);
        if alone {
            self.push_leaves(&cover.chosen(number))?;
        }
        Ok(alone)
    }

    // Reads the leaves of a cut, and goes on with those of the gates behind them, in at most so many steps.
    fn walk(
        &mut self,
        nodes: &[Node],
        cover: &mut Cover,
        cut: &Cut,
        steps: u32,
        way: Way,
    ) -> Result<Walk, OutOfMemory> {
        self.begin(cut)?;
        let mut tables = 0u32;
        for _step in 0..steps {
            match self.ahead.pop() {
                Some(number) => {
                    let changed = self.change_node(nodes, cover, number, way)?;
                    tables = tables.saturating_add(changed as u32);
                }
                None => break,
            }
        }
        let complete = self.ahead.is_empty();
        Ok(Walk { tables, complete })
    }

    /// Reads the leaves of a cut, and those of each gate that comes to be needed, in at most so many steps.
    pub fn take(
        &mut self,
        nodes: &[Node],
        cover: &mut Cover,
        cut: &Cut,
        steps: u32,
    ) -> Result<Walk, OutOfMemory> {
        self.walk(nodes, cover, cut, steps, Way::Take)
    }

    /// Reads the leaves of a cut no longer, nor those of each gate that is no longer needed, in at most so many steps.
    pub fn give(
        &mut self,
        nodes: &[Node],
        cover: &mut Cover,
        cut: &Cut,
        steps: u32,
    ) -> Result<Walk, OutOfMemory> {
        self.walk(nodes, cover, cut, steps, Way::Give)
    }

    /// Undoes what `take` did.
    pub fn undo_take(&self, cover: &mut Cover) {
        for number in &self.touched {
            cover.give(*number);
        }
    }

    /// Undoes what `give` did.
    pub fn undo_give(&self, cover: &mut Cover) {
        for number in &self.touched {
            cover.take(*number);
        }
    }
}
