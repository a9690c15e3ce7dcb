ghost use Rattle.std.specs.Prelude.{◌≡◌, ◌<◌, false, true, length, replicate, slice_set, IfOk};
ghost use Rattle.v_depends.specs.Nodes.{is_marked};

use lz_base::OutOfMemory;
use std::alloc::Global;
use std::marker::Model;

/// Which of the nodes of a graph, numbered from 0, are marked. Contracts see it as a list of that for each node.
#[derive(Drop)]
pub struct Marks {
    marks: Vec<bool>,
}

impl Model for Marks {
    ghost use Rattle.std.specs.Prelude.{Bool, List};

    ghost Value = { List Bool };

    ghost view = { λ m. m.marks.items };
}

impl Marks {
    /// So many nodes, none of them marked.
    pub(crate) fn none(alloc: Global, count: usize) -> Result<Marks, OutOfMemory>
        ensures { IfOk result (λ m. m ≡ replicate count false) }
    {
        Ok(Marks {
            marks: vec![in alloc; false; count]?,
        })
    }

    /// Whether a node is marked. One that there is not is none.
    pub(crate) fn has(&self, node: usize) -> bool
        ensures { result ≡ is_marked self.now node }
    {
        node < self.marks.len() && self.marks[node]
    }

    /// Whether a node is there and not marked.
    pub(crate) fn lacks(&self, node: usize) -> bool
        ensures unmarked { result ≡ true → (node < length self.now) × (is_marked self.now node ≡ false) }
        ensures marked { result ≡ false → node < length self.now → is_marked self.now node ≡ true }
    {
        node < self.marks.len() && !self.marks[node]
    }

    /// Marks a node, where it is one.
    pub(crate) fn mark(&mut self, node: usize)
        ensures { self.new ≡ slice_set self.old node true }
    {
        if node < self.marks.len() {
            self.marks[node] = true;
        }
    }
}
