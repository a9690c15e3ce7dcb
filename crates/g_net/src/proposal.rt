ghost use Rattle.std.specs.Prelude.{◌≡◌, ◌<◌, ◌≤◌, ◌++◌, [], ◌∷◌, length, IsOk, IfOk, OnOk, OnErr};

use lz_base::{Items, Num, OutOfMemory};
use smallvec::SmallVec;
use std::alloc::Global;
use std::marker::Model;

/// The leaves of a line of a proposal, of which up to six are kept in place. Contracts see them as a list.
#[derive(Debug, Drop)]
pub struct Leaves {
    nodes: SmallVec<Num, 6>,
}

impl Model for Leaves {
    ghost use Rattle.std.specs.Prelude.{List, ℕ};

    ghost Value = { List ℕ };

    ghost view = { λ l. l.nodes.items };
}

impl Leaves {
    /// No leaves.
    pub fn new(alloc: Global) -> Leaves
        ensures { result ≡ [] }
    {
        Leaves {
            nodes: SmallVec::new(alloc),
        }
    }

    /// The leaves of a slice. Up to six need no memory.
    pub fn from_slice(alloc: Global, nodes: &[Num]) -> Result<Leaves, OutOfMemory>
        ensures leaves { IfOk result (λ l. l ≡ nodes.now) }
        ensures in_place { length nodes.now ≤ 6 → IsOk result }
    {
        Ok(Leaves {
            nodes: SmallVec::from_slice(alloc, nodes)?,
        })
    }

    /// Appends a leaf. The first six need no memory. Where it answers `OutOfMemory`, the leaves are as before.
    pub fn push(&mut self, node: Num) -> Result<(), OutOfMemory>
        ensures ok { OnOk result (self.new ≡ self.old ++ node ∷ []) }
        ensures in_place { length self.old < 6 → IsOk result }
        ensures err { OnErr result (self.new ≡ self.old) }
    {
        // Six fit in any case.
        let _spilled = self.nodes.spilled();
        self.nodes.push(node)?;
        Ok(())
    }

    /// The leaves, the first one first.
    pub fn as_slice(&self) -> &[Num]
        ensures { result.now ≡ self.now }
    {
        self.nodes.as_slice()
    }
}

/// A line of a proposal: a look-up table in place of the gates between the leaves, which are nodes, and the root, which
/// is one. Bit i of the table is the root's value where leaf j has bit j of i.
#[derive(Debug, Drop)]
pub struct Line {
    pub root: Num,
    pub leaves: Leaves,
    pub table: u64,
}

/// A proposal, which look-up tables are to cover the gates of a network. It may be wrong.
#[derive(Debug, Drop)]
pub struct Proposal {
    pub lines: Items<Line>,
}
