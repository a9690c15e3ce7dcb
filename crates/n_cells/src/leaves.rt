ghost use Rattle.std.specs.Prelude.{◌≡◌, ◌≤◌, length};
ghost use Rattle.n_cells.specs.Leaves.{most_leaves};

use lz_base::Num;
use std::marker::Model;

/// The most leaves of a look-up table.
pub const LEAVES: usize = 6;

/// The leaves of a look-up table: at most six nets, kept in place. Contracts see them as a list.
#[derive(Debug, Drop)]
pub struct Leaves {
    nets: [Num; LEAVES],
    count: usize,
}

impl Model for Leaves {
    ghost use Rattle.std.specs.Prelude.{List, ℕ, ◌≤◌, take};
    ghost use Rattle.n_cells.specs.Leaves.{most_leaves};

    ghost Value = { List ℕ };

    ghost view = { λ l. take l.count l.nets };

    ghost invariant = { λ l. l.count ≤ most_leaves };
}

impl Leaves {
    /// The leaves of a slice. It takes no memory.
    pub fn new(leaves: &[Num]) -> Leaves
        requires { length leaves.now ≤ most_leaves }
        ensures { result ≡ leaves.now }
    {
        let mut nets = [0; LEAVES];
        for (i, leaf) in leaves.iter().enumerate() {
            nets[i] = *leaf;
        }
        Leaves {
            nets,
            count: leaves.len(),
        }
    }

    /// The leaves, the first one first.
    pub fn as_slice(&self) -> &[Num]
        ensures leaves { result.now ≡ self.now }
        ensures few { length self.now ≤ most_leaves }
    {
        &self.nets[..self.count]
    }
}
