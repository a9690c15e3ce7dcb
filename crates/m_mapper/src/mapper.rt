ghost use Rattle.std.specs.Prelude.{IfOk, ℕ};

use g_net::{Network, Proposal};
use lz_base::OutOfMemory;

/// What proposes look-up tables of at most so many leaves for a network. Nothing is known of the quality of its answer.
pub trait Mapper: Drop {
    ghost use Rattle.g_net.specs.Network.{NetworkValue};
    ghost use Rattle.g_net.specs.declared.proposal.Proposal.{Proposal};

    // its told answers: the proposals that it may answer for a network and a number of leaves
    ghost may_answer: { Self → NetworkValue → ℕ → Proposal → Type 0 };

    /// One of its told answers for tables of at most `k` leaves, or `OutOfMemory`.
    fn propose(&self, network: &Network, k: u32) -> Result<Proposal, OutOfMemory>
        ensures { IfOk result (may_answer self.now network.now k) };
}
