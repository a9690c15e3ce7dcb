ghost use Rattle.std.specs.Prelude.{◌≡◌, ◌≤◌, length, IfOk};
ghost use Rattle.std.specs.Option.{option_map};
ghost use Rattle.lz_base.specs.Answers.{IfFault};
ghost use Rattle.lz_base.specs.Limits.{text_limit};
ghost use Rattle.g_net.specs.Network.{NetworkValue};
ghost use Rattle.g_text.specs.Answers.{IsRefusal};
ghost use Rattle.s_map.specs.Texts.{IsNetwork, Proposes};

use g_net::{Network, Proposal};
use g_text::{ProposalEnd, read, read_proposal};
use lz_base::{OutOfMemory, Stop};
use std::alloc::Global;

/// The network of a text.
pub(crate) fn network_of(alloc: Global, bytes: &[u8]) -> Result<Network, Stop>
    requires { length bytes.now ≤ text_limit }
    ensures is { IfOk result (IsNetwork bytes.now) }
    ensures alone { IfOk result (λ n. (other : NetworkValue) → IsNetwork bytes.now other → other ≡ n) }
    ensures fault { IfFault result (IsRefusal bytes.now) }
    ensures only { (n : NetworkValue) → IsNetwork bytes.now n → IfFault result (λ _. ⊥) }
{
    read(alloc, bytes)
}

/// The proposal of a text, or None where it is the text of none.
pub(crate) fn offer_of(alloc: Global, bytes: &[u8]) -> Result<Option<Proposal>, OutOfMemory>
    requires { length bytes.now ≤ text_limit }
    ensures { IfOk result (λ offer. Proposes bytes.now (option_map (λ p. p.lines) offer)) }
{
    match read_proposal(alloc, bytes) {
        Ok(proposal) => Ok(Some(proposal)),
        Err(ProposalEnd::Unreadable { at: _ }) => Ok(None),
        Err(ProposalEnd::OutOfMemory) => Err(OutOfMemory),
    }
}
