ghost use Rattle.std.specs.Prelude.{◌≡◌, ◌≤◌, length, None, Some, IfOk};
ghost use Rattle.lz_base.specs.Answers.{IfFault};
ghost use Rattle.lz_base.specs.Limits.{text_limit};
ghost use Rattle.g_net.specs.Network.{NetworkValue};
ghost use Rattle.g_text.specs.Answers.{IsRefusal};
ghost use Rattle.s_map.specs.Mapping.{IsMapped, IsMapping};
ghost use Rattle.s_map.specs.Texts.{IsAnswered, IsNetwork, Proposes};

use crate::finishing::{MOST_LEAVES, finish, plain_netlist};
use crate::notes::{unreadable_note, verdict_note};
use crate::reading::{network_of, offer_of};
use g_net::{Network, Proposal};
use lz_base::{OutOfMemory, Stop};
use m_mapper::Mapper;
use n_text::print;
use std::alloc::Global;

/// The text of a netlist, and what is noted of the proposal, which may be nothing.
#[derive(Drop)]
pub struct Mapped {
    pub text: Vec<u8>,
    pub note: Vec<u8>,
}

// What comes of a proposal.
fn finished(alloc: Global, network: &Network, proposal: &Proposal) -> Result<Mapped, OutOfMemory>
    ensures { IfOk result (λ m. IsMapped network.now (Some proposal.now.lines) m.text.items m.note.items) }
{
    let (netlist, verdict) = finish(alloc, network, proposal)?;
    let _cells = netlist.cell_count();
    let text = print(alloc, &netlist)?;
    let note = verdict_note(alloc, verdict)?;
    Ok(Mapped { text, note })
}

// What comes of no proposal.
fn unproposed(alloc: Global, network: &Network) -> Result<Mapped, OutOfMemory>
    ensures { IfOk result (λ m. IsMapped network.now None m.text.items m.note.items) }
{
    let netlist = plain_netlist(alloc, network)?;
    let _cells = netlist.cell_count();
    let text = print(alloc, &netlist)?;
    let note = unreadable_note(alloc)?;
    Ok(Mapped { text, note })
}

// What a mapper proposes for a network.
fn answer_of(network: &Network, mapper: &Box<dyn Mapper>) -> Result<Proposal, OutOfMemory>
    ensures { IfOk result (may_answer mapper.now network.now 6) }
{
    mapper.propose(network, MOST_LEAVES)
}

/// The netlist of a network's text and of an answer of the mapper for that network and up to six leaves in a table.
///
/// The faults are those of the network's text: G1 where it is none, and G2 where a reference in it is wrong. `OutOfMemory`
/// is the only other answer.
pub fn map_by(alloc: Global, network: &[u8], mapper: &Box<dyn Mapper>) -> Result<Mapped, Stop>
    requires { length network.now ≤ text_limit }
    ensures mapped { IfOk result (λ m. IsMapping network.now (λ n offer. IsAnswered (may_answer mapper.now n 6) offer) m.text.items m.note.items) }
    ensures fault { IfFault result (IsRefusal network.now) }
    ensures only { (n : NetworkValue) → IsNetwork network.now n → IfFault result (λ _. ⊥) }
{
    let network = network_of(alloc, network)?;
    let proposal = answer_of(&network, mapper)?;
    Ok(finished(alloc, &network, &proposal)?)
}

/// The netlist of a network's text and of the proposal that a file spells. Where it spells none, the plain proposal takes
/// its place. So the answer is a function of both files.
///
/// The faults are those of the network's text: G1 where it is none, and G2 where a reference in it is wrong. `OutOfMemory`
/// is the only other answer.
pub fn map_with(alloc: Global, network: &[u8], proposal: &[u8]) -> Result<Mapped, Stop>
    requires network { length network.now ≤ text_limit }
    requires proposal { length proposal.now ≤ text_limit }
    ensures mapped { IfOk result (λ m. IsMapping network.now (λ _ offer. Proposes proposal.now offer) m.text.items m.note.items) }
    ensures fault { IfFault result (IsRefusal network.now) }
    ensures only { (n : NetworkValue) → IsNetwork network.now n → IfFault result (λ _. ⊥) }
{
    let network = network_of(alloc, network)?;
    match offer_of(alloc, proposal)? {
        Some(proposal) => Ok(finished(alloc, &network, &proposal)?),
        None => Ok(unproposed(alloc, &network)?),
    }
}

/// The netlist of a network's text where the file of the proposal is too long to be one: the plain proposal takes its
/// place.
///
/// The faults are those of the network's text: G1 where it is none, and G2 where a reference in it is wrong. `OutOfMemory`
/// is the only other answer.
pub fn map_plainly(alloc: Global, network: &[u8]) -> Result<Mapped, Stop>
    requires { length network.now ≤ text_limit }
    ensures mapped { IfOk result (λ m. IsMapping network.now (λ _ offer. offer ≡ None) m.text.items m.note.items) }
    ensures fault { IfFault result (IsRefusal network.now) }
    ensures only { (n : NetworkValue) → IsNetwork network.now n → IfFault result (λ _. ⊥) }
{
    let network = network_of(alloc, network)?;
    Ok(unproposed(alloc, &network)?)
}
