ghost use Rattle.std.specs.Prelude.{◌≡◌, None, Some, IfOk};
ghost use Rattle.lz_machine.specs.Machine.{Realises};
ghost use Rattle.n_cells.specs.AsMachine.{netlist_machine};
ghost use Rattle.g_net.specs.AsMachine.{network_machine};
ghost use Rattle.m_valid.specs.Validity.{verdict};
ghost use Rattle.s_map.specs.Mapping.{mapped};

use g_net::{Network, Proposal};
use lz_base::OutOfMemory;
use m_assembly::assemble;
use m_valid::{Verdict, plain, validate};
use n_cells::Netlist;
use std::alloc::Global;

/// The most leaves of a look-up table.
pub(crate) const MOST_LEAVES: u32 = 6;

/// The netlist that the plain proposal makes of a network.
pub(crate) fn plain_netlist(alloc: Global, network: &Network) -> Result<Netlist, OutOfMemory>
    ensures netlist { IfOk result (λ n. n ≡ mapped network.now None) }
    ensures realises { IfOk result (λ n. Realises (network_machine network.now) (netlist_machine n)) }
{
    let proposal = plain(alloc, network)?;
    assemble(alloc, network, &proposal)
}

/// The netlist that a proposal makes of a network where it is valid with up to six leaves in a line, and else the netlist of
/// the plain proposal; with the verdict on the proposal. Nothing is asked of the proposal, and the netlist realises the
/// network in any case. `OutOfMemory` is the only other answer.
pub fn finish(
    alloc: Global,
    network: &Network,
    proposal: &Proposal,
) -> Result<(Netlist, Verdict), OutOfMemory>
    ensures netlist { IfOk result (λ r. r.0 ≡ mapped network.now (Some proposal.now.lines)) }
    ensures realises { IfOk result (λ r. Realises (network_machine network.now) (netlist_machine r.0)) }
    ensures verdict { IfOk result (λ r. r.1 ≡ verdict network.now proposal.now.lines 6) }
{
    let verdict = validate(alloc, network, proposal, MOST_LEAVES)?;
    match verdict {
        Verdict::Valid => {
            let netlist = assemble(alloc, network, proposal)?;
            Ok((netlist, verdict))
        }
        Verdict::Broken { check: _, at: _ } => {
            let netlist = plain_netlist(alloc, network)?;
            Ok((netlist, verdict))
        }
    }
}
