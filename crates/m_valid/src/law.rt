ghost use Rattle.std.specs.Prelude.{◌≡◌, ◌≤◌, ◌++◌, ℕ, List, Bool, length};
ghost use Rattle.lz_base.specs.Bits.{words_bits};
ghost use Rattle.lz_base.specs.Ports.{FitPorts};
ghost use Rattle.lz_base.specs.WordValue.{WordValue};
ghost use Rattle.lz_machine.specs.Machine.{Realises};
ghost use Rattle.n_cells.specs.AsMachine.{netlist_machine};
ghost use Rattle.n_cells.specs.Netlist as netlist;
ghost use Rattle.g_net.specs.AsMachine.{network_machine};
ghost use Rattle.g_net.specs.declared.proposal.Line.{Line};
ghost use Rattle.g_net.specs.Network.{NetworkValue, IsWellFormed};
ghost use Rattle.g_net.specs.Walk.{values_of};
ghost use Rattle.m_valid.specs.declared.verdict.Verdict.TheVariants as verdict;
ghost use Rattle.m_valid.specs.Assembly.{assembled};
ghost use Rattle.m_valid.specs.Alike.{DoesAlike};
ghost use Rattle.m_valid.specs.Validity as validity;

use g_net::{node_after_node, sources_first};

/// Law: where a proposal with up to six leaves in each line is valid for a well-formed network, the netlist that it makes
/// of the network is well formed. In each cycle it shows the words that the network shows, and its flip-flops hold the
/// same bits afterwards, for all words that fit the inputs and all bits in the flip-flops. So as a machine it realises the
/// network.
pub fn assembly_agrees()
    ensures formed { (n : NetworkValue) (lines : List Line) (most : ℕ) → most ≤ 6 → validity.verdict n lines most ≡ verdict.Valid → IsWellFormed n → netlist.IsWellFormed (assembled n lines) }
    ensures alike { (n : NetworkValue) (lines : List Line) (most : ℕ) (inputs : List WordValue) (state : List Bool) → most ≤ 6 → validity.verdict n lines most ≡ verdict.Valid → IsWellFormed n → FitPorts n.inputs inputs → length state ≡ length n.flips → DoesAlike n lines inputs state (values_of n (words_bits inputs ++ state)) }
    ensures realises { (n : NetworkValue) (lines : List Line) (most : ℕ) → most ≤ 6 → validity.verdict n lines most ≡ verdict.Valid → IsWellFormed n → Realises (network_machine n) (netlist_machine (assembled n lines)) }
{
    node_after_node();
    sources_first();
    g_net::machine_lasts();
    g_net::machine_step();
    n_cells::machine_lasts();
    n_cells::machine_step();
}
