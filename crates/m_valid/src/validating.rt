ghost use Rattle.std.specs.Prelude.{◌≡◌, ◌≤◌, [], length, IfOk};
ghost use Rattle.m_valid.specs.declared.verdict.Verdict.TheVariants as verdict;
ghost use Rattle.m_valid.specs.Nodes.{AllReadBefore, nodes_of};
ghost use Rattle.m_valid.specs.Validity as validity;
ghost use Rattle.m_valid.specs.Validity.{lines_verdict, roots_of};
ghost use Rattle.m_valid.specs.Walk.{Tells};

use crate::cones::wrong_cone;
use crate::flags::no_flags;
use crate::leaves::wrong_leaves;
use crate::needs::missing_root;
use crate::nodes::{Node, nodes_of};
use crate::roots::wrong_root;
use crate::verdict::{Check, Verdict};
use g_net::{Line, Network, Proposal};
use lz_base::OutOfMemory;
use std::alloc::Global;

// The verdict on the lines alone, by the checks V1 to V4. Where none is broken, the roots are flagged.
fn judge_lines(
    alloc: Global,
    nodes: &[Node],
    roots: &mut [bool],
    lines: &[Line],
    k: u32,
) -> Result<Verdict, OutOfMemory>
    requires few { k ≤ 6 }
    requires before { AllReadBefore nodes.now }
    requires flagged { length roots.old ≡ length nodes.now }
    requires none { Tells roots.old [] }
    ensures verdict { IfOk result (λ v. v ≡ lines_verdict nodes.now lines.now k verdict.Valid) }
    ensures roots { IfOk result (λ v. v ≡ verdict.Valid → Tells roots.new (roots_of lines.now)) }
{
    if let Some(at) = wrong_root(nodes, lines) {
        return Ok(Verdict::Broken {
            check: Check::V1,
            at,
        });
    }
    if let Some(at) = wrong_leaves(nodes, roots, lines, k) {
        return Ok(Verdict::Broken {
            check: Check::V2,
            at,
        });
    }
    let verdict = wrong_cone(alloc, nodes, lines)?;
    Ok(verdict)
}

// The verdict on lines, where the nodes are those of the network and no root is flagged yet.
fn judge(
    alloc: Global,
    network: &Network,
    nodes: &[Node],
    roots: &mut [bool],
    lines: &[Line],
    k: u32,
) -> Result<Verdict, OutOfMemory>
    requires few { k ≤ 6 }
    requires nodes { nodes.now ≡ nodes_of network.now }
    requires before { AllReadBefore nodes.now }
    requires flagged { length roots.old ≡ length nodes.now }
    requires none { Tells roots.old [] }
    ensures { IfOk result (λ v. v ≡ validity.verdict network.now lines.now k) }
{
    match judge_lines(alloc, nodes, roots, lines, k)? {
        Verdict::Valid => match missing_root(alloc, network, nodes, roots)? {
            Some(at) => Ok(Verdict::Broken {
                check: Check::V5,
                at,
            }),
            None => Ok(Verdict::Valid),
        },
        Verdict::Broken { check, at } => Ok(Verdict::Broken { check, at }),
    }
}

/// Whether a proposal is valid for a network, with up to so many leaves, at most six, in each line; and else the first of
/// its checks that is broken, at the least place. Nothing is asked of the proposal. `OutOfMemory` is the only other answer.
///
/// It takes linear work in the network, in the proposal and in the sum of the cones of its lines, where a line's cone is
/// what lies between its leaves and its root. The first line whose cone reaches past its leaves ends the walks.
pub fn validate(
    alloc: Global,
    network: &Network,
    proposal: &Proposal,
    k: u32,
) -> Result<Verdict, OutOfMemory>
    requires few { k ≤ 6 }
    ensures { IfOk result (λ v. v ≡ validity.verdict network.now proposal.now.lines k) }
{
    let nodes = nodes_of(alloc, network)?;
    let nodes = nodes.as_slice();
    let mut roots = no_flags(alloc, nodes.len())?;
    let lines = proposal.lines.as_slice();
    let verdict = judge(alloc, network, nodes, &mut roots, lines, k)?;
    Ok(verdict)
}
