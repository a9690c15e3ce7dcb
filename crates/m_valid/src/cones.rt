ghost use Rattle.std.specs.Prelude.{◌≡◌, ◌<◌, ℕ, if◌then◌else◌, length, None, IfOk};
ghost use Rattle.std.specs.List.{All};
ghost use Rattle.m_valid.specs.declared.verdict.Verdict.TheVariants as verdict;
ghost use Rattle.m_valid.specs.Nodes.{AllReadBefore};
ghost use Rattle.m_valid.specs.Validity.{cones_verdict};
ghost use Rattle.m_valid.specs.Walk.{IsReady, known, sooner};

use crate::marks::{Mark, no_marks};
use crate::nodes::Node;
use crate::tables::same_table;
use crate::verdict::{Check, Verdict};
use crate::walk::cone;
use g_net::Line;
use lz_base::{Num, OutOfMemory};
use std::alloc::Global;

// The first line whose table is wrong, where one was found before, or this one may be.
fn first_wrong(wrong: Option<Num>, holds: bool, at: Num) -> Option<Num>
    ensures { result ≡ sooner wrong (if holds then None else Some at) }
{
    match wrong {
        Some(first) => Some(first),
        None => { if holds { None } else { Some(at) } }
    }
}

// The first line from whose root a way down meets a source that is no leaf, or else the first whose table is wrong, over
// marks of no line. No walk is made behind a line of the first kind.
fn walk_lines(
    nodes: &[Node],
    marks: &mut [Mark],
    path: &mut Vec<usize>,
    lines: &[Line],
) -> Result<Verdict, OutOfMemory>
    requires before { AllReadBefore nodes.now }
    requires ready { All (IsReady (length nodes.now)) lines.now }
    requires marked { length marks.old ≡ length nodes.now }
    requires unmarked { (line k : ℕ) → 0 < line → known marks.old line k ≡ None }
    ensures { IfOk result (λ v. v ≡ cones_verdict nodes.now lines.now verdict.Valid) }
{
    let mut wrong = None;
    for (i, line) in lines.iter().enumerate() {
        let at = i as Num + 1;
        match cone(nodes, marks, path, i + 1, line)? {
            None => {
                return Ok(Verdict::Broken {
                    check: Check::V3,
                    at,
                });
            }
            Some(table) => {
                let holds = same_table(table, line.table, line.leaves.as_slice().len());
                wrong = first_wrong(wrong, holds, at);
            }
        }
    }
    match wrong {
        Some(at) => Ok(Verdict::Broken {
            check: Check::V4,
            at,
        }),
        None => Ok(Verdict::Valid),
    }
}

/// The first line from whose root a way down meets a source that is no leaf, or else the first whose table is not that of
/// its root's values. One walk is made for each line, over marks that all of them share, and none behind a line of the
/// first kind.
pub fn wrong_cone(alloc: Global, nodes: &[Node], lines: &[Line]) -> Result<Verdict, OutOfMemory>
    requires before { AllReadBefore nodes.now }
    requires ready { All (IsReady (length nodes.now)) lines.now }
    ensures { IfOk result (λ v. v ≡ cones_verdict nodes.now lines.now verdict.Valid) }
{
    let mut marks = no_marks(alloc, nodes.len())?;
    let mut path = Vec::new(alloc);
    let verdict = walk_lines(nodes, &mut marks, &mut path, lines)?;
    Ok(verdict)
}
