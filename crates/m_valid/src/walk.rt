ghost use Rattle.std.specs.Prelude.{◌≡◌, ℕ, ◌<◌, ◌≤◌, List, length, slice_index, None, IfOk};
ghost use Rattle.g_net.specs.declared.proposal.Line.{Line};
ghost use Rattle.m_valid.specs.Nodes.{AllReadBefore};
ghost use Rattle.m_valid.specs.Validity.{increase};
ghost use Rattle.m_valid.specs.Walk as walk;
ghost use Rattle.m_valid.specs.Walk.{known, IsLeafTable, IsCone, IsReady, IsTurn, IsWalking, last_of};

use crate::marks::{Mark, known, leave_mark};
use crate::nodes::Node;
use crate::step::{Step, next_step};
use crate::tables::leaf_table;
use g_net::Line;
use lz_base::{Num, OutOfMemory};

// Marks the leaves of a line, none of which is marked, with their tables.
fn mark_leaves(marks: &mut [Mark], line: usize, leaves: &[Num])
    requires few { length leaves.now ≤ 6 }
    requires there { (k : ℕ) → k < length leaves.now → slice_index leaves.now k < length marks.old }
    requires unmarked { (k : ℕ) → known marks.old line k ≡ None }
    ensures tables { (k : ℕ) → IsLeafTable 0 leaves.now k (known marks.new line k) }
    ensures later { (later k : ℕ) → line < later → known marks.old later k ≡ None → known marks.new later k ≡ None }
{
    let mut j = leaves.len();
    while 0 < j {
        j -= 1;
        leave_mark(marks, line, leaves[j] as usize, leaf_table(j));
    }
}

// The last node of a path, or the root.
fn last_of(path: &[usize], root: usize) -> usize
    ensures { result ≡ last_of path.now root }
{
    match path.last() {
        Some(number) => *number,
        None => root,
    }
}

// One turn of a walk, which stands at the last node of a path, or at the root. It goes down to an operand, or marks the
// node and goes back, or it stops and answers false where the node is a source.
fn turn(
    nodes: &[Node],
    marks: &mut [Mark],
    path: &mut Vec<usize>,
    number: usize,
    line: &Line,
) -> Result<bool, OutOfMemory>
    requires marked { length marks.old ≡ length nodes.now }
    requires before { AllReadBefore nodes.now }
    requires there { line.now.root < length nodes.now }
    requires walking { IsWalking nodes.now line.now (known marks.old number) path.old.items }
    requires unknown { known marks.old number line.now.root ≡ None }
    ensures turn { IfOk result (IsTurn nodes.now line.now number marks.old marks.new path.old.items path.new.items) }
    ensures later { (later k : ℕ) → number < later → known marks.old later k ≡ None → known marks.new later k ≡ None }
{
    let here = last_of(path.as_slice(), line.root as usize);
    match next_step(nodes, marks, number, here) {
        Step::Down(operand) => {
            path.push(operand)?;
            Ok(true)
        }
        Step::Up(table) => {
            leave_mark(marks, number, here, table);
            path.pop();
            Ok(true)
        }
        Step::Stop => Ok(false),
    }
}

/// The table of a line's root over its leaves, or none where a way down from the root meets a source that is no leaf. The
/// line has a number that no mark has. A node of the cone is gone down to once, and gone up from once; the walk ends at
/// the first such source.
pub fn cone(
    nodes: &[Node],
    marks: &mut [Mark],
    path: &mut Vec<usize>,
    number: usize,
    line: &Line,
) -> Result<Option<u64>, OutOfMemory>
    requires marked { length marks.old ≡ length nodes.now }
    requires before { AllReadBefore nodes.now }
    requires ready { IsReady (length nodes.now) line.now }
    requires unmarked { (k : ℕ) → known marks.old number k ≡ None }
    ensures cone { IfOk result (IsCone nodes.now line.now) }
    ensures later { (later k : ℕ) → number < later → known marks.old later k ≡ None → known marks.new later k ≡ None }
{
    mark_leaves(marks, number, line.leaves.as_slice());
    path.clear();
    'walk: loop {
        match known(marks, number, line.root as usize) {
            Some(table) => return Ok(Some(table)),
            None => {
                let goes_on = turn(nodes, marks, path, number, line)?;
                if !goes_on {
                    return Ok(None);
                }
            }
        }
    }
}
