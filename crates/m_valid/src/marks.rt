ghost use Rattle.std.specs.Prelude.{◌≡◌, ◌≢◌, ℕ, ◌+◌, ◌<◌, length, vec_len, Some, None, IfOk};
ghost use Rattle.m_valid.specs.Walk as walk;
ghost use Rattle.m_valid.specs.Walk.{known, left};

use lz_base::OutOfMemory;
use std::alloc::Global;

/// What the walk of a line, numbered from 1, has left at a node: its table.
#[derive(Clone, Copy, Debug)]
pub struct Mark {
    pub line: usize,
    pub table: u64,
}

/// So many marks, of no line.
pub fn no_marks(alloc: Global, count: usize) -> Result<Vec<Mark>, OutOfMemory>
    ensures none { IfOk result (λ marks. (line k : ℕ) → 0 < line → walk.known marks.items line k ≡ None) }
    ensures count { IfOk result (λ marks. vec_len marks ≡ count) }
{
    let marks = vec![in alloc; Mark { line: 0, table: 0 }; count]?;
    Ok(marks)
}

/// The table that the walk of a line has left at a node.
pub fn known(marks: &[Mark], line: usize, number: usize) -> Option<u64>
    requires { number < length marks.now }
    ensures { result ≡ walk.known marks.now line number }
{
    let mark = marks[number];
    if mark.line == line {
        Some(mark.table)
    } else {
        None
    }
}

/// Leaves a table at a node.
pub fn leave_mark(marks: &mut [Mark], line: usize, number: usize, table: u64)
    requires { number < length marks.old }
    ensures here { known marks.new line number ≡ Some table }
    ensures others { (k : ℕ) → k ≢ number → known marks.new line k ≡ known marks.old line k }
    ensures fewer { known marks.old line number ≡ None → left line marks.new + 1 ≡ left line marks.old }
    ensures later { (later k : ℕ) → line < later → known marks.old later k ≡ None → known marks.new later k ≡ None }
{
    marks[number] = Mark { line, table };
}
