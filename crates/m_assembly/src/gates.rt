ghost use Rattle.std.specs.Prelude.{◌≡◌, ◌≤◌, length, IfSome, OnOk};
ghost use Rattle.std.specs.Option.{option_copied};
ghost use Rattle.n_cells.specs.Leaves.{most_leaves};
ghost use Rattle.m_valid.specs.Assembly.{with_gate, with_gates};
ghost use Rattle.m_assembly.specs.Cursor.{AreCuts, first_line, from_root};

use crate::draft::Draft;
use g_net::{Gate, Line};
use lz_base::{Num, OutOfMemory};

// The lines from the first on whose root is at least this number.
fn from_root(lines: &[Line], number: Num) -> &[Line]
    ensures { result.now ≡ from_root number lines.now }
{
    let mut rest = lines;
    while let Some((line, more)) = rest.split_first() {
        if number <= line.root {
            return rest;
        }
        rest = more;
    }
    rest
}

// The first line, where it is that of this node.
fn first_line(lines: &[Line], node: Num) -> Option<&Line>
    requires { AreCuts node lines.now }
    ensures first { option_copied result ≡ first_line lines.now node }
    ensures few { IfSome result (λ l. length l.now.leaves ≤ most_leaves) }
{
    let (line, _) = lines.split_first()?;
    if line.root == node { Some(line) } else { None }
}

// Appends what a gate gives, where the lines are those from its node on.
fn push_gate(draft: &mut Draft, lines: &[Line], gate: Gate) -> Result<(), OutOfMemory>
    requires { AreCuts (length draft.old.nets) lines.now }
    ensures { OnOk result (draft.new ≡ with_gate lines.now draft.old gate) }
{
    let node = draft.node();
    match gate {
        Gate::And(_, _) => draft.push_root(first_line(lines, node)),
        Gate::Xor(_, _) => draft.push_root(first_line(lines, node)),
        Gate::Carry(a, b, c) => draft.push_sum(a, b, c),
    }
}

/// Appends what gates give. The lines are in the order of their roots, and none has more leaves than a look-up table.
pub(crate) fn push_gates(
    draft: &mut Draft,
    lines: &[Line],
    gates: &[Gate],
) -> Result<(), OutOfMemory>
    requires { AreCuts 0 lines.now }
    ensures { OnOk result (draft.new ≡ with_gates lines.now draft.old gates.now) }
{
    let mut rest = lines;
    for gate in gates {
        rest = from_root(rest, draft.node());
        push_gate(draft, rest, *gate)?;
    }
    Ok(())
}
