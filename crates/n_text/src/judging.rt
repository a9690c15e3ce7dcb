ghost use Rattle.std.specs.Prelude.{◌≡◌, ◌≤◌, ◌<◌, ◌+◌, ◌*◌, ◌^◌, ◌/◌, List, ℕ, length, flat_map};
ghost use Rattle.lz_base.specs.Met.{Met};
ghost use Rattle.lz_base.specs.declared.rule.Rule.TheVariants.{N2};
ghost use Rattle.lz_lines.specs.References.{Judges, wrong_numbers};
ghost use Rattle.n_cells.specs.Cell.{stored_of};
ghost use Rattle.n_cells.specs.Leaves.{most_leaves};
ghost use Rattle.n_cells.specs.Netlist.{cell_nets, FillOutputs, HasShape, HaveShapes};
ghost use Rattle.n_cells.specs.Text.{cell_line, flop_line, output_lines};
ghost use Rattle.n_text.specs.Referred.{flop_nets, wrong_cell, wrong_cells, wrong_flops, wrong_outputs};

use lz_base::{Items, Num, Port, Rule, Stop};
use lz_lines::{judge_numbers, judge_output};
use n_cells::{Cell, Flop, Format};
use n_parts::Piece;
use std::collections::BTreeSet;

// Judges the line of a flip-flop that begins at this place, and gives the place behind it.
fn judge_flop(format: Format, flop: &Flop, count: u128, at: usize) -> Result<usize, Stop>
    requires { at + length (flop_line format flop.now) < 2 ^ 64 }
    ensures { Judges N2 result (at + length (flop_line format flop.now)) (wrong_numbers count (at + 4) (flop_nets format flop.now)) }
{
    let behind = match format {
        Format::One => judge_numbers(Rule::N2, &[flop.net], count, at + 4)?,
        Format::Two => judge_numbers(Rule::N2, &[flop.net, flop.enable], count, at + 4)?,
    };
    Ok(behind + 1)
}

/// Judges the lines of flip-flops, the first of which begins at this place, and gives the place behind them.
pub(crate) fn judge_flops(
    format: Format,
    flops: &[Flop],
    count: u128,
    at: usize,
) -> Result<usize, Stop>
    requires room { at + length (flat_map (flop_line format) flops.now) < 2 ^ 64 }
    ensures { Judges N2 result (at + length (flat_map (flop_line format) flops.now)) (wrong_flops format count at flops.now) }
{
    let mut at = at;
    for flop in flops {
        at = judge_flop(format, flop, count, at)?;
    }
    Ok(at)
}

// The digits of a table over so many leaves.
fn digit_count(leaves: usize) -> usize
    requires { leaves ≤ most_leaves }
    ensures { result ≡ (2 ^ leaves + 3) / 4 }
{
    ((1usize << leaves) + 3) / 4
}

// Judges the line of a cell that begins at this place, and gives the place behind it. How many leaves a table has is one
// digit.
#[tactic(auto, using(crate::proofs::Lengths::lut_length, crate::proofs::Lengths::lut_places))]
fn judge_cell(cell: Cell<'_>, next: u128, at: usize) -> Result<usize, Stop>
    requires shape { HasShape (stored_of cell) }
    requires room { at + length (cell_line (stored_of cell)) < 2 ^ 64 }
    ensures { Judges N2 result (at + length (cell_line (stored_of cell.entry))) (wrong_cell next at (stored_of cell.entry)) }
{
    match cell {
        Cell::Lut { leaves, table: _ } => {
            let behind = judge_numbers(Rule::N2, leaves, next, at + 5)?;
            Ok(behind + 2 + digit_count(leaves.len()))
        }
        Cell::Carry(a, b, c) => {
            let behind = judge_numbers(Rule::N2, &[a, b, c], next, at + 5)?;
            Ok(behind + 1)
        }
    }
}

/// Judges the lines of cells, the first of which begins at this place and has this net, and gives the place behind them.
pub(crate) fn judge_cells(cells: &[Piece], first: u128, at: usize) -> Result<usize, Stop>
    requires shapes { HaveShapes cells.now }
    requires nets { first + cell_nets cells.now < 2 ^ 128 }
    requires room { at + length (flat_map cell_line cells.now) < 2 ^ 64 }
    ensures { Judges N2 result (at + length (flat_map cell_line cells.now)) (wrong_cells first at cells.now) }
{
    let mut next = first;
    let mut at = at;
    for cell in cells {
        at = judge_cell(cell.cell(), next, at)?;
        next += u128::from(cell.cell().nets());
    }
    Ok(at)
}

/// Judges the lines of outputs, the first of which begins at this place, and gives the place behind them.
pub(crate) fn judge_outputs<'a>(
    ports: &'a [Port],
    nets: &[Items<Num>],
    met: &mut BTreeSet<&'a [u8]>,
    count: u128,
    at: usize,
) -> Result<usize, Stop>
    requires filled { FillOutputs ports.now nets.now }
    requires room { at + length (output_lines ports.now nets.now) < 2 ^ 64 }
    ensures { (names : List (List ℕ)) → Met met.old names → Judges N2 result (at + length (output_lines ports.now nets.now)) (wrong_outputs names count at ports.now nets.now) }
{
    let mut at = at;
    for i in 0..ports.len() {
        at = judge_output(Rule::N2, &ports[i].name, nets[i].as_slice(), met, count, at)?;
    }
    Ok(at)
}
