ghost use Rattle.std.specs.Prelude.{◌≡◌, ◌≤◌, ◌<◌, ◌^◌, [], length, OnOk, IfErr};
ghost use Rattle.lz_base.specs.Limits.{text_limit};
ghost use Rattle.lz_base.specs.declared.rule.Rule.TheVariants.{N2};
ghost use Rattle.lz_lines.specs.References.{IsWrong};
ghost use Rattle.n_cells.specs.Form.{HasForm};
ghost use Rattle.n_cells.specs.Text.{text};
ghost use Rattle.n_text.specs.Lent.{lent_value};
ghost use Rattle.n_text.specs.Raw.{model_line};
ghost use Rattle.n_text.specs.Referred.{wrong_places};

use crate::counting::{count_front, count_nets};
use crate::judging::{judge_cells, judge_flops, judge_outputs};
use crate::raw::Lent;
use lz_base::{Name, Rule, Stop, no_names};
use lz_lines::{judge_inputs, meet_clock};
use n_cells::Format;
use std::alloc::Global;

// The place behind the model's line, which has the same length in each format.
#[tactic(auto, using(crate::proofs::Faulting::model_length))]
fn behind_model(format: Format, name: &Name) -> usize
    requires { length (model_line format name.now) < 2 ^ 64 }
    ensures { result ≡ length (model_line format name.now) }
{
    16 + name.bytes().len()
}

/// Judges the references of lines that were read: the fault N2 is at the least byte of a wrong number or of a name that
/// stands twice.
pub(crate) fn judge(alloc: Global, format: Format, parts: Lent<'_>) -> Result<(), Stop>
    requires form { HasForm format (lent_value parts) }
    requires room { length (text format (lent_value parts)) ≤ text_limit }
    ensures right { OnOk result (wrong_places format (lent_value parts.entry) ≡ []) }
    ensures fault { IfErr result (IsWrong N2 (wrong_places format (lent_value parts.entry))) }
{
    let Lent {
        name,
        clock,
        inputs,
        flops,
        cells,
        outputs,
        nets,
    } = parts;
    let mut met = no_names(alloc);
    let first = count_front(inputs, flops);
    let count = first + count_nets(cells);
    let at = meet_clock(clock, &mut met, behind_model(format, name))?;
    let at = judge_inputs(Rule::N2, inputs, &mut met, at)?;
    let at = judge_flops(format, flops, count, at)?;
    let at = judge_cells(cells, first, at)?;
    judge_outputs(outputs, nets, &mut met, count, at)?;
    Ok(())
}
