ghost use Rattle.std.specs.Prelude.{◌≡◌, ◌<◌, ◌≤◌, ◌^◌, [], length, OnOk, IfErr};
ghost use Rattle.lz_base.specs.Limits.{text_limit};
ghost use Rattle.lz_base.specs.declared.rule.Rule.TheVariants.{G2};
ghost use Rattle.lz_lines.specs.References.{IsWrong};
ghost use Rattle.g_text.specs.Form.{HasForm};
ghost use Rattle.g_text.specs.Parts.{parts_value};
ghost use Rattle.g_text.specs.Raw.{model_line};
ghost use Rattle.g_text.specs.Referred.{wrong_places};
ghost use Rattle.g_text.specs.Text.{text};

use crate::counting::{count_front, count_nodes};
use crate::judging::{judge_flips, judge_gates, judge_outputs};
use crate::raw::Parts;
use lz_base::{Name, Rule, Stop, no_names};
use lz_lines::{judge_inputs, meet_clock};
use std::alloc::Global;

// The place behind the model's line.
#[tactic(auto, using(crate::proofs::Faulting::model_length))]
fn behind_model(name: &Name) -> usize
    requires { length (model_line name.now) < 2 ^ 64 }
    ensures { result ≡ length (model_line name.now) }
{
    17 + name.bytes().len()
}

/// Judges the references of lines that were read: the fault G2 is at the least byte of a wrong literal or of a name that
/// stands twice.
pub(crate) fn judge(alloc: Global, parts: Parts<'_>) -> Result<(), Stop>
    requires form { HasForm (parts_value parts) }
    requires room { length (text (parts_value parts)) ≤ text_limit }
    ensures right { OnOk result (wrong_places (parts_value parts.entry) ≡ []) }
    ensures fault { IfErr result (IsWrong G2 (wrong_places (parts_value parts.entry))) }
{
    let Parts {
        name,
        clock,
        inputs,
        flips,
        gates,
        outputs,
    } = parts;
    let mut met = no_names(alloc);
    let first = count_front(inputs, flips);
    let count = first + count_nodes(gates);
    let at = meet_clock(clock, &mut met, behind_model(name))?;
    let at = judge_inputs(Rule::G2, inputs, &mut met, at)?;
    let at = judge_flips(flips, count, at)?;
    let at = judge_gates(gates, first, at)?;
    judge_outputs(outputs, &mut met, count, at)?;
    Ok(())
}
