ghost use Rattle.std.specs.Prelude.{◌≡◌, ◌≤◌, ◌<◌, ◌+◌, ◌*◌, ◌^◌, ◌++◌, ◌∷◌, [], List, ℕ, length, flat_map, IfOk, OnOk};
ghost use Rattle.lz_base.specs.Met.{Met};
ghost use Rattle.lz_base.specs.declared.rule.Rule.TheVariants.{G2};
ghost use Rattle.lz_lines.specs.References.{Judges, wrong_numbers, wrong_output};
ghost use Rattle.g_net.specs.Network as network;
ghost use Rattle.g_net.specs.Network.{gate_nodes};
ghost use Rattle.g_text.specs.Referred.{wrong_flips, wrong_gate, wrong_gates, wrong_outputs};
ghost use Rattle.g_text.specs.Text.{flip_line, gate_line, named_line};

use crate::raw::RawOutput;
use g_net::{Flip, Gate};
use lz_base::{Num, Rule, Stop};
use lz_lines::{judge_numbers, judge_output};
use std::collections::BTreeSet;

// Judges the line of a flip-flop that begins at this place, and gives the place behind it.
fn judge_flip(flip: &Flip, count: Num, at: usize) -> Result<usize, Stop>
    requires few { count ≤ 2 ^ 72 }
    requires room { at + length (flip_line flip.now) < 2 ^ 64 }
    ensures { Judges G2 result (at + length (flip_line flip.now)) (wrong_numbers (2 * count) (at + 4) (flip.now.literal ∷ flip.now.enable ∷ [])) }
{
    let behind = judge_numbers(Rule::G2, &[flip.literal, flip.enable], 2 * count, at + 4)?;
    Ok(behind + 1)
}

/// Judges the lines of flip-flops, the first of which begins at this place, and gives the place behind them.
pub(crate) fn judge_flips(flips: &[Flip], count: Num, at: usize) -> Result<usize, Stop>
    requires few { count ≤ 2 ^ 72 }
    requires room { at + length (flat_map flip_line flips.now) < 2 ^ 64 }
    ensures { Judges G2 result (at + length (flat_map flip_line flips.now)) (wrong_flips count at flips.now) }
{
    let mut at = at;
    for flip in flips {
        at = judge_flip(flip, count, at)?;
    }
    Ok(at)
}

// Judges the line of a gate that begins at this place, and gives the place behind it.
fn judge_gate(gate: Gate, next: Num, at: usize) -> Result<usize, Stop>
    requires few { next ≤ 2 ^ 72 }
    requires room { at + length (gate_line gate) < 2 ^ 64 }
    ensures { Judges G2 result (at + length (gate_line gate)) (wrong_gate next at gate) }
{
    let behind = match gate {
        Gate::And(a, b) => judge_numbers(Rule::G2, &[a, b], 2 * next, at + 3)?,
        Gate::Xor(a, b) => judge_numbers(Rule::G2, &[a, b], 2 * next, at + 3)?,
        Gate::Carry(a, b, c) => judge_numbers(Rule::G2, &[a, b, c], 2 * next, at + 5)?,
    };
    Ok(behind + 1)
}

/// How many nodes a gate has.
pub(crate) fn nodes_of(gate: Gate) -> Num
    ensures { result ≡ network.nodes_of gate }
{
    match gate {
        Gate::And(_, _) => 1,
        Gate::Xor(_, _) => 1,
        Gate::Carry(_, _, _) => 2,
    }
}

/// Judges the lines of gates, the first of which begins at this place and has this node, and gives the place behind them.
pub(crate) fn judge_gates(gates: &[Gate], first: Num, at: usize) -> Result<usize, Stop>
    requires few { first + gate_nodes gates.now ≤ 2 ^ 72 }
    requires room { at + length (flat_map gate_line gates.now) < 2 ^ 64 }
    ensures { Judges G2 result (at + length (flat_map gate_line gates.now)) (wrong_gates first at gates.now) }
{
    let mut next = first;
    let mut at = at;
    for gate in gates {
        at = judge_gate(*gate, next, at)?;
        next += nodes_of(*gate);
    }
    Ok(at)
}

// Judges the line of an output that begins at this place, and gives the place behind it.
fn judge_named<'a>(
    output: &'a RawOutput,
    met: &mut BTreeSet<&'a [u8]>,
    count: Num,
    at: usize,
) -> Result<usize, Stop>
    requires few { count ≤ 2 ^ 72 }
    requires room { at + length (named_line output.now) < 2 ^ 64 }
    ensures judged { (names : List (List ℕ)) → Met met.old names → Judges G2 result (at + length (named_line output.now)) (wrong_output names (2 * count) at output.now.name output.now.literals) }
    ensures place { IfOk result (λ behind. behind ≡ at + length (named_line output.now)) }
    ensures met { OnOk result ((names : List (List ℕ)) → Met met.old names → Met met.new (names ++ output.now.name ∷ [])) }
{
    let literals = output.literals.as_slice();
    judge_output(Rule::G2, &output.name, literals, met, 2 * count, at)
}

/// Judges the lines of outputs, the first of which begins at this place, and gives the place behind them.
pub(crate) fn judge_outputs<'a>(
    outputs: &'a [RawOutput],
    met: &mut BTreeSet<&'a [u8]>,
    count: Num,
    at: usize,
) -> Result<usize, Stop>
    requires few { count ≤ 2 ^ 72 }
    requires room { at + length (flat_map named_line outputs.now) < 2 ^ 64 }
    ensures { (names : List (List ℕ)) → Met met.old names → Judges G2 result (at + length (flat_map named_line outputs.now)) (wrong_outputs names count at outputs.now) }
{
    let mut at = at;
    for output in outputs {
        at = judge_named(output, met, count, at)?;
    }
    Ok(at)
}
