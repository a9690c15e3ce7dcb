ghost use Rattle.std.specs.Prelude.{◌≡◌, ◌++◌, flat_map, OnOk, IfOk};
ghost use Rattle.lz_lines.specs.Fields.{Each};
ghost use Rattle.g_text.specs.Form.{HasForm, IsFlip, IsGate, IsOutput};
ghost use Rattle.g_text.specs.Text.{flip_line, gate_line, named_line, text};

use g_net::{Flip, Gate, Network};
use lz_base::OutOfMemory;
use lz_lines::{
    push_bit, push_clock, push_field, push_inputs, push_line_end, push_number, push_output,
};
use std::alloc::Global;

fn push_flip(out: &mut Vec<u8>, flip: &Flip) -> Result<(), OutOfMemory>
    ensures text { OnOk result (out.new.items ≡ out.old.items ++ flip_line flip.now) }
    ensures small { OnOk result (IsFlip flip.now) }
{
    out.extend_from_slice(b"ff")?;
    push_bit(out, flip.first)?;
    push_number(out, flip.literal)?;
    push_number(out, flip.enable)?;
    push_line_end(out)
}

fn push_flips(out: &mut Vec<u8>, flips: &[Flip]) -> Result<(), OutOfMemory>
    ensures text { OnOk result (out.new.items ≡ out.old.items ++ flat_map flip_line flips.now) }
    ensures small { OnOk result (Each IsFlip flips.now) }
{
    for flip in flips {
        push_flip(out, flip)?;
    }
    Ok(())
}

fn push_gate(out: &mut Vec<u8>, gate: Gate) -> Result<(), OutOfMemory>
    ensures text { OnOk result (out.new.items ≡ out.old.items ++ gate_line gate) }
    ensures small { OnOk result (IsGate gate) }
{
    match gate {
        Gate::And(a, b) => {
            out.extend_from_slice(b"and")?;
            push_number(out, a)?;
            push_number(out, b)?;
            push_line_end(out)
        }
        Gate::Xor(a, b) => {
            out.extend_from_slice(b"xor")?;
            push_number(out, a)?;
            push_number(out, b)?;
            push_line_end(out)
        }
        Gate::Carry(a, b, c) => {
            out.extend_from_slice(b"carry")?;
            push_number(out, a)?;
            push_number(out, b)?;
            push_number(out, c)?;
            push_line_end(out)
        }
    }
}

fn push_gates(out: &mut Vec<u8>, gates: &[Gate]) -> Result<(), OutOfMemory>
    ensures text { OnOk result (out.new.items ≡ out.old.items ++ flat_map gate_line gates.now) }
    ensures small { OnOk result (Each IsGate gates.now) }
{
    for gate in gates {
        push_gate(out, *gate)?;
    }
    Ok(())
}

fn push_outputs(out: &mut Vec<u8>, network: &Network) -> Result<(), OutOfMemory>
    ensures text { OnOk result (out.new.items ≡ out.old.items ++ flat_map named_line network.now.outputs) }
    ensures formed { OnOk result (Each IsOutput network.now.outputs) }
{
    for i in 0..network.output_count() {
        push_output(out, network.output_name(i), network.output_literals(i))?;
    }
    Ok(())
}

/// The one text of a network. The network has the form of those that are read back from their texts.
pub fn print(alloc: Global, network: &Network) -> Result<Vec<u8>, OutOfMemory>
    ensures text { IfOk result (λ v. v.items ≡ text network.now) }
    ensures form { IfOk result (λ _. HasForm network.now) }
{
    let mut out = Vec::new(alloc);
    out.extend_from_slice(b"network 2\nmodel")?;
    push_field(&mut out, network.name().bytes())?;
    push_line_end(&mut out)?;
    push_clock(&mut out, network.clock())?;
    push_inputs(&mut out, network.inputs())?;
    push_flips(&mut out, network.flips())?;
    push_gates(&mut out, network.gates())?;
    push_outputs(&mut out, network)?;
    out.extend_from_slice(b"end\n")?;
    Ok(out)
}
