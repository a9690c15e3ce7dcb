ghost use Rattle.std.specs.Prelude.{◌≡◌, ◌<◌, ◌++◌, flat_map, OnOk, IfOk};
ghost use Rattle.lz_base.specs.Names.{IsName};
ghost use Rattle.lz_lines.specs.Fields.{Each};
ghost use Rattle.n_cells.specs.Cell.{stored_of};
ghost use Rattle.n_cells.specs.Form.{bound, CellsBelow, HasForm};
ghost use Rattle.n_cells.specs.Netlist.{HasShape, ReadsBelow, FlopsBelow, OutputsBelow};
ghost use Rattle.n_cells.specs.Text.{flop_line, cell_line, output_lines, text};

use lz_base::OutOfMemory;
use lz_lines::{
    push_bit, push_clock, push_field, push_inputs, push_line_end, push_number, push_output,
    push_table,
};
use n_cells::{Cell, Flop, Format, Netlist};
use std::alloc::Global;

fn push_flop(out: &mut Vec<u8>, flop: &Flop) -> Result<(), OutOfMemory>
    ensures text { OnOk result (out.new.items ≡ out.old.items ++ flop_line Format.Two flop.now) }
    ensures below { OnOk result (flop.now.net < bound) }
    ensures enable { OnOk result (flop.now.enable < bound) }
{
    out.extend_from_slice(b"ff")?;
    push_bit(out, flop.first)?;
    push_number(out, flop.net)?;
    push_number(out, flop.enable)?;
    push_line_end(out)
}

fn push_flops(out: &mut Vec<u8>, flops: &[Flop]) -> Result<(), OutOfMemory>
    ensures text { OnOk result (out.new.items ≡ out.old.items ++ flat_map (flop_line Format.Two) flops.now) }
    ensures below { OnOk result (FlopsBelow bound flops.now) }
{
    for flop in flops {
        push_flop(out, flop)?;
    }
    Ok(())
}

#[tactic(auto, using(crate::proofs::Spelling::within_bound))]
fn push_cell(out: &mut Vec<u8>, cell: Cell<'_>) -> Result<(), OutOfMemory>
    requires { HasShape (stored_of cell) }
    ensures text { OnOk result (out.new.items ≡ out.old.items ++ cell_line (stored_of cell.entry)) }
    ensures below { OnOk result (ReadsBelow bound (stored_of cell.entry)) }
{
    match cell {
        Cell::Lut { leaves, table } => {
            out.extend_from_slice(b"lut")?;
            push_table(out, leaves, table)?;
            push_line_end(out)
        }
        Cell::Carry(a, b, c) => {
            out.extend_from_slice(b"carry")?;
            push_number(out, a)?;
            push_number(out, b)?;
            push_number(out, c)?;
            push_line_end(out)
        }
    }
}

fn push_cells(out: &mut Vec<u8>, netlist: &Netlist) -> Result<(), OutOfMemory>
    ensures text { OnOk result (out.new.items ≡ out.old.items ++ flat_map cell_line netlist.now.cells) }
    ensures below { OnOk result (CellsBelow bound netlist.now.cells) }
{
    for i in 0..netlist.cell_count() {
        push_cell(out, netlist.cell(i))?;
    }
    Ok(())
}

fn push_outputs(out: &mut Vec<u8>, netlist: &Netlist) -> Result<(), OutOfMemory>
    ensures text { OnOk result (out.new.items ≡ out.old.items ++ output_lines netlist.now.outputs netlist.now.nets) }
    ensures named { OnOk result (Each (λ p. IsName p.name) netlist.now.outputs) }
    ensures below { OnOk result (OutputsBelow bound netlist.now.nets) }
{
    let outputs = netlist.outputs();
    for i in 0..outputs.len() {
        push_output(out, &outputs[i].name, netlist.output_nets(i))?;
    }
    Ok(())
}

/// The one text of a netlist in format 2. The netlist has the form of those that are read back from their texts.
pub fn print(alloc: Global, netlist: &Netlist) -> Result<Vec<u8>, OutOfMemory>
    ensures text { IfOk result (λ v. v.items ≡ text Format.Two netlist.now) }
    ensures form { IfOk result (λ _. HasForm Format.Two netlist.now) }
{
    let mut out = Vec::new(alloc);
    out.extend_from_slice(b"lutnet 2\nmodel")?;
    push_field(&mut out, netlist.name().bytes())?;
    push_line_end(&mut out)?;
    push_clock(&mut out, netlist.clock())?;
    push_inputs(&mut out, netlist.inputs())?;
    push_flops(&mut out, netlist.flops())?;
    push_cells(&mut out, netlist)?;
    push_outputs(&mut out, netlist)?;
    out.extend_from_slice(b"end\n")?;
    Ok(out)
}
