ghost use Rattle.std.specs.Prelude.{◌≡◌, ◌++◌, [], ◌∷◌, map, OnOk, IfOk};
ghost use Rattle.lz_base.specs.Names.{AreDistinct};
ghost use Rattle.lz_circuit.specs.Lines.{HasClock, HaveWidths};
ghost use Rattle.n_cells.specs.Cell.{stored_of};
ghost use Rattle.n_cells.specs.Netlist.{names_of, HasShape, ReadsBelow, net_count, HaveShapes, FillOutputs, ReadBackwards, OutputsBelow, IsWellFormed};

use crate::parts::Parts;
use crate::piece::Piece;
use lz_base::{Items, Num, OutOfMemory, Port};
use n_cells::{Cell, Flop, Netlist, NetlistMaker};
use std::alloc::Global;

fn fill_inputs(alloc: Global, maker: &mut NetlistMaker, ports: &[Port]) -> Result<(), OutOfMemory>
    requires no_flop { maker.old.flops ≡ [] }
    requires no_cell { maker.old.cells ≡ [] }
    requires no_output { maker.old.outputs ≡ [] }
    requires widths { HaveWidths ports.now }
    requires names { AreDistinct (names_of maker.old ++ map (λ p. p.name) ports.now) }
    ensures { OnOk result (maker.new ≡ record maker.old { inputs = maker.old.inputs ++ ports.now }) }
{
    for port in ports {
        let name = port.name.copy(alloc)?;
        maker.input(Port {
            name,
            width: port.width,
        })?;
    }
    Ok(())
}

fn fill_flops(maker: &mut NetlistMaker, flops: &[Flop]) -> Result<(), OutOfMemory>
    requires clocked { HasClock maker.old.clock flops.now }
    requires no_cell { maker.old.cells ≡ [] }
    requires no_output { maker.old.outputs ≡ [] }
    ensures { OnOk result (maker.new ≡ record maker.old { flops = maker.old.flops ++ flops.now }) }
{
    for flop in flops {
        maker.flip(flop.first, flop.net, flop.enable)?;
    }
    Ok(())
}

fn add_cell(maker: &mut NetlistMaker, cell: Cell<'_>) -> Result<(), OutOfMemory>
    requires no_output { maker.old.outputs ≡ [] }
    requires shape { HasShape (stored_of cell) }
    requires there { ReadsBelow (net_count maker.old) (stored_of cell) }
    ensures { OnOk result (maker.new ≡ record maker.old { cells = maker.old.cells ++ stored_of cell.entry ∷ [] }) }
{
    match cell {
        Cell::Lut { leaves, table } => maker.lut(leaves, table),
        Cell::Carry(a, b, c) => maker.carry(a, b, c),
    }
}

fn fill_cells(maker: &mut NetlistMaker, cells: &[Piece]) -> Result<(), OutOfMemory>
    requires no_output { maker.old.outputs ≡ [] }
    requires shapes { HaveShapes cells.now }
    requires backwards { ReadBackwards (net_count maker.old) cells.now }
    ensures { OnOk result (maker.new ≡ record maker.old { cells = maker.old.cells ++ cells.now }) }
{
    for cell in cells {
        add_cell(maker, cell.cell())?;
    }
    Ok(())
}

fn fill_outputs(
    alloc: Global,
    maker: &mut NetlistMaker,
    ports: &[Port],
    nets: &[Items<Num>],
) -> Result<(), OutOfMemory>
    requires widths { HaveWidths ports.now }
    requires filled { FillOutputs ports.now nets.now }
    requires names { AreDistinct (names_of maker.old ++ map (λ p. p.name) ports.now) }
    requires there { OutputsBelow (net_count maker.old) nets.now }
    ensures { OnOk result (maker.new ≡ record maker.old { outputs = maker.old.outputs ++ ports.now; nets = maker.old.nets ++ nets.now }) }
{
    for i in 0..ports.len() {
        let name = ports[i].name.copy(alloc)?;
        maker.output(name, nets[i].as_slice())?;
    }
    Ok(())
}

// Appends all lines to a maker that has none but the model's and the clock's.
fn fill(
    alloc: Global,
    maker: &mut NetlistMaker,
    inputs: &[Port],
    flops: &[Flop],
    cells: &[Piece],
    outputs: &[Port],
    nets: &[Items<Num>],
) -> Result<(), OutOfMemory>
    requires bare { maker.old ≡ record maker.old { inputs = []; flops = []; cells = []; outputs = []; nets = [] } }
    requires formed { IsWellFormed (record maker.old { inputs = inputs.now; flops = flops.now; cells = cells.now; outputs = outputs.now; nets = nets.now }) }
    ensures { OnOk result (maker.new ≡ record maker.old { inputs = inputs.now; flops = flops.now; cells = cells.now; outputs = outputs.now; nets = nets.now }) }
{
    fill_inputs(alloc, maker, inputs)?;
    fill_flops(maker, flops)?;
    fill_cells(maker, cells)?;
    fill_outputs(alloc, maker, outputs, nets)
}

/// The netlist of these parts, where they are well formed. `OutOfMemory` is the only other answer.
///
/// It takes work that is linear in the parts.
pub fn make(alloc: Global, parts: Parts) -> Result<Netlist, OutOfMemory>
    requires { IsWellFormed parts }
    ensures same { IfOk result (λ n. n ≡ parts) }
    ensures formed { IfOk result IsWellFormed }
{
    let Parts {
        name,
        clock,
        inputs,
        flops,
        cells,
        outputs,
        nets,
    } = parts;
    let mut maker = NetlistMaker::new(alloc, name, clock);
    fill(
        alloc,
        &mut maker,
        inputs.as_slice(),
        flops.as_slice(),
        cells.as_slice(),
        outputs.as_slice(),
        nets.as_slice(),
    )?;
    Ok(maker.finish())
}
