ghost use Rattle.std.specs.Prelude.{◌≡◌, ◌<◌, ◌≤◌, ◌^◌, ◌++◌, [], ◌∷◌, length, slice_get, Some, IsSome, OnOk, OnErr};
ghost use Rattle.std.specs.Option.{option_copied};
ghost use Rattle.lz_base.specs.Names.{IsNew};
ghost use Rattle.n_cells.specs.Cell.{stored_of};
ghost use Rattle.n_cells.specs.Leaves.{most_leaves};
ghost use Rattle.lz_circuit.specs.Lines.{HaveWidths};
ghost use Rattle.n_cells.specs.Netlist.{HasShape, names_of, nets_of, net_count, AllBelow, FlopsBelow, IsWellFormed};

use crate::leaves::Leaves;
use lz_base::{Items, Name, Num, OutOfMemory, Port};
use std::alloc::Global;
use std::marker::Model;

/// A flip-flop: the bit that it starts with, the net that it takes at the edge where its enable is 1, and the net that
/// is its enable. Where the enable is 0 it keeps its bit.
#[derive(Clone, Copy, Debug, PartialEq, Eq)]
pub struct Flop {
    pub first: bool,
    pub net: Num,
    pub enable: Num,
}

/// A cell, as it is read: a look-up table of up to six leaves, which has one net, or a carry cell over three nets,
/// which has two, their sum and then their majority. Bit i of a table is the output where leaf j has bit j of i.
#[derive(Clone, Copy, Debug)]
pub enum Cell<'a> {
    Lut { leaves: &'a [Num], table: u64 },
    Carry(Num, Num, Num),
}

impl Cell<'_> {
    /// How many nets it makes.
    pub fn nets(self) -> u32
        ensures { result ≡ nets_of (stored_of self.entry) }
    {
        match self {
            Cell::Lut {
                leaves: _,
                table: _,
            } => 1,
            Cell::Carry(_, _, _) => 2,
        }
    }
}

#[derive(Debug, Drop)]
enum Stored {
    Lut { leaves: Leaves, table: u64 },
    Carry(Num, Num, Num),
}

// The lines of a netlist. Each output has its port, and in `nets` its nets, bit 0 first.
#[derive(Debug, Drop)]
struct Lines {
    name: Name,
    clock: Option<Name>,
    inputs: Items<Port>,
    flops: Items<Flop>,
    cells: Items<Stored>,
    outputs: Items<Port>,
    nets: Items<Items<Num>>,
}

/// A netlist, which is well formed.
///
/// Its nets are numbered: 0 is the constant 0, 1 the constant 1, then come the bits of the inputs in order, bit 0 of
/// each first, then one net for each flip-flop, then one for each look-up table and two for each carry cell.
#[derive(Debug, Drop)]
pub struct Netlist {
    lines: Lines,
}

impl Model for Netlist {
    ghost use Rattle.n_cells.specs.Netlist.{NetlistValue, IsWellFormed};

    ghost Value = { NetlistValue };

    ghost use Rattle.n_cells.specs.Views.{lines_value};

    ghost view = { λ n. lines_value n.lines };

    ghost invariant = { λ n. IsWellFormed (lines_value n.lines) };
}

impl Netlist {
    /// The name of the model.
    pub fn name(&self) -> &Name
        ensures name { result.now ≡ self.now.name }
        ensures formed { IsWellFormed self.now }
    {
        &self.lines.name
    }

    /// The name of the clock, where there is one.
    pub fn clock(&self) -> Option<&Name>
        ensures { option_copied result ≡ self.now.clock }
    {
        self.lines.clock.as_ref()
    }

    /// The inputs in order, each of 1 to 128 bits.
    pub fn inputs(&self) -> &[Port]
        ensures ports { result.now ≡ self.now.inputs }
        ensures widths { HaveWidths self.now.inputs }
    {
        self.lines.inputs.as_slice()
    }

    /// The flip-flops in order. The net and the enable of each are there.
    pub fn flops(&self) -> &[Flop]
        ensures flops { result.now ≡ self.now.flops }
        ensures there { FlopsBelow (net_count self.now) self.now.flops }
    {
        self.lines.flops.as_slice()
    }

    /// The number of cells.
    pub fn cell_count(&self) -> usize
        ensures count { result ≡ length self.now.cells }
        ensures formed { IsWellFormed self.now }
    {
        self.lines.cells.len()
    }

    /// The cell at an index: a look-up table has at most six leaves, and a table below 2^(2^leaves).
    #[tactic(auto, using(crate::proofs::Lines::shape_there))]
    pub fn cell(&self, index: usize) -> Cell<'_>
        requires { index < length self.now.cells }
        ensures cell { slice_get self.now.cells index ≡ Some (stored_of result) }
        ensures shape { HasShape (stored_of result) }
    {
        cell_at(self.lines.cells.as_slice(), index)
    }

    /// The outputs in order, each of 1 to 128 bits. `output_nets` has the nets of each.
    #[tactic(auto, using(crate::proofs::Lines::length_filled))]
    pub fn outputs(&self) -> &[Port]
        ensures ports { result.now ≡ self.now.outputs }
        ensures widths { HaveWidths self.now.outputs }
        ensures filled { length self.now.outputs ≡ length self.now.nets }
    {
        self.lines.outputs.as_slice()
    }

    /// The nets of an output, 1 to 128 of them, bit 0 first. They are there.
    #[tactic(auto, using(crate::proofs::Lines::length_filled, crate::proofs::Lines::few_nets, crate::proofs::Lines::some_nets, crate::proofs::Lines::nets_there))]
    pub fn output_nets(&self, index: usize) -> &[Num]
        requires { index < length self.now.outputs }
        ensures nets { slice_get self.now.nets index ≡ Some result.now }
        ensures low { 1 ≤ length result.now }
        ensures high { length result.now ≤ 128 }
        ensures there { AllBelow (net_count self.now) result.now }
    {
        nets_at(self.lines.nets.as_slice(), index)
    }
}

// The nets at an index.
fn nets_at(nets: &[Items<Num>], index: usize) -> &[Num]
    requires { index < length nets.now }
    ensures { slice_get nets.now index ≡ Some result.now }
{
    nets[index].as_slice()
}

// The cell at an index.
fn cell_at(cells: &[Stored], index: usize) -> Cell<'_>
    requires { index < length cells.now }
    ensures { slice_get cells.now index ≡ Some (stored_of result) }
{
    match &cells[index] {
        Stored::Lut { leaves, table } => Cell::Lut {
            leaves: leaves.as_slice(),
            table: *table,
        },
        Stored::Carry(a, b, c) => Cell::Carry(*a, *b, *c),
    }
}

/// A netlist that is made line by line, in the order of its text: inputs, flip-flops, cells, outputs.
///
/// Each call appends one line. Where it answers `OutOfMemory`, the netlist is as before.
#[derive(Debug, Drop)]
pub struct NetlistMaker {
    alloc: Global,
    lines: Lines,
}

impl Model for NetlistMaker {
    ghost use Rattle.n_cells.specs.Netlist.{NetlistValue, IsBegun};

    ghost Value = { NetlistValue };

    ghost use Rattle.n_cells.specs.Views.{lines_value};

    ghost view = { λ n. lines_value n.lines };

    ghost invariant = { λ n. IsBegun (lines_value n.lines) };
}

impl NetlistMaker {
    /// A netlist with this name and clock, and nothing else.
    pub fn new(alloc: Global, name: Name, clock: Option<Name>) -> NetlistMaker
        ensures { result ≡ record { name = name; clock = clock; inputs = []; flops = []; cells = []; outputs = []; nets = [] } }
    {
        let lines = Lines {
            name,
            clock,
            inputs: Items::new(alloc),
            flops: Items::new(alloc),
            cells: Items::new(alloc),
            outputs: Items::new(alloc),
            nets: Items::new(alloc),
        };
        NetlistMaker { alloc, lines }
    }

    /// Appends an input of 1 to 128 bits under a new name.
    pub fn input(&mut self, port: Port) -> Result<(), OutOfMemory>
        requires no_flop { self.old.flops ≡ [] }
        requires no_cell { self.old.cells ≡ [] }
        requires no_output { self.old.outputs ≡ [] }
        requires low { 1 ≤ port.width }
        requires high { port.width ≤ 128 }
        requires new_name { IsNew port.name (names_of self.old) }
        ensures ok { OnOk result (self.new ≡ record self.old { inputs = self.old.inputs ++ port ∷ [] }) }
        ensures err { OnErr result (self.new ≡ self.old) }
    {
        self.lines.inputs.push(port)?;
        Ok(())
    }

    /// Appends a flip-flop that starts with a bit and takes a net where its enable is 1. Both nets may come later.
    pub fn flip(&mut self, first: bool, net: Num, enable: Num) -> Result<(), OutOfMemory>
        requires clocked { IsSome self.old.clock }
        requires no_cell { self.old.cells ≡ [] }
        requires no_output { self.old.outputs ≡ [] }
        ensures ok { OnOk result (self.new ≡ record self.old { flops = self.old.flops ++ record { first = first; net = net; enable = enable } ∷ [] }) }
        ensures err { OnErr result (self.new ≡ self.old) }
    {
        self.lines.flops.push(Flop { first, net, enable })?;
        Ok(())
    }

    /// Appends a look-up table over nets that are there.
    pub fn lut(&mut self, leaves: &[Num], table: u64) -> Result<(), OutOfMemory>
        requires no_output { self.old.outputs ≡ [] }
        requires few { length leaves.now ≤ most_leaves }
        requires fits { table < 2 ^ (2 ^ length leaves.now) }
        requires there { AllBelow (net_count self.old) leaves.now }
        ensures ok { OnOk result (self.new ≡ record self.old { cells = self.old.cells ++ Stored.Lut leaves.now table ∷ [] }) }
        ensures err { OnErr result (self.new ≡ self.old) }
    {
        let leaves = Leaves::new(leaves);
        self.lines.cells.push(Stored::Lut { leaves, table })?;
        Ok(())
    }

    /// Appends a carry cell over nets that are there.
    pub fn carry(&mut self, a: Num, b: Num, c: Num) -> Result<(), OutOfMemory>
        requires no_output { self.old.outputs ≡ [] }
        requires a_there { a < net_count self.old }
        requires b_there { b < net_count self.old }
        requires c_there { c < net_count self.old }
        ensures ok { OnOk result (self.new ≡ record self.old { cells = self.old.cells ++ Stored.Carry a b c ∷ [] }) }
        ensures err { OnErr result (self.new ≡ self.old) }
    {
        self.lines.cells.push(Stored::Carry(a, b, c))?;
        Ok(())
    }

    /// Appends an output of 1 to 128 nets that are there, bit 0 first, under a new name.
    pub fn output(&mut self, name: Name, nets: &[Num]) -> Result<(), OutOfMemory>
        requires new_name { IsNew name (names_of self.old) }
        requires low { 1 ≤ length nets.now }
        requires high { length nets.now ≤ 128 }
        requires there { AllBelow (net_count self.old) nets.now }
        ensures ok { OnOk result (self.new ≡ record self.old { outputs = self.old.outputs ++ record { name = name; width = length nets.now } ∷ []; nets = self.old.nets ++ nets.now ∷ [] }) }
        ensures err { OnErr result (self.new ≡ self.old) }
    {
        let width = nets.len() as u32;
        let nets = Items::from_slice(self.alloc, nets)?;
        self.lines.nets.push(nets)?;
        match self.lines.outputs.push(Port { name, width }) {
            Ok(()) => Ok(()),
            Err(_) => {
                self.lines.nets.pop();
                Err(OutOfMemory)
            }
        }
    }

    /// The netlist, where the nets and the enables of all flip-flops are there.
    pub fn finish(self) -> Netlist
        requires { FlopsBelow (net_count self) self.flops }
        ensures same { result ≡ self }
        ensures formed { IsWellFormed result }
    {
        let NetlistMaker { alloc: _, lines } = self;
        Netlist { lines }
    }
}
