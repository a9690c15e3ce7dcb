ghost use Rattle.std.specs.Prelude.{◌≡◌, ◌≤◌, ◌+◌, ◌-◌, ◌%◌, ◌^◌, ◌<◌, ◌++◌, [], ◌∷◌, map, slice_index, length, IfOk, IfSome, OnOk};
ghost use Rattle.std.specs.Option.{option_copied};
ghost use Rattle.g_net.specs.Network.{source_bits};
ghost use Rattle.n_cells.specs.Leaves.{most_leaves};
ghost use Rattle.n_cells.specs.declared.netlist.Stored.TheVariants as stored;
ghost use Rattle.m_valid.specs.Assembly.{numbers, sources, with_inverter, with_root, with_carry, with_sum, net_of};

use g_net::{Line, Network};
use lz_base::{Items, Num, OutOfMemory};
use n_cells::{LEAVES, Leaves};
use n_parts::Piece;
use std::alloc::Global;
use std::marker::Model;

/// What is assembled so far: the net of each node that was visited, where it has one, and else 0; the cells in order; and
/// the number of the net that comes next.
#[derive(Drop)]
pub(crate) struct Draft {
    nets: Items<Num>,
    cells: Items<Piece>,
    next: Num,
}

impl Model for Draft {
    ghost use Rattle.m_valid.specs.Assembly.{Assembled};

    ghost Value = { Assembled };

    ghost use Rattle.m_assembly.specs.Views.{draft_value};

    ghost view = { draft_value };
}

// The number of the net behind so many more. More nets than there are numbers for are taken for want of memory.
fn net_after(next: Num, more: Num) -> Result<Num, OutOfMemory>
    ensures { IfOk result (λ n. n ≡ next + more) }
{
    match next.checked_add(more) {
        Some(after) => Ok(after),
        None => Err(OutOfMemory),
    }
}

// The number of the first net behind the constants, the inputs and the flip-flops.
fn first_net(network: &Network) -> Result<Num, OutOfMemory>
    ensures { IfOk result (λ first. first ≡ 2 + source_bits network.now) }
{
    let mut next = 2;
    for port in network.inputs() {
        next = net_after(next, port.width as Num)?;
    }
    net_after(next, network.flips().len() as Num)
}

// The nets of the constant, the inputs and the flip-flops, behind which this one comes first.
fn source_nets(alloc: Global, first: Num) -> Result<Items<Num>, OutOfMemory>
    requires { 2 ≤ first }
    ensures { IfOk result (λ nets. nets ≡ 0 ∷ numbers 2 (first - 2)) }
{
    let mut nets = Items::new(alloc);
    nets.push(0)?;
    for net in 2..first {
        nets.push(net)?;
    }
    Ok(nets)
}

// The net of a node. A number of no node is read as the constant 0.
fn net_at(nets: &[Num], node: Num) -> Num
    ensures { result ≡ slice_index nets.now node }
{
    if node < nets.len() as Num {
        nets[node as usize]
    } else {
        0
    }
}

// The nets of leaves.
fn leaf_nets(nets: &[Num], leaves: &[Num]) -> Leaves
    requires { length leaves.now ≤ most_leaves }
    ensures { result ≡ map (slice_index nets.now) leaves.now }
{
    let mut made = [0; LEAVES];
    for (i, leaf) in leaves.iter().enumerate() {
        made[i] = net_at(nets, *leaf);
    }
    Leaves::new(&made[..leaves.len()])
}

// How many bits a table over so many leaves has.
fn table_bits(leaves: usize) -> u32
    requires { leaves < 6 }
    ensures count { result ≡ 2 ^ leaves }
    ensures few { result ≤ 32 }
{
    1 << leaves
}

// The low bits of a table, one for each assignment of so many leaves.
fn cut_table(table: u64, leaves: usize) -> u64
    ensures { result ≡ table % 2 ^ (2 ^ leaves) }
{
    if leaves < 6 {
        table % (1 << table_bits(leaves))
    } else {
        table
    }
}

impl Draft {
    /// The constant, the inputs and the flip-flops of a network, and no cell.
    pub(crate) fn new(alloc: Global, network: &Network) -> Result<Draft, OutOfMemory>
        ensures { IfOk result (λ d. d ≡ sources network.now) }
    {
        let next = first_net(network)?;
        let nets = source_nets(alloc, next)?;
        Ok(Draft {
            nets,
            cells: Items::new(alloc),
            next,
        })
    }

    /// The cells that were made.
    pub(crate) fn into_cells(self) -> Items<Piece>
        ensures { result ≡ self.cells }
    {
        let Draft {
            nets: _,
            cells,
            next: _,
        } = self;
        cells
    }

    /// The number of nodes that were visited, which is that of the next node.
    pub(crate) fn node(&self) -> Num
        ensures { result ≡ length self.now.nets }
    {
        self.nets.len() as Num
    }

    // Appends a cell of so many nets, and gives its first net.
    fn push_cell(&mut self, cell: Piece, nets: Num) -> Result<Num, OutOfMemory>
        ensures made { OnOk result (self.new ≡ record { nets = self.old.nets; cells = self.old.cells ++ cell ∷ []; next = self.old.next + nets }) }
        ensures first { IfOk result (λ net. net ≡ self.old.next) }
    {
        let first = self.next;
        let next = net_after(first, nets)?;
        self.cells.push(cell)?;
        self.next = next;
        Ok(first)
    }

    // Appends an inverter of a net, and gives its net.
    fn push_inverter(&mut self, net: Num) -> Result<Num, OutOfMemory>
        ensures made { OnOk result (self.new ≡ record { nets = self.old.nets; cells = self.old.cells ++ stored.Lut (net ∷ []) 1 ∷ []; next = self.old.next + 1 }) }
        ensures first { IfOk result (λ made. made ≡ self.old.next) }
    {
        self.push_cell(Piece::lut(Leaves::new(&[net]), 1), 1)
    }

    /// The net of a literal, for which it appends an inverter where the literal is odd and not the constant 1.
    pub(crate) fn net(&mut self, literal: Num) -> Result<Num, OutOfMemory>
        ensures made { OnOk result (self.new ≡ with_inverter self.old literal) }
        ensures net { IfOk result (λ net. net ≡ net_of self.old literal) }
    {
        if literal == 1 {
            return Ok(1);
        }
        let net = net_at(self.nets.as_slice(), literal / 2);
        if literal % 2 == 1 {
            self.push_inverter(net)
        } else {
            Ok(net)
        }
    }

    /// Appends the look-up table of a root's line, of which the low bits alone count: one for each assignment of the
    /// leaves. A node without a line gives no cell, and its net is never read.
    pub(crate) fn push_root(&mut self, line: Option<&Line>) -> Result<(), OutOfMemory>
        requires { IfSome line (λ l. length l.now.leaves ≤ most_leaves) }
        ensures { OnOk result (self.new ≡ with_root self.old (option_copied line.entry)) }
    {
        let Some(line) = line else {
            self.nets.push(0)?;
            return Ok(());
        };
        let leaves = line.leaves.as_slice();
        let nets = leaf_nets(self.nets.as_slice(), leaves);
        let table = cut_table(line.table, leaves.len());
        let net = self.push_cell(Piece::lut(nets, table), 1)?;
        self.nets.push(net)?;
        Ok(())
    }

    // Appends a carry cell over nets, which has the nets of two nodes.
    fn push_carry(&mut self, a: Num, b: Num, c: Num) -> Result<(), OutOfMemory>
        ensures { OnOk result (self.new ≡ with_carry self.old a b c) }
    {
        let net = self.push_cell(Piece::carry(a, b, c), 2)?;
        self.nets.push(net)?;
        self.nets.push(net_after(net, 1)?)?;
        Ok(())
    }

    /// Appends a carry cell over literals. Each inverted one gives an inverter of its own before it.
    pub(crate) fn push_sum(&mut self, a: Num, b: Num, c: Num) -> Result<(), OutOfMemory>
        ensures { OnOk result (self.new ≡ with_sum self.old a b c) }
    {
        let first = self.net(a)?;
        let second = self.net(b)?;
        let third = self.net(c)?;
        self.push_carry(first, second, third)
    }
}
