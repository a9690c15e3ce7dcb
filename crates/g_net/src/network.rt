ghost use Rattle.std.specs.Prelude.{◌≡◌, ◌<◌, ◌≤◌, ◌+◌, ◌/◌, ◌++◌, [], ◌∷◌, length, slice_get, Some, IsSome, IfOk, OnOk, OnErr};
ghost use Rattle.std.specs.Option.{option_copied, option_map};
ghost use Rattle.lz_base.specs.Names.{IsNew};
ghost use Rattle.g_net.specs.Grown.{Grows, KeepsValues, StandsAt};
ghost use Rattle.g_net.specs.Network as network;
ghost use Rattle.g_net.specs.Walk.{node_of};
ghost use Rattle.lz_circuit.specs.Lines.{HaveWidths};
ghost use Rattle.g_net.specs.Network.{FlipsBelow, LiteralsBelow, ReadsBelow, ReadBackwards, IsWellFormed, names_of, first_gate, most_nodes, with_literals};

use lz_base::{Items, Name, Num, OutOfMemory, Port};
use std::alloc::Global;
use std::marker::Model;

/// A gate over literals: the conjunction or the exclusive or of two, which has one node, or the sum of three, which has
/// two nodes, their exclusive or and then their majority.
#[derive(Clone, Copy, Debug, PartialEq, Eq, Hash)]
pub enum Gate {
    And(Num, Num),
    Xor(Num, Num),
    Carry(Num, Num, Num),
}

/// A flip-flop: the bit that it starts with, the literal that it takes at the edge where its enable is 1, and the
/// literal that is its enable. Where the enable is 0 it keeps its bit.
#[derive(Clone, Copy, Debug, PartialEq, Eq)]
pub struct Flip {
    pub first: bool,
    pub literal: Num,
    pub enable: Num,
}

#[derive(Debug, Drop)]
struct Output {
    name: Name,
    literals: Items<Num>,
}

/// A network, which is well formed.
///
/// Its nodes are numbered: 0 is the constant 0, then come the bits of the inputs in order, bit 0 of each first, then one
/// node for each flip-flop, then one for each and-gate and exclusive-or gate and two for each carry gate. The literal
/// `2n` is node n and `2n + 1` its inverse, so 0 and 1 are the constants.
///
/// It is made line by line, in the order of its text: inputs, flip-flops, gates, outputs. It has at most 2^72 nodes, which
/// are more than fit into any memory. Where an appending call answers `OutOfMemory`, the network is as before.
#[derive(Debug, Drop)]
pub struct Network {
    alloc: Global,
    name: Name,
    clock: Option<Name>,
    inputs: Items<Port>,
    flips: Items<Flip>,
    gates: Items<Gate>,
    outputs: Items<Output>,
    next: Num,
}

impl Model for Network {
    ghost use Rattle.g_net.specs.Network.{NetworkValue};

    ghost Value = { NetworkValue };

    ghost use Rattle.g_net.specs.Views.{network_value, IsKept};

    ghost view = { network_value };

    ghost invariant = { IsKept };
}

// The most nodes of a network.
const MOST_NODES: Num = 1 << 72;

// How many nodes a gate has.
fn nodes_of(gate: Gate) -> u32
    ensures { result ≡ network.nodes_of gate }
{
    match gate {
        Gate::And(_, _) => 1,
        Gate::Xor(_, _) => 1,
        Gate::Carry(_, _, _) => 2,
    }
}

// The output at an index.
fn output_at(outputs: &[Output], index: usize) -> &Output
    requires { index < length outputs.now }
    ensures { slice_get outputs.now index ≡ Some result.now }
{
    &outputs[index]
}

impl Network {
    /// A network with this name and clock, and nothing else.
    pub fn new(alloc: Global, name: Name, clock: Option<Name>) -> Network
        ensures { result ≡ record { name = name; clock = clock; inputs = []; flips = []; gates = []; outputs = [] } }
    {
        Network {
            alloc,
            name,
            clock,
            inputs: Items::new(alloc),
            flips: Items::new(alloc),
            gates: Items::new(alloc),
            outputs: Items::new(alloc),
            next: 1,
        }
    }

    /// Appends an input of 1 to 128 bits under a new name.
    pub fn input(&mut self, port: Port) -> Result<(), OutOfMemory>
        requires no_flip { self.old.flips ≡ [] }
        requires no_gate { self.old.gates ≡ [] }
        requires no_output { self.old.outputs ≡ [] }
        requires low { 1 ≤ port.width }
        requires high { port.width ≤ 128 }
        requires new_name { IsNew port.name (names_of self.old) }
        ensures ok { OnOk result (self.new ≡ record self.old { inputs = self.old.inputs ++ port ∷ [] }) }
        ensures err { OnErr result (self.new ≡ self.old) }
    {
        let next = self.node_after(port.width)?;
        self.inputs.push(port)?;
        self.next = next;
        Ok(())
    }

    /// Appends a flip-flop that starts with a bit. Its literal is the constant 0 and its enable the constant 1, until
    /// `set_flip` gives it others.
    pub fn flip(&mut self, first: bool) -> Result<(), OutOfMemory>
        requires clocked { IsSome self.old.clock }
        requires no_gate { self.old.gates ≡ [] }
        requires no_output { self.old.outputs ≡ [] }
        ensures ok { OnOk result (self.new ≡ record self.old { flips = self.old.flips ++ record { first = first; literal = 0; enable = 1 } ∷ [] }) }
        ensures err { OnErr result (self.new ≡ self.old) }
    {
        let next = self.node_after(1)?;
        self.flips.push(Flip {
            first,
            literal: 0,
            enable: 1,
        })?;
        self.next = next;
        Ok(())
    }

    /// Gives the flip-flop of an index, from 0, its literal and its enable, which are there, and changes nothing else. It
    /// takes no memory.
    pub fn set_flip(&mut self, index: Num, literal: Num, enable: Num)
        requires flip { index < length self.old.flips }
        requires literal { literal / 2 < network.node_count self.old }
        requires enable { enable / 2 < network.node_count self.old }
        ensures { self.new ≡ record self.old { flips = with_literals self.old.flips index literal enable } }
    {
        let flips = self.flips.as_slice();
        let index = index as usize;
        let first = flips[index].first;
        self.flips.set(
            index,
            Flip {
                first,
                literal,
                enable,
            },
        );
    }

    /// Appends a gate over literals that are there, and gives its node, for a carry gate the first one. The node is that
    /// which came next, its value satisfies the gate's equation, and no literal that was there has another value.
    pub fn add(&mut self, gate: Gate) -> Result<Num, OutOfMemory>
        requires no_output { self.old.outputs ≡ [] }
        requires there { ReadsBelow (network.node_count self.old) gate }
        ensures ok { OnOk result (self.new ≡ record self.old { gates = self.old.gates ++ gate ∷ [] }) }
        ensures node { IfOk result (λ node. node ≡ network.node_count self.old) }
        ensures place { IfOk result (λ node. node ≡ node_of self.new (length self.old.gates)) }
        ensures value { IfOk result (λ node. StandsAt self.new node gate) }
        ensures keeps { OnOk result (KeepsValues self.old self.new) }
        ensures count { IfOk result (λ node. network.node_count self.new ≡ node + network.nodes_of gate) }
        ensures few { OnOk result (network.node_count self.new ≤ most_nodes) }
        ensures formed { OnOk result (IsWellFormed self.new) }
        ensures err { OnErr result (self.new ≡ self.old) }
    {
        let node = self.node_count();
        let next = self.node_after(nodes_of(gate))?;
        self.gates.push(gate)?;
        self.next = next;
        Ok(node)
    }

    /// Appends an output of 1 to 128 literals that are there, bit 0 first, under a new name.
    pub fn output(&mut self, name: Name, literals: &[Num]) -> Result<(), OutOfMemory>
        requires new_name { IsNew name (names_of self.old) }
        requires low { 1 ≤ length literals.now }
        requires high { length literals.now ≤ 128 }
        requires there { LiteralsBelow (network.node_count self.old) literals.now }
        ensures ok { OnOk result (self.new ≡ record self.old { outputs = self.old.outputs ++ record { name = name; literals = literals.now } ∷ [] }) }
        ensures err { OnErr result (self.new ≡ self.old) }
    {
        let literals = Items::from_slice(self.alloc, literals)?;
        self.outputs.push(Output { name, literals })?;
        Ok(())
    }

    /// The name of the model.
    pub fn name(&self) -> &Name
        ensures name { result.now ≡ self.now.name }
        ensures formed { IsWellFormed self.now }
    {
        &self.name
    }

    /// The name of the clock, where there is one.
    pub fn clock(&self) -> Option<&Name>
        ensures { option_copied result ≡ self.now.clock }
    {
        self.clock.as_ref()
    }

    /// The inputs in order, each of 1 to 128 bits.
    pub fn inputs(&self) -> &[Port]
        ensures ports { result.now ≡ self.now.inputs }
        ensures widths { HaveWidths self.now.inputs }
    {
        self.inputs.as_slice()
    }

    /// The flip-flops in order. The literal and the enable of each are there.
    pub fn flips(&self) -> &[Flip]
        ensures flips { result.now ≡ self.now.flips }
        ensures there { FlipsBelow (network.node_count self.now) self.now.flips }
    {
        self.flips.as_slice()
    }

    /// The gates in order. Each reads nodes before its own.
    pub fn gates(&self) -> &[Gate]
        ensures gates { result.now ≡ self.now.gates }
        ensures backwards { ReadBackwards (first_gate self.now) self.now.gates }
        ensures formed { IsWellFormed self.now }
    {
        self.gates.as_slice()
    }

    /// The number of nodes, which is that of the node that comes next. It is at most 2^72, so literals are numbers too.
    pub fn node_count(&self) -> Num
        ensures count { result ≡ network.node_count self.now }
        ensures few { result ≤ most_nodes }
    {
        self.next
    }

    // The number of nodes with so many more. More than a network can have are taken for want of memory.
    fn node_after(&self, more: u32) -> Result<Num, OutOfMemory>
        ensures next { IfOk result (λ next. next ≡ network.node_count self.now + more) }
        ensures few { IfOk result (λ next. next ≤ most_nodes) }
    {
        let next = self.next + more as Num;
        if next > MOST_NODES {
            Err(OutOfMemory)
        } else {
            Ok(next)
        }
    }

    /// The number of outputs.
    pub fn output_count(&self) -> usize
        ensures count { result ≡ length self.now.outputs }
        ensures formed { IsWellFormed self.now }
    {
        self.outputs.len()
    }

    /// The name of the output at an index.
    pub fn output_name(&self, index: usize) -> &Name
        requires { index < length self.now.outputs }
        ensures { option_map (λ o. o.name) (slice_get self.now.outputs index) ≡ Some result.now }
    {
        let output = output_at(self.outputs.as_slice(), index);
        &output.name
    }

    /// The literals of the output at an index, 1 to 128 of them, bit 0 first. They are there.
    pub fn output_literals(&self, index: usize) -> &[Num]
        requires { index < length self.now.outputs }
        ensures literals { option_map (λ o. o.literals) (slice_get self.now.outputs index) ≡ Some result.now }
        ensures low { 1 ≤ length result.now }
        ensures high { length result.now ≤ 128 }
        ensures there { LiteralsBelow (network.node_count self.now) result.now }
    {
        let output = output_at(self.outputs.as_slice(), index);
        output.literals.as_slice()
    }
}
