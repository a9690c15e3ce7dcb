ghost use Rattle.std.specs.Prelude.{◌≡◌, ◌+◌, List, Bool, length, map, IfOk, if◌then◌else◌};
ghost use Rattle.lz_base.specs.Ports.{FitPorts};
ghost use Rattle.n_cells.specs.Netlist.{IsWellFormed, net_count, FlopsBelow};
ghost use Rattle.n_cells.specs.Run.{IsValuation, shown, next_state, first_state, after_edge};

use crate::cell::put_cells;
use crate::front::put_front;
use crate::gate::{Gate, lay_out};
use crate::room::count_nets;
use crate::word::word_at;
use lz_base::{Items, OutOfMemory, Word};
use n_cells::{Flop, Netlist, net_after_net};
use std::alloc::Global;
use std::marker::Model;

/// A simulator of a netlist, with the bits in its flip-flops.
#[derive(Debug, Drop)]
pub struct Sim<'a> {
    netlist: &'a Netlist,
    gates: Items<Gate>,
    state: Vec<bool>,
    nets: Vec<bool>,
}

impl<'a> Model for Sim<'a> {
    ghost use Rattle.n_sim.specs.SimValue.{SimValue};

    ghost Value = { SimValue };

    ghost use Rattle.n_sim.specs.Views.{sim_value, IsReady};

    ghost view = { sim_value };

    ghost invariant = { IsReady };
}

impl<'a> Sim<'a> {
    /// A simulator whose flip-flops have their first bits. It reserves all that its cycles use. A netlist of 2^32 nets or
    /// more finds no room.
    pub fn new(alloc: Global, netlist: &'a Netlist) -> Result<Sim<'a>, OutOfMemory>
        ensures netlist { IfOk result (λ s. s.netlist ≡ netlist.now) }
        ensures state { IfOk result (λ s. s.state ≡ first_state netlist.now) }
    {
        let gates = lay_out(alloc, netlist)?;
        let state = first_bits(alloc, netlist.flops())?;
        let mut nets = Vec::new(alloc);
        nets.resize(count_nets(netlist)?, false)?;
        Ok(Sim {
            netlist,
            gates,
            state,
            nets,
        })
    }

    /// One cycle: shows the outputs for a word at each input, and moves the flip-flops. The words are those of the
    /// ports in order, each of its port's width. It takes no memory.
    pub fn cycle(&mut self, input: &[Word], out: &mut [Word])
        requires input { FitPorts self.old.netlist.inputs input.now }
        requires out { FitPorts self.old.netlist.outputs out.old }
        ensures netlist { self.new.netlist ≡ self.old.netlist }
        ensures cycle { (values : List Bool) × IsValuation self.old.netlist input.now self.old.state values × (out.new ≡ shown self.old.netlist values) × (self.new.state ≡ next_state self.old.netlist self.old.state values) }
    {
        let nets = self.nets.as_mut_slice();
        settle(
            self.netlist,
            self.gates.as_slice(),
            nets,
            input,
            self.state.as_slice(),
        );
        show(self.netlist, nets, out);
        take_edge(self.netlist.flops(), nets, self.state.as_mut_slice());
    }
}

// The first bit of each flip-flop.
fn first_bits(alloc: Global, flops: &[Flop]) -> Result<Vec<bool>, OutOfMemory>
    ensures { IfOk result (λ state. state.items ≡ map (λ f. f.first) flops.now) }
{
    Ok(flops.iter().map(|flop| flop.first).collect(alloc)?)
}

// Computes the values of all nets, one after another.
fn settle(netlist: &Netlist, gates: &[Gate], nets: &mut [bool], input: &[Word], state: &[bool])
    requires formed { IsWellFormed netlist.now }
    requires gates { gates.now ≡ netlist.now.cells }
    requires room { length nets.old ≡ net_count netlist.now }
    requires input { FitPorts netlist.now.inputs input.now }
    requires state { length state.now ≡ length netlist.now.flops }
    ensures { IsValuation netlist.now input.now state.now nets.new }
{
    let first = put_front(nets, input, state);
    put_cells(nets, first, gates);
    net_after_net();
}

// Writes the words at the outputs.
fn show(netlist: &Netlist, nets: &[bool], out: &mut [Word])
    requires room { length nets.now ≡ net_count netlist.now }
    requires out { length out.old ≡ length netlist.now.outputs }
    ensures { out.new ≡ shown netlist.now nets.now }
{
    for i in 0..netlist.outputs().len() {
        out[i] = word_at(nets, netlist.output_nets(i));
    }
}

// Gives each flip-flop the value of its net where its enable is 1.
#[tactic(auto, using(crate::proofs::Edges::net_there, crate::proofs::Edges::enable_there))]
fn take_edge(flops: &[Flop], nets: &[bool], state: &mut [bool])
    requires count { length state.old ≡ length flops.now }
    requires there { FlopsBelow (length nets.now) flops.now }
    ensures { state.new ≡ after_edge nets.now flops.now state.old }
{
    for (i, flop) in flops.iter().enumerate() {
        state[i] = held(
            nets[flop.enable as usize],
            nets[flop.net as usize],
            state[i],
        );
    }
}

// The new bit where it is enabled, else the old one.
fn held(enabled: bool, new: bool, old: bool) -> bool
    ensures { result ≡ (if enabled then new else old) }
{
    if enabled { new } else { old }
}
