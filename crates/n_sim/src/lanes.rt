ghost use Rattle.std.specs.Prelude.{◌≡◌, ◌+◌, ◌<◌, ◌≤◌, ◌++◌, ℕ, List, length, take, map, IfOk, OnOk, slice_index_or, if◌then◌else◌, ◌^◌, ◌-◌};
ghost use Rattle.lz_base.specs.Bits.{words_bits};
ghost use Rattle.lz_base.specs.Ports.{FitPorts};
ghost use Rattle.lz_base.specs.WordValue.{WordValue};
ghost use Rattle.lz_circuit.specs.Lines.{port_bits};
ghost use Rattle.n_cells.specs.Netlist.{IsWellFormed, first_net, AllBelow, FlopsBelow};
ghost use Rattle.n_cells.specs.Run.{first_state, after_edge};
ghost use Rattle.n_sim.specs.Lanes.{lane, stream, IsCycleOf};
ghost use Rattle.n_sim.specs.Steps.{IsLaidOut};

use crate::front::put_lane_front;
use crate::layout::{Plan, make_plan};
use crate::room::{add, count_front};
use crate::step::put_steps;
use lz_base::OutOfMemory;
use n_cells::{Flop, Netlist, net_after_net};
use std::alloc::Global;
use std::marker::Model;

/// A simulator of a netlist for 64 streams of bits at once, with the bits in its flip-flops.
///
/// Each stream does what a netlist of its own does. Bit j of a word belongs to stream j.
#[derive(Debug, Drop)]
pub struct Lanes<'a> {
    netlist: &'a Netlist,
    plan: Plan,
    state: Vec<u64>,
    words: Vec<u64>,
}

impl<'a> Model for Lanes<'a> {
    ghost use Rattle.n_sim.specs.SimValue.{LanesValue};

    ghost Value = { LanesValue };

    ghost use Rattle.n_sim.specs.Views.{lanes_value, AreReady};

    ghost view = { lanes_value };

    ghost invariant = { AreReady };
}

impl<'a> Lanes<'a> {
    /// A simulator whose flip-flops have their first bits in every stream. It reserves all that its cycles use. A
    /// netlist whose nets before the cells and whose cells' steps are 2^32 or more finds no room.
    pub fn new(alloc: Global, netlist: &'a Netlist) -> Result<Lanes<'a>, OutOfMemory>
        ensures formed { OnOk result (IsWellFormed netlist.now) }
        ensures netlist { IfOk result (λ l. l.netlist ≡ netlist.now) }
        ensures state { IfOk result (λ l. (j : ℕ) → j < 64 → stream j l.state ≡ first_state netlist.now) }
    {
        let plan = make_plan(alloc, netlist)?;
        let state = first_words(alloc, netlist.flops())?;
        let mut words = Vec::new(alloc);
        words.resize(add(count_front(netlist)?, plan.steps.len())?, 0)?;
        Ok(Lanes {
            netlist,
            plan,
            state,
            words,
        })
    }

    /// One cycle of each stream: shows the outputs for a bit at each input bit, and moves the flip-flops. There is one
    /// word for each bit of the ports, in the order of the ports, bit 0 of each first. It takes no memory.
    pub fn cycle(&mut self, input: &[u64], out: &mut [u64])
        requires input { length input.now ≡ port_bits self.old.netlist.inputs }
        requires out { length out.old ≡ port_bits self.old.netlist.outputs }
        ensures netlist { self.new.netlist ≡ self.old.netlist }
        ensures cycle { (j : ℕ) → j < 64 → IsCycleOf self.old.netlist input.now self.old.state out.new self.new.state j }
    {
        step(
            self.netlist,
            &self.plan,
            self.words.as_mut_slice(),
            self.state.as_mut_slice(),
            input,
            out,
        );
    }
}

// The first bit of each flip-flop in every stream.
fn first_words(alloc: Global, flops: &[Flop]) -> Result<Vec<u64>, OutOfMemory>
    ensures { IfOk result (λ state. state.items ≡ map (λ f. if f.first then 2 ^ 64 - 1 else 0) flops.now) }
{
    Ok(
        flops
            .iter()
            .map(|flop| if flop.first { u64::MAX } else { 0 })
            .collect(alloc)?,
    )
}

// Does a cycle with room for all words. The netlist tells only what the plan was made of.
fn step(
    netlist: &Netlist,
    plan: &Plan,
    words: &mut [u64],
    state: &mut [u64],
    input: &[u64],
    out: &mut [u64],
)
    requires formed { IsWellFormed netlist.now }
    requires laid { (places : List ℕ) × IsLaidOut netlist.now plan.now.steps plan.now.shown plan.now.flops places }
    requires room { length words.old ≡ first_net netlist.now.inputs netlist.now.flops + length plan.now.steps }
    requires state { length state.old ≡ length netlist.now.flops }
    requires input { length input.now ≡ port_bits netlist.now.inputs }
    requires out { length out.old ≡ port_bits netlist.now.outputs }
    ensures { (j : ℕ) → j < 64 → IsCycleOf netlist.now input.now state.old out.new state.new j }
{
    let first = put_lane_front(words, input, state);
    put_steps(words, first, plan.steps.as_slice());
    put_places(out, words, plan.shown.as_slice());
    take_edge(plan.flops.as_slice(), words, state);
    net_after_net();
}

// Writes the words at these places.
#[tactic(auto, using(crate::proofs::Cells::below_at))]
fn put_places(out: &mut [u64], words: &[u64], places: &[u32])
    requires there { AllBelow (length words.now) places.now }
    requires room { length out.old ≡ length places.now }
    ensures { out.new ≡ map (λ n. slice_index_or words.now n 0) places.now }
{
    for (i, place) in places.iter().enumerate() {
        out[i] = words[*place as usize];
    }
}

// Gives each flip-flop in each stream the value of its net where its enable is 1.
#[tactic(auto, using(crate::proofs::Edges::net_there, crate::proofs::Edges::enable_there))]
fn take_edge(flops: &[Flop], nets: &[u64], state: &mut [u64])
    requires count { length state.old ≡ length flops.now }
    requires there { FlopsBelow (length nets.now) flops.now }
    ensures { (j : ℕ) → j < 64 → stream j state.new ≡ after_edge (stream j nets.now) flops.now (stream j state.old) }
{
    for (i, flop) in flops.iter().enumerate() {
        state[i] = choose(
            nets[flop.enable as usize],
            state[i],
            nets[flop.net as usize],
        );
    }
}

// In each stream the bit of one word or of the other.
fn choose(by: u64, low: u64, high: u64) -> u64
    ensures { (j : ℕ) → lane j result ≡ (if lane j by then lane j high else lane j low) }
{
    low ^ ((low ^ high) & by)
}
