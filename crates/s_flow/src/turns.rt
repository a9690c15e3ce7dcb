ghost use Rattle.std.specs.Prelude.{◌≡◌, ◌≤◌, ◌<◌, ◌++◌, ℕ, List, length, Some, slice_get, IfOk, OnOk};
ghost use Rattle.lz_base.specs.Bits.{words_bits};
ghost use Rattle.lz_base.specs.WordValue.{WordValue};
ghost use Rattle.lz_circuit.specs.Lines.{HaveWidths, port_bits};
ghost use Rattle.n_cells.specs.Netlist.{IsWellFormed};
ghost use Rattle.n_sim.specs.Lanes.{stream};
ghost use Rattle.t_trace.specs.Widths.{CyclesFit};
ghost use Rattle.s_flow.specs.Simulation.{RunsInTurn, widths_of};
ghost use Rattle.s_flow.specs.SideBySide.{IsTurn, lines_from};

use crate::transposing::{put_words, words_at};
use lz_base::{Items, OutOfMemory, Port, Word};
use n_cells::Netlist;
use n_sim::Lanes;
use std::alloc::Global;
use t_trace::{Stimulus, Trace};

// A number for each bit of the ports.
fn room(alloc: Global, ports: &[Port]) -> Result<Vec<u64>, OutOfMemory>
    ensures { IfOk result (λ v. length v.items ≡ port_bits ports.now) }
{
    let mut lanes = Vec::new(alloc);
    for port in ports {
        for _ in 0..port.width {
            lanes.push(0)?;
        }
    }
    Ok(lanes)
}

// Gives each line to a stream of its own, the first one to stream 0.
fn put_lines(lanes: &mut [u64], lines: &[Items<Word>])
    requires few { length lines.now ≤ 64 }
    requires room { (j : ℕ) (line : List WordValue) → slice_get lines.now j ≡ Some line → length (words_bits line) ≡ length lanes.old }
    ensures { (j : ℕ) (line : List WordValue) → slice_get lines.now j ≡ Some line → stream j lanes.new ≡ words_bits line }
{
    for (index, line) in lines.iter().enumerate() {
        put_words(lanes, index as u32, line.as_slice());
    }
}

// Appends the words of the first streams at ports, a line for each.
fn push_lines(
    alloc: Global,
    cycles: &mut Items<Items<Word>>,
    ports: &[Port],
    lanes: &[u64],
    count: usize,
) -> Result<(), OutOfMemory>
    requires widths { HaveWidths ports.now }
    requires room { length lanes.now ≡ port_bits ports.now }
    requires few { count ≤ 64 }
    ensures { OnOk result (cycles.new ≡ cycles.old ++ lines_from ports.now lanes.now 0 count) }
{
    for index in 0..count {
        cycles.push(words_at(alloc, ports, lanes, index as u32)?)?;
    }
    Ok(())
}

// The simulator of all streams, with room for the bits of a turn.
#[derive(Drop)]
struct Streams<'a> {
    lanes: Lanes<'a>,
    input: Vec<u64>,
    out: Vec<u64>,
}

// One turn: each of the first streams takes one of the lines, and shows one.
fn turn(
    alloc: Global,
    netlist: &Netlist,
    streams: &mut Streams<'_>,
    lines: &[Items<Word>],
    cycles: &mut Items<Items<Word>>,
) -> Result<(), OutOfMemory>
    requires netlist { streams.old.lanes.netlist ≡ netlist.now }
    requires input { length streams.old.input.items ≡ port_bits netlist.now.inputs }
    requires out { length streams.old.out.items ≡ port_bits netlist.now.outputs }
    requires formed { IsWellFormed netlist.now }
    requires few { length lines.now ≤ 64 }
    requires fit { CyclesFit (widths_of netlist.now.inputs) lines.now }
    ensures netlist { streams.new.lanes.netlist ≡ netlist.now }
    ensures input { length streams.new.input.items ≡ port_bits netlist.now.inputs }
    ensures out { length streams.new.out.items ≡ port_bits netlist.now.outputs }
    ensures turn { OnOk result ((words : List (List WordValue)) × (cycles.new ≡ cycles.old ++ words) × IsTurn netlist.now streams.old.lanes.state streams.new.lanes.state lines.now words) }
{
    put_lines(streams.input.as_mut_slice(), lines);
    streams
        .lanes
        .cycle(streams.input.as_slice(), streams.out.as_mut_slice());
    push_lines(
        alloc,
        cycles,
        netlist.outputs(),
        streams.out.as_slice(),
        lines.len(),
    )?;
    Ok(())
}

/// The trace of COUNT streams that the netlist runs in turn: line i of the stimulus, from 0, belongs to stream
/// i mod COUNT, and line i of the trace is what the netlist shows for it in a run of its own over the lines of that
/// stream. `OutOfMemory` is the only other answer.
pub fn simulate_lanes(
    alloc: Global,
    netlist: &Netlist,
    stimulus: &Stimulus,
    count: u32,
) -> Result<Trace, OutOfMemory>
    requires some { 1 ≤ count }
    requires most { count ≤ 64 }
    requires fit { CyclesFit (widths_of netlist.now.inputs) stimulus.now.cycles }
    ensures { IfOk result (λ t. RunsInTurn netlist.now count stimulus.now.cycles t.cycles) }
{
    let mut streams = Streams {
        lanes: Lanes::new(alloc, netlist)?,
        input: room(alloc, netlist.inputs())?,
        out: room(alloc, netlist.outputs())?,
    };
    let mut cycles = Items::new(alloc);
    let mut rest = stimulus.cycles.as_slice();
    while !rest.is_empty() {
        let (lines, more) = rest.split_at(rest.len().min(count as usize));
        turn(alloc, netlist, &mut streams, lines, &mut cycles)?;
        rest = more;
    }
    Ok(Trace { cycles })
}
