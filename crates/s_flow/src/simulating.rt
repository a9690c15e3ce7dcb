ghost use Rattle.std.specs.Prelude.{◌≡◌, List, Bool, IfOk};
ghost use Rattle.lz_base.specs.Ports.{FitPorts};
ghost use Rattle.lz_circuit.specs.Lines.{HaveWidths};
ghost use Rattle.n_cells.specs.Run.{IsValuation, Runs, first_state, next_state, shown};
ghost use Rattle.t_trace.specs.Widths.{AreWidths, CyclesFit};
ghost use Rattle.s_flow.specs.Simulation.{widths_of};

use lz_base::{Items, OutOfMemory, Port, Word};
use n_cells::Netlist;
use n_sim::Sim;
use std::alloc::Global;
use t_trace::{Stimulus, Trace};

/// The widths of ports, in order. `OutOfMemory` is the only other answer.
#[tactic(auto, using(crate::proofs::Fitting::are_widths))]
pub fn widths(alloc: Global, ports: &[Port]) -> Result<Vec<u32>, OutOfMemory>
    ensures value { IfOk result (λ v. v.items ≡ widths_of ports.now) }
    ensures words { HaveWidths ports.now → IfOk result (λ v. AreWidths v.items) }
{
    Ok(ports.iter().map(|port| port.width).collect(alloc)?)
}

// A word of 0 for each port.
fn zeros(alloc: Global, ports: &[Port]) -> Result<Vec<Word>, OutOfMemory>
    requires { HaveWidths ports.now }
    ensures { IfOk result (λ v. FitPorts ports.now v.items) }
{
    let mut words = Vec::with_capacity(alloc, ports.len())?;
    for port in ports {
        words.push(Word::new(port.width, 0))?;
    }
    Ok(words)
}

// What one cycle shows.
fn cycle(
    alloc: Global,
    sim: &mut Sim<'_>,
    netlist: &Netlist,
    input: &[Word],
) -> Result<Items<Word>, OutOfMemory>
    requires netlist { sim.old.netlist ≡ netlist.now }
    requires input { FitPorts netlist.now.inputs input.now }
    ensures same { sim.new.netlist ≡ sim.old.netlist }
    ensures cycle { IfOk result (λ out. (values : List Bool) × IsValuation netlist.now input.now sim.old.state values × (out ≡ shown netlist.now values) × (sim.new.state ≡ next_state netlist.now sim.old.state values)) }
{
    let mut out = zeros(alloc, netlist.outputs())?;
    sim.cycle(input, out.as_mut_slice());
    Ok(Items::from_vec(out))
}

/// The trace of the netlist's run over the stimulus: for each line of words at its inputs the words that it shows at
/// its outputs, from the first bits of its flip-flops on. `OutOfMemory` is the only other answer.
pub fn simulate(alloc: Global, netlist: &Netlist, stimulus: &Stimulus) -> Result<Trace, OutOfMemory>
    requires { CyclesFit (widths_of netlist.now.inputs) stimulus.now.cycles }
    ensures { IfOk result (λ t. Runs netlist.now (first_state netlist.now) stimulus.now.cycles t.cycles) }
{
    let mut sim = Sim::new(alloc, netlist)?;
    let mut cycles = Items::new(alloc);
    for input in stimulus.cycles.as_slice() {
        cycles.push(cycle(alloc, &mut sim, netlist, input.as_slice())?)?;
    }
    Ok(Trace { cycles })
}
