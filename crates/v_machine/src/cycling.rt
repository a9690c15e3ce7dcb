ghost use Rattle.std.specs.Prelude.{◌≡◌, ◌≤◌, ◌<◌, ◌^◌, [], length, vec_capacity};
ghost use Rattle.v_meaning.specs.Designs.{cycle_bits};
ghost use Rattle.v_core.specs.Cores.{design_in};
ghost use Rattle.v_values.specs.Seen.{values_of, widths_of};
ghost use Rattle.v_order.specs.Counting.{steps_in_order};
ghost use Rattle.v_order.specs.Stepping.{next_by, shown_by, view_by};
ghost use Rattle.v_meaning.specs.Designs.{words_from};
ghost use Rattle.v_machine.specs.Runnable.{CanRun, port_widths, process_counts, shape_of};

use crate::edges::{edge, take_all_steps};
use crate::settling::{settle, show};
use lz_base::Word;
use v_core::Core;
use v_values::{Moment, Queue};

// The inputs and the sites get their words, and the nets settle over these and the store (IEEE Std 1364-2005, 6.1).
fn begin(core: &Core, order: &[usize], now: &mut Moment, input: &[Word], choice: &[bool])
    requires runs { CanRun core.now order.now }
    requires shape { now.old.shape ≡ shape_of core.now }
    requires inputs { widths_of input.now ≡ port_widths (design_in core.now).inputs }
    requires choice { length choice.now ≡ cycle_bits (design_in core.now) }
    ensures view { now.new.view ≡ view_by (design_in core.now) order.now (values_of input.now) (words_from (design_in core.now).sites choice.now) now.old.view.store }
    ensures shape { now.new.shape ≡ now.old.shape }
{
    now.set_inputs(input);
    now.set_sites(choice);
    now.clear_nets();
    settle(core.assigns.as_slice(), order, core.names.as_slice(), now);
}

/// One cycle over a moment: the nets settle once, the outputs are shown, and the edge of the clock happens. It takes no memory.
pub fn run_cycle(
    core: &Core,
    order: &[usize],
    now: &mut Moment,
    queue: &mut Queue,
    counts: &mut Vec<usize>,
    input: &[Word],
    choice: &[bool],
    out: &mut [Word],
)
    requires runs { CanRun core.now order.now }
    requires shape { now.old.shape ≡ shape_of core.now }
    requires empty { queue.old.writes ≡ [] }
    requires counted { process_counts core.now.processes < 2 ^ 64 }
    requires room { process_counts core.now.processes ≤ queue.old.room }
    requires places { length core.now.processes ≤ vec_capacity counts.old }
    requires inputs { widths_of input.now ≡ port_widths (design_in core.now).inputs }
    requires choice { length choice.now ≡ cycle_bits (design_in core.now) }
    requires outputs { widths_of out.old ≡ port_widths (design_in core.now).outputs }
    ensures shown { values_of out.new ≡ shown_by (design_in core.now) order.now now.old.view.store (values_of input.now) choice.now }
    ensures next { now.new.view.store ≡ next_by (design_in core.now) order.now now.old.view.store (values_of input.now) choice.now }
    ensures widths { widths_of out.new ≡ widths_of out.old }
    ensures shape { now.new.shape ≡ now.old.shape }
    ensures empty { queue.new.writes ≡ [] }
    ensures room { queue.new.room ≡ queue.old.room }
    ensures places { vec_capacity counts.new ≡ vec_capacity counts.old }
{
    begin(core, order, now, input, choice);
    let names = core.names.as_slice();
    show(core.outputs.as_slice(), names, now, out);
    edge(core.processes.as_slice(), names, now, queue, counts);
}

/// Counts the steps that each clocked process takes in a cycle over a moment, which is left behind all steps. It takes no
/// memory.
pub fn count_steps(
    core: &Core,
    order: &[usize],
    now: &mut Moment,
    queue: &mut Queue,
    counts: &mut Vec<usize>,
    input: &[Word],
    choice: &[bool],
)
    requires runs { CanRun core.now order.now }
    requires shape { now.old.shape ≡ shape_of core.now }
    requires empty { queue.old.writes ≡ [] }
    requires counted { process_counts core.now.processes < 2 ^ 64 }
    requires room { process_counts core.now.processes ≤ queue.old.room }
    requires places { length core.now.processes ≤ vec_capacity counts.old }
    requires inputs { widths_of input.now ≡ port_widths (design_in core.now).inputs }
    requires choice { length choice.now ≡ cycle_bits (design_in core.now) }
    ensures counts { counts.new.items ≡ steps_in_order (design_in core.now).clocked (view_by (design_in core.now) order.now (values_of input.now) (words_from (design_in core.now).sites choice.now) now.old.view.store) }
    ensures shape { now.new.shape ≡ now.old.shape }
    ensures empty { queue.new.writes ≡ [] }
    ensures room { queue.new.room ≡ queue.old.room }
    ensures places { vec_capacity counts.new ≡ vec_capacity counts.old }
{
    begin(core, order, now, input, choice);
    take_all_steps(
        core.processes.as_slice(),
        core.names.as_slice(),
        now,
        queue,
        counts,
    );
    queue.clear();
}
