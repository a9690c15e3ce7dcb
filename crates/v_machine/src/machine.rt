ghost use Rattle.std.specs.Prelude.{◌≡◌, ℕ, List, length, IfErr, IfNone, IfOk, IfSome, OnErr, OnOk};
ghost use Rattle.v_meaning.specs.Declarations.{is_memory, is_variable};
ghost use Rattle.v_meaning.specs.Designs.{InAnyOrder, InTextOrder, IsCycle, IsIncompleteAt, IsOutcome, cycle_bits, first_bits, first_store};
ghost use Rattle.v_meaning.specs.Views.{Store};
ghost use Rattle.v_core.specs.Cores.{design_in};
ghost use Rattle.v_values.specs.Seen.{all_widths, all_words, values_of, widths_of};
ghost use Rattle.v_machine.specs.Runnable.{CanRun, port_widths, widths_where};

use crate::counting::process_writes;
use crate::cycling::{count_steps, run_cycle};
use crate::making::first_moment;
use crate::scheduling::short_entry;
use lz_base::{OutOfMemory, Word};
use std::alloc::Global;
use std::marker::Model;
use v_core::Core;
use v_order::{any_order_cycles, schedules_are_counted, text_order_cycles};
use v_values::{Memory, Moment, Queue};

/// Where a schedule is not complete: the number of its first entry whose process is at its end or is none, or else how many
/// entries it has.
#[derive(Clone, Copy, PartialEq, Eq, Debug)]
pub struct Incomplete {
    pub index: usize,
}

/// A typed module under simulation: what its variables and memories hold, and the room for all that a cycle computes.
#[derive(Drop)]
pub struct Machine<'a> {
    core: &'a Core,
    order: Vec<usize>,
    moment: Moment,
    // over which the steps of a schedule are counted
    spare: Moment,
    queue: Queue,
    // how many steps each clocked process took last
    counts: Vec<usize>,
}

impl<'a> Model for Machine<'a> {
    ghost use Rattle.std.specs.Prelude.{vec_capacity};
    ghost use Rattle.v_machine.specs.Machines.{IsReady, MachineValue};

    ghost Value = { MachineValue };

    ghost use Rattle.v_core.specs.contracts.modules.Core as modules;
    ghost use Rattle.std.specs.Coded.{codes};

    ghost coded = { Prim.hlevel (codes, modules.the_row.coded) };

    ghost view = { λ m. record { core = m.core.now; store = m.moment.view.store } };

    ghost invariant = { λ m. IsReady m.core.now m.order.items m.moment m.spare m.queue (vec_capacity m.counts) };
}

impl<'a> Machine<'a> {
    /// The machine of a module before its first cycle. The module breaks no rule and has clocked processes alone, its nets
    /// settle in this order, and the first choice has a bit for each that is open (IEEE Std 1364-2005, 6.2.1).
    /// `OutOfMemory` is the only other answer.
    pub fn new(
        alloc: Global,
        core: &'a Core,
        order: Vec<usize>,
        first: &[bool],
    ) -> Result<Machine<'a>, OutOfMemory>
        requires runs { CanRun core.now order.items }
        requires first { length first.now ≡ first_bits (design_in core.now) }
        ensures core { IfOk result (λ m. m.core ≡ core.now) }
        ensures store { IfOk result (λ m. m.store ≡ first_store (design_in core.now).firsts first.now) }
    {
        let moment = first_moment(alloc, core, first)?;
        let spare = first_moment(alloc, core, first)?;
        let Some(room) = process_writes(core.processes.as_slice()) else {
            return Err(OutOfMemory);
        };
        let queue = Queue::new(alloc, room)?;
        let counts = Vec::with_capacity(alloc, core.processes.len())?;
        Ok(Machine {
            core,
            order,
            moment,
            spare,
            queue,
            counts,
        })
    }

    /// What the variables hold that are not combinational, in the order of their declarations. It takes no memory.
    pub fn variables(&self) -> &[Word]
        ensures values { values_of result.now ≡ self.now.store.variables }
        ensures widths { widths_of result.now ≡ widths_where is_variable self.now.core.names }
    {
        self.moment.variables.as_slice()
    }

    /// What the memories hold, in the order of their declarations. It takes no memory.
    pub fn memories(&self) -> &[Memory]
        ensures words { all_words result.now ≡ self.now.store.memories }
        ensures widths { all_widths result.now ≡ widths_where is_memory self.now.core.names }
    {
        self.moment.memories.as_slice()
    }

    /// One cycle in text order: from these words at the inputs and this choice of the sites' bits, `out` gets the words that
    /// the outputs show, and the variables and memories become what they are after the edge of the clock (IEEE Std
    /// 1364-2005, 9.9.2 and 11). Every complete schedule shows and leaves the same, in whatever order. It takes no memory.
    pub fn cycle(&mut self, input: &[Word], choice: &[bool], out: &mut [Word])
        requires inputs { widths_of input.now ≡ port_widths (design_in self.old.core).inputs }
        requires choice { length choice.now ≡ cycle_bits (design_in self.old.core) }
        requires outputs { widths_of out.old ≡ port_widths (design_in self.old.core).outputs }
        ensures outcome { IsOutcome InTextOrder (design_in self.old.core) self.old.store (values_of input.now) choice.now (values_of out.new) self.new.store }
        ensures every { IsOutcome InAnyOrder (design_in self.old.core) self.old.store (values_of input.now) choice.now (values_of out.new) self.new.store }
        ensures widths { widths_of out.new ≡ widths_of out.old }
        ensures core { self.new.core ≡ self.old.core }
    {
        text_order_cycles();
        any_order_cycles();
        run_cycle(
            self.core,
            self.order.as_slice(),
            &mut self.moment,
            &mut self.queue,
            &mut self.counts,
            input,
            choice,
            out,
        );
    }

    // Where a schedule is not complete in a cycle from here on; None where it is.
    fn short_entry(&mut self, input: &[Word], choice: &[bool], schedule: &[u32]) -> Option<usize>
        requires inputs { widths_of input.now ≡ port_widths (design_in self.old.core).inputs }
        requires choice { length choice.now ≡ cycle_bits (design_in self.old.core) }
        ensures complete { IfNone result ((shown : List ℕ) × (after : Store) × IsCycle (design_in self.old.core) self.old.store (values_of input.now) choice.now schedule.now shown after) }
        ensures incomplete { IfSome result (λ index. IsIncompleteAt (design_in self.old.core) self.old.store (values_of input.now) choice.now schedule.now index) }
        ensures refused { IfSome result (λ index. (shown : List ℕ) (after : Store) → IsCycle (design_in self.old.core) self.old.store (values_of input.now) choice.now schedule.now shown after → ⊥) }
        ensures same { self.new ≡ self.old }
    {
        any_order_cycles();
        schedules_are_counted();
        self.spare.copy_store(&self.moment);
        count_steps(
            self.core,
            self.order.as_slice(),
            &mut self.spare,
            &mut self.queue,
            &mut self.counts,
            input,
            choice,
        );
        short_entry(self.counts.as_mut_slice(), schedule)
    }

    /// The same cycle under a schedule, which names the clocked processes by their numbers in text order, one entry for each
    /// step (IEEE Std 1364-2005, 11.4.2). `Incomplete` exactly where the schedule is not complete, at its first entry whose
    /// process is at its end or is none, or else behind its last entry; `out` and what the machine holds are then as before.
    /// It takes no memory.
    pub fn cycle_by(
        &mut self,
        input: &[Word],
        choice: &[bool],
        schedule: &[u32],
        out: &mut [Word],
    ) -> Result<(), Incomplete>
        requires inputs { widths_of input.now ≡ port_widths (design_in self.old.core).inputs }
        requires choice { length choice.now ≡ cycle_bits (design_in self.old.core) }
        requires outputs { widths_of out.old ≡ port_widths (design_in self.old.core).outputs }
        ensures cycle { OnOk result (IsCycle (design_in self.old.core) self.old.store (values_of input.now) choice.now schedule.now (values_of out.new) self.new.store) }
        ensures every { OnOk result (IsOutcome InAnyOrder (design_in self.old.core) self.old.store (values_of input.now) choice.now (values_of out.new) self.new.store) }
        ensures outcome { OnOk result (IsOutcome InTextOrder (design_in self.old.core) self.old.store (values_of input.now) choice.now (values_of out.new) self.new.store) }
        ensures incomplete { IfErr result (λ e. IsIncompleteAt (design_in self.old.core) self.old.store (values_of input.now) choice.now schedule.now e.index) }
        ensures refused { OnErr result ((shown : List ℕ) (after : Store) → IsCycle (design_in self.old.core) self.old.store (values_of input.now) choice.now schedule.now shown after → ⊥) }
        ensures same { OnErr result (self.new ≡ self.old) }
        ensures out { OnErr result (out.new ≡ out.old) }
        ensures widths { widths_of out.new ≡ widths_of out.old }
        ensures core { self.new.core ≡ self.old.core }
    {
        if let Some(index) = self.short_entry(input, choice, schedule) {
            return Err(Incomplete { index });
        }
        self.cycle(input, choice, out);
        Ok(())
    }
}
