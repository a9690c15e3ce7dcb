ghost use Rattle.std.specs.Prelude.{◌≡◌, ◌↔◌, ℕ, List, Bool, length};
ghost use Rattle.lz_base.specs.WordValue.{WordValue};
ghost use Rattle.lz_base.specs.Ports.{FitPorts};
ghost use Rattle.lz_machine.specs.Machine.{Lasts};
ghost use Rattle.n_cells.specs.declared.format.Format.TheVariants as format;
ghost use Rattle.n_cells.specs.AsMachine.{netlist_machine, NetlistDoes};
ghost use Rattle.n_cells.specs.Form.{HaveEnables};
ghost use Rattle.n_cells.specs.Netlist.{NetlistValue, IsWellFormed};
ghost use Rattle.n_cells.specs.OldRun.{OldRuns};
ghost use Rattle.n_cells.specs.Run.{IsValuation, Runs, shown, next_state, first_state};
ghost use Rattle.n_cells.specs.Walk.{walked};

/// Law: a well-formed netlist has at most one valuation for the words at its inputs and the bits in its flip-flops.
pub fn one_valuation()
    ensures { (n : NetlistValue) (inputs : List WordValue) (state a b : List Bool) → IsWellFormed n → IsValuation n inputs state a → IsValuation n inputs state b → a ≡ b }
{}

/// Law: a well-formed netlist has a valuation for words that fit its inputs and a bit for each flip-flop: the values
/// that come out net after net.
pub fn net_after_net()
    ensures { (n : NetlistValue) (inputs : List WordValue) (state : List Bool) → IsWellFormed n → FitPorts n.inputs inputs → length state ≡ length n.flops → IsValuation n inputs state (walked n inputs state) }
{}

/// Law: as a machine, a well-formed netlist begins with the first bits of its flip-flops, which are as many as these,
/// and never stops.
pub fn machine_lasts()
    ensures begins { (n : NetlistValue) → length (first_state n) ≡ length n.flops }
    ensures lasts { (n : NetlistValue) (state : List Bool) (cycles : ℕ) → IsWellFormed n → length state ≡ length n.flops → Lasts (netlist_machine n) cycles state }
{}

/// Law: in a cycle a well-formed netlist does one thing, that of the values that come out net after net. It has a bit
/// for each flip-flop afterwards.
pub fn machine_step()
    ensures does { (n : NetlistValue) (inputs : List WordValue) (state : List Bool) → IsWellFormed n → FitPorts n.inputs inputs → length state ≡ length n.flops → NetlistDoes n state inputs (shown n (walked n inputs state)) (next_state n state (walked n inputs state)) }
    ensures alone { (n : NetlistValue) (inputs outputs : List WordValue) (state after : List Bool) → IsWellFormed n → FitPorts n.inputs inputs → length state ≡ length n.flops → NetlistDoes n state inputs outputs after → (outputs ≡ shown n (walked n inputs state)) × (after ≡ next_state n state (walked n inputs state)) }
    ensures bits { (n : NetlistValue) (state values : List Bool) → length state ≡ length n.flops → length (next_state n state values) ≡ length n.flops }
{}

/// Law: where all enables are the constant 1, as in every netlist of format 1, a run of the netlist is a run without
/// enables, and the other way round.
pub fn old_run()
    ensures { (n : NetlistValue) (state : List Bool) (cycles outputs : List (List WordValue)) → HaveEnables format.One n.flops → length state ≡ length n.flops → (Runs n state cycles outputs ↔ OldRuns n state cycles outputs) }
{}
