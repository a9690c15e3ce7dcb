ghost use Rattle.std.specs.Prelude.{◌≡◌, ◌↔◌, [], ℕ, List, length, Bool, None, true};
ghost use Rattle.std.specs.List.{list_all};
ghost use Rattle.lz_base.specs.WordValue.{WordValue};
ghost use Rattle.lz_machine.specs.Machine.{Realises};
ghost use Rattle.v_syntax.specs.declared.expr.Expr.{Expr};
ghost use Rattle.v_syntax.specs.declared.stmt.Stmt.{Stmt};
ghost use Rattle.v_syntax.specs.declared.module.Module.{Module};
ghost use Rattle.v_meaning.specs.declared.names.Entry.{Entry};
ghost use Rattle.v_meaning.specs.Views.{Store, View};
ghost use Rattle.v_meaning.specs.Senses.{assigned};
ghost use Rattle.v_meaning.specs.Expressions.{sense_of};
ghost use Rattle.v_meaning.specs.Statements.{acts_of};
ghost use Rattle.v_meaning.specs.Broken.{places_of, first_fault, process_rules, typing_rules};
ghost use Rattle.v_meaning.specs.Declarations.{names_of};
ghost use Rattle.v_meaning.specs.Modules.{design_of, module_machine};
ghost use Rattle.v_meaning.specs.ProcessRules.{combinational_of};
ghost use Rattle.v_meaning.specs.Uses.{uses_of};
ghost use Rattle.v_meaning.specs.Acts.{Acts, alone};
ghost use Rattle.v_meaning.specs.Designs.{Design, Does, InAnyOrder, InTextOrder, IsCycle, IsIncompleteAt, IsOutcome, IsSettled, cycle_bits, words_from};
ghost use Rattle.v_order.specs.Apart.{AreApart, Owners};
ghost use Rattle.v_order.specs.Counting.{IsCounted, IsShortAt, steps_in_order};
ghost use Rattle.v_order.specs.Firsts.{keeps_first};
ghost use Rattle.v_order.specs.Numbered.{AreNumbered};
ghost use Rattle.v_order.specs.Reads.{nets_read, nets_read_by};
ghost use Rattle.v_order.specs.Settling.{ActsLookOnlyAt, LooksOnlyAt, Settles, settled_by, with_nets};
ghost use Rattle.v_order.specs.Steady.{AtOnce, IsSteady};
ghost use Rattle.v_order.specs.Stepping.{Stepping, finished, next_by, shown_by, view_by};

/// Law: of all nets the value of an expression looks only at those that it reads, at every width and sign; and so do the
/// acts of a statement.
pub fn reads_decide()
    ensures value { (names : List Entry) (sites : List ℕ) (x : Expr) (width : ℕ) (signed : Bool) → LooksOnlyAt (nets_read names x) ((sense_of names sites x).at width signed) }
    ensures assigned { (names : List Entry) (sites : List ℕ) (x : Expr) (width : ℕ) → LooksOnlyAt (nets_read names x) (assigned width (sense_of names sites x)) }
    ensures acts { (names : List Entry) (sites : List ℕ) (x : Stmt) → ActsLookOnlyAt (nets_read_by names x) (acts_of names sites x) }
{}

/// Law: the nets of a design without combinational processes settle in one way, where there is an order in which they do:
/// the nets that are computed in the order have settled, and any that have settled over the same inputs, store and sites
/// are these (IEEE Std 1364-2005, 6.1.2).
pub fn nets_settle_in_one_way()
    ensures settled { (d : Design) (order : List ℕ) (v : View) → d.combinational ≡ [] → Settles d order → IsSettled d (with_nets v (settled_by d order v)) }
    ensures alone { (d : Design) (order : List ℕ) (v : View) (nets : List ℕ) → Settles d order → IsSettled d (with_nets v nets) → nets ≡ settled_by d order v }
{}

/// Law: in a steady design the nets need settle only once in a cycle. Where they are computed once, in the order, and each
/// clocked process then takes all its steps with the nets as they are, one process after another, this shows and leaves what
/// the cycle does under some complete schedule in text order, and under every such schedule (IEEE Std 1364-2005, 11.4).
pub fn text_order_cycles()
    ensures { (d : Design) (order : List ℕ) (b : AtOnce) (before : Store) (inputs : List ℕ) (choice : List Bool) → d.combinational ≡ [] → Settles d order → IsSteady d order b → length choice ≡ cycle_bits d → IsOutcome InTextOrder d before inputs choice (shown_by d order before inputs choice) (next_by d order before inputs choice) }
{}

/// Law: so does the cycle under every schedule, where besides each variable and each memory belongs to one clocked process:
/// no other one writes it, and none looks at it where it is written at once. In whatever order the processes take their
/// steps, the cycle shows and leaves the same (IEEE Std 1364-2005, 11.4.2).
pub fn any_order_cycles()
    ensures { (d : Design) (order : List ℕ) (b : AtOnce) (o : Owners) (before : Store) (inputs : List ℕ) (choice : List Bool) → d.combinational ≡ [] → Settles d order → IsSteady d order b → AreApart d b o → length choice ≡ cycle_bits d → IsOutcome InAnyOrder d before inputs choice (shown_by d order before inputs choice) (next_by d order before inputs choice) }
{}

/// Law: how many steps each process of such a design takes does not depend on the schedule, so that counting decides which
/// schedules are complete. There is a cycle under a schedule exactly where each process stands in it as often as it takes
/// steps, one process after another; and it is not complete behind so many entries exactly where those have taken the steps
/// down and the next one names a process that has none left, or is none, or there is no next one. What a process makes of the
/// view where it takes all its steps alone is what it leaves with the nets as they are.
pub fn schedules_are_counted()
    ensures complete { (d : Design) (order : List ℕ) (b : AtOnce) (o : Owners) (before : Store) (inputs : List ℕ) (choice : List Bool) (schedule : List ℕ) → d.combinational ≡ [] → Settles d order → IsSteady d order b → AreApart d b o → length choice ≡ cycle_bits d → IsCycle d before inputs choice schedule (shown_by d order before inputs choice) (next_by d order before inputs choice) ↔ IsCounted (steps_in_order d.clocked (view_by d order inputs (words_from d.sites choice) before)) schedule }
    ensures incomplete { (d : Design) (order : List ℕ) (b : AtOnce) (o : Owners) (before : Store) (inputs : List ℕ) (choice : List Bool) (schedule : List ℕ) → d.combinational ≡ [] → Settles d order → IsSteady d order b → AreApart d b o → (index : ℕ) → IsIncompleteAt d before inputs choice schedule index ↔ IsShortAt (steps_in_order d.clocked (view_by d order inputs (words_from d.sites choice) before)) schedule index }
    ensures alone { (process : Acts) (s : Stepping) → (finished process s).view ≡ alone process s.view }
{}

/// Law: a module that breaks no rule and whose processes are all clocked is steady: its blocking assignments write certain
/// variables and memories, and whatever these hold, the nets that its processes look at settle alike (IEEE Std 1364-2005,
/// 9.2.1 and 11.6.1). Where no process is combinational, none of the design is.
pub fn processes_are_steady()
    ensures clocked { (m : Module) → combinational_of (uses_of (names_of m) m) ≡ [] → (design_of m).combinational ≡ [] }
    ensures steady { (m : Module) → first_fault (places_of m) typing_rules ≡ None → first_fault (places_of m) process_rules ≡ None → combinational_of (uses_of (names_of m) m) ≡ [] → (order : List ℕ) → Settles (design_of m) order → (b : AtOnce) × IsSteady (design_of m) order b }
{}

/// Law: so a cycle of such a module in text order shows and leaves what it does where the nets are computed once, in the
/// order, and each clocked process then takes all its steps with the nets as they are, one process after another.
pub fn modules_cycle_in_text_order()
    ensures { (m : Module) → first_fault (places_of m) typing_rules ≡ None → first_fault (places_of m) process_rules ≡ None → combinational_of (uses_of (names_of m) m) ≡ [] → (order : List ℕ) → Settles (design_of m) order → (before : Store) (inputs : List ℕ) (choice : List Bool) → length choice ≡ cycle_bits (design_of m) → IsOutcome InTextOrder (design_of m) before inputs choice (shown_by (design_of m) order before inputs choice) (next_by (design_of m) order before inputs choice) }
{}

/// Law: the processes of such a module are apart besides: no variable and no memory is written by two of them, and none looks
/// at what another one writes at once (IEEE Std 1364-2005, 9.2.1).
pub fn processes_are_apart()
    ensures { (m : Module) → first_fault (places_of m) typing_rules ≡ None → first_fault (places_of m) process_rules ≡ None → combinational_of (uses_of (names_of m) m) ≡ [] → (order : List ℕ) → Settles (design_of m) order → (b : AtOnce) × (o : Owners) × IsSteady (design_of m) order b × AreApart (design_of m) b o }
{}

/// Law: so every schedule of such a module does the same. Some schedule is complete, and in whatever order the processes take
/// their steps, each complete one shows and leaves what the cycle does in text order (IEEE Std 1364-2005, 11.4.2). What its
/// machine does in a cycle under every schedule is what it does in text order, and each of the two machines realises the
/// other.
pub fn every_schedule_does_the_same()
    ensures outcome { (m : Module) → first_fault (places_of m) typing_rules ≡ None → first_fault (places_of m) process_rules ≡ None → combinational_of (uses_of (names_of m) m) ≡ [] → (order : List ℕ) → Settles (design_of m) order → (before : Store) (inputs : List ℕ) (choice : List Bool) → length choice ≡ cycle_bits (design_of m) → IsOutcome InAnyOrder (design_of m) before inputs choice (shown_by (design_of m) order before inputs choice) (next_by (design_of m) order before inputs choice) }
    ensures does { (m : Module) → first_fault (places_of m) typing_rules ≡ None → first_fault (places_of m) process_rules ≡ None → combinational_of (uses_of (names_of m) m) ≡ [] → (order : List ℕ) → Settles (design_of m) order → (before : Store) (inputs words : List WordValue) (after : Store) → Does InTextOrder (design_of m) before inputs words after ↔ Does InAnyOrder (design_of m) before inputs words after }
    ensures any { (m : Module) → first_fault (places_of m) typing_rules ≡ None → first_fault (places_of m) process_rules ≡ None → combinational_of (uses_of (names_of m) m) ≡ [] → (order : List ℕ) → Settles (design_of m) order → Realises (module_machine InAnyOrder m) (module_machine InTextOrder m) }
    ensures text { (m : Module) → first_fault (places_of m) typing_rules ≡ None → first_fault (places_of m) process_rules ≡ None → combinational_of (uses_of (names_of m) m) ≡ [] → (order : List ℕ) → Settles (design_of m) order → Realises (module_machine InTextOrder m) (module_machine InAnyOrder m) }
{}

/// Law: the inputs, the nets with the combinational variables, the other variables, and the memories of a module are each
/// numbered from 0 in the order of their declarations.
pub fn names_are_numbered()
    ensures { (m : Module) → AreNumbered [] (names_of m) }
{}

/// Law: the first value of each name of a module keeps to the name's width, to which it is cut (IEEE Std 1364-2005, 6.2.1).
pub fn first_values_fit()
    ensures { (m : Module) → list_all keeps_first (names_of m) ≡ true }
{}
