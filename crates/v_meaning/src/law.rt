ghost use Rattle.std.specs.Prelude.{List, Bool, ℕ};
ghost use Rattle.v_syntax.specs.declared.small.SmallModule.{SmallModule};
ghost use Rattle.lz_base.specs.WordValue.{WordValue};
ghost use Rattle.v_meaning.specs.Cycle.{IsComplete, text_order};

/// The schedule in text order is complete: it takes all steps of the first process, then of the next one, and so on.
pub fn text_order_is_complete()
    ensures { (s : SmallModule) (store : List Bool) (inputs : List WordValue) (choice : List Bool) → IsComplete s store inputs choice (text_order s) }
{}
