ghost use Rattle.std.specs.Prelude.{◌≡◌, [], None, IfOk};
ghost use Rattle.v_meaning.specs.Broken.{places_of, first_fault, process_rules, typing_rules};
ghost use Rattle.v_meaning.specs.Declarations.{names_of};
ghost use Rattle.v_meaning.specs.Modules.{design_of};
ghost use Rattle.v_meaning.specs.ProcessRules.{combinational_of};
ghost use Rattle.v_meaning.specs.Uses.{uses_of};
ghost use Rattle.v_order.specs.Settling.{Settles};

use lz_base::OutOfMemory;
use std::alloc::Global;
use v_syntax::Module;
use v_uses::uses;

/// The assigns of a module, by their numbers in text order, in an order in which its nets settle when each is computed once
/// (IEEE Std 1364-2005, 6.1.2). It is asked of a module that breaks no rule and whose processes are all clocked.
/// `OutOfMemory` is the only other answer. The work is n log n in the module.
pub fn order(alloc: Global, module: &Module) -> Result<Vec<usize>, OutOfMemory>
    requires typed { first_fault (places_of «module».now) typing_rules ≡ None }
    requires kept { first_fault (places_of «module».now) process_rules ≡ None }
    requires clocked { combinational_of (uses_of (names_of «module».now) «module».now) ≡ [] }
    ensures { IfOk result (λ order. Settles (design_of «module».now) order.items) }
{
    let uses = uses(alloc, module)?;
    v_depends::order(alloc, &uses)
}
