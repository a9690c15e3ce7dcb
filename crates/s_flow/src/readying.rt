ghost use Rattle.std.specs.Prelude.{◌≡◌, ◌≤◌, length, None, Some, IfOk};
ghost use Rattle.lz_base.specs.Limits.{source_limit};
ghost use Rattle.lz_base.specs.Answers.{IfFault};
ghost use Rattle.v_core.specs.Cores.{design_in};
ghost use Rattle.v_machine.specs.Runnable.{CanRun};
ghost use Rattle.v_meaning.specs.Modules.{design_of};
ghost use Rattle.s_flow.specs.FirstBroken.{first_broken};
ghost use Rattle.s_flow.specs.Running.{IfSpelled, IsReadyFrom, IsRunnable};

use crate::reading::judged;
use lz_base::Stop;
use std::alloc::Global;
use v_core::Core;
use v_lexer::lex;
use v_machine::accepted_modules_run;
use v_order::order;
use v_parser::parse;
use v_syntax::{Module, Tokens};

/// The typed form of a module, and an order in which its nets settle: the numbers of its assigns in text order.
#[derive(Drop)]
pub struct Prepared {
    pub core: Core,
    pub order: Vec<usize>,
}

/// What a machine is made of for the module that the bytes are a text of: its typed form, and an order in which its nets
/// settle (IEEE Std 1364-2005, 6.1.2). A text that `front` refuses is refused with the same rule at the same byte.
/// `OutOfMemory` is the only other answer.
pub fn runnable(alloc: Global, bytes: &[u8]) -> Result<Prepared, Stop>
    requires { length bytes.now ≤ source_limit }
    ensures { IsRunnable bytes.now result }
{
    let tokens = lex(alloc, bytes)?;
    runnable_of(alloc, &tokens)
}

// The same of the tokens.
fn runnable_of(alloc: Global, tokens: &Tokens) -> Result<Prepared, Stop>
    ensures { IsReadyFrom tokens.now.tokens tokens.now.end result }
{
    // Called for its clause alone: the tokens stand one behind another.
    tokens.tokens();
    let module = parse(alloc, tokens)?;
    ready(alloc, &module)
}

// The same of a module.
#[tactic(auto, using(crate::proofs::FirstBroken::kept_parts))]
fn ready(alloc: Global, module: &Module) -> Result<Prepared, Stop>
    ensures design { IfOk result (λ r. (first_broken «module».now ≡ None) × (design_in r.core ≡ design_of «module».now)) }
    ensures runs { IfOk result (λ r. IfSpelled «module».now (CanRun r.core r.order.items)) }
    ensures refused { IfFault result (λ fault. first_broken «module».now ≡ Some fault) }
{
    accepted_modules_run();
    let core = judged(alloc, module)?;
    let order = order(alloc, module)?;
    Ok(Prepared { core, order })
}
