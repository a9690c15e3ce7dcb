ghost use Rattle.std.specs.Prelude.{◌≡◌, None, Some, false, IfOk};
ghost use Rattle.v_meaning.specs.Proper.{is_proper, proper_value};
ghost use Rattle.v_constants.specs.declared.body.Open.{Open};
ghost use Rattle.v_constants.specs.Constants.{IsConstant};

use crate::known::{Constant, number_of};
use crate::miss::Miss;
use crate::opening::opened;
use lz_base::OutOfMemory;
use std::alloc::Global;
use v_names::Names;
use v_syntax::Expr;

/// The constant that an expression stands for over the declared names; None where it is no constant expression with a
/// proper value (IEEE Std 1364-2005, 4.10.1 and 5). `OutOfMemory` is the only other answer. The work is linear in the
/// expression, but for the look-ups of names.
pub fn constant(alloc: Global, names: &Names, x: &Expr) -> Result<Option<Constant>, OutOfMemory>
    ensures some { IfOk result (λ r. (c : Open) → r ≡ Some c → IsConstant names.now x.now c) }
    ensures none { IfOk result (λ r. r ≡ None → is_proper names.now x.now ≡ false) }
{
    match opened(alloc, names, x) {
        Ok(open) => Ok(Some(Constant::new(open))),
        Err(Miss::Improper) => Ok(None),
        Err(Miss::OutOfMemory) => Err(OutOfMemory),
    }
}

/// The number that an expression stands for as an index, a bound or a count; None where it is negative, or where the
/// expression is no constant one with a proper value. `OutOfMemory` is the only other answer.
pub fn proper_value(alloc: Global, names: &Names, x: &Expr) -> Result<Option<u128>, OutOfMemory>
    ensures { IfOk result (λ r. r ≡ proper_value names.now x.now) }
{
    match opened(alloc, names, x) {
        Ok(open) => Ok(number_of(&open)),
        Err(Miss::Improper) => Ok(None),
        Err(Miss::OutOfMemory) => Err(OutOfMemory),
    }
}
