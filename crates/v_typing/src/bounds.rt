ghost use Rattle.std.specs.Prelude.{◌≡◌, ◌≤◌, ◌*◌, IfOk, true, is_some, Some};
ghost use Rattle.v_meaning.specs.Senses.{replicated};
ghost use Rattle.v_meaning.specs.Names.{entry_of, or_zero, read_part};
ghost use Rattle.v_meaning.specs.Declarations.{constant_value};
ghost use Rattle.v_meaning.specs.Proper.{proper_value, is_part, is_between_1_and_128};
ghost use Rattle.v_core.specs.Bodies.{sense_in};
ghost use Rattle.v_core.specs.OpenForms.{OpenFormed};
ghost use Rattle.v_core.specs.Sited.{is_sited_body};

use crate::leaves::part;
use crate::operators::replicated;
use lz_base::OutOfMemory;
use std::alloc::Global;
use v_constants::proper_value;
use v_core::Open;
use v_names::Names;
use v_syntax::{Expr, Ident};

/// The number of a bound or count that has a proper value (IEEE Std 1364-2005, 4.10.1). `OutOfMemory` is the only other
/// answer, here and below.
pub fn bound(alloc: Global, names: &Names, x: &Expr) -> Result<u128, OutOfMemory>
    requires { is_some (proper_value names.now x.now) ≡ true }
    ensures { IfOk result (λ n. proper_value names.now x.now ≡ Some n) }
{
    match proper_value(alloc, names, x)? {
        Some(n) => Ok(n),
        None => unreachable!(),
    }
}

/// A part of a vector between proper bounds, which descend within the declared range (5.2.1).
pub fn part_between(
    alloc: Global,
    names: &Names,
    ident: &Ident,
    msb: &Expr,
    lsb: &Expr,
) -> Result<Open, OutOfMemory>
    requires bounds { is_part (entry_of names.now ident.now.name) (proper_value names.now msb.now) (proper_value names.now lsb.now) ≡ true }
    ensures value { IfOk result (λ o. sense_in o names.now ≡ read_part (entry_of names.now ident.now.name) (or_zero (constant_value names.now msb.now)) (or_zero (constant_value names.now lsb.now))) }
    ensures form { IfOk result (λ o. OpenFormed o names.now) }
    ensures sited { IfOk result (λ o. is_sited_body o.body ≡ (λ names sites. true)) }
{
    let m = bound(alloc, names, msb)?;
    let l = bound(alloc, names, lsb)?;
    Ok(part(names, ident, m, l))
}

/// As many copies of an operand side by side as a proper count says (5.1.14).
pub fn repeated(alloc: Global, names: &Names, count: &Expr, x: Open) -> Result<Open, OutOfMemory>
    requires counted { is_between_1_and_128 (proper_value names.now count.now) ≡ true }
    requires room { or_zero (constant_value names.now count.now) * x.width ≤ 128 }
    ensures value { IfOk result (λ o. sense_in o names.now ≡ replicated (or_zero (constant_value names.now count.now)) (sense_in x names.now)) }
    ensures form { IfOk result (λ o. OpenFormed x names.now → OpenFormed o names.now) }
    ensures sited { IfOk result (λ o. is_sited_body o.body ≡ is_sited_body x.body) }
{
    let n = bound(alloc, names, count)?;
    let o = replicated(alloc, n, x)?;
    Ok(o)
}
