ghost use Rattle.std.specs.Prelude.{◌≡◌, List, IfOk, min};
ghost use Rattle.v_syntax.specs.declared.expr.Expr.{Expr};
ghost use Rattle.v_meaning.specs.declared.names.Entry.{Entry};
ghost use Rattle.v_constants.specs.Constants.{IsConstant};
ghost use Rattle.v_meaning.specs.Names.{or_zero, span};
ghost use Rattle.v_meaning.specs.Declarations.{constant_value};
ghost use Rattle.v_meaning.specs.Proper.{bits_if, is_proper, is_count, is_between_1_and_128};
ghost use Rattle.v_usage.specs.Bits.{both, part_bits, up_to_129};

use lz_base::OutOfMemory;
use std::alloc::Global;
use v_constants::{Constant, constant, proper_value};
use v_names::Names;
use v_syntax::Expr;

// The number that a bound stands for, which is 0 where the bound is negative; `None` where it is not proper.
fn bound_of(alloc: Global, names: &Names, x: &Expr) -> Result<Option<u128>, OutOfMemory>
    ensures { IfOk result (λ n. n ≡ bits_if (is_proper names.now x.now) (or_zero (constant_value names.now x.now))) }
{
    let found = constant(alloc, names, x)?;
    match found {
        Some(found) => Ok(Some(number_of(&found))),
        None => Ok(None),
    }
}

// The number that a constant stands for, or 0 where it is negative.
fn number_of(constant: &Constant) -> u128
    ensures { (names : List Entry) (x : Expr) → IsConstant names x constant.now → result ≡ or_zero (constant_value names x) }
{
    match constant.number() {
        Some(number) => number,
        None => 0,
    }
}

// How many bits there are between bounds, up to 129.
fn span(msb: Option<u128>, lsb: Option<u128>) -> Option<u32>
    ensures { result ≡ up_to_129 (both span msb lsb) }
{
    match (msb, lsb) {
        (Some(msb), Some(lsb)) => Some(span_between(msb, lsb)),
        _ => None,
    }
}

fn span_between(msb: u128, lsb: u128) -> u32
    ensures { result ≡ min (span msb lsb) 129 }
{
    if lsb > msb {
        0
    } else {
        (msb - lsb).min(128) as u32 + 1
    }
}

// How many bits a part of a vector has, up to 129, where its bounds are proper.
pub(crate) fn part_width(
    alloc: Global,
    names: &Names,
    msb: &Expr,
    lsb: &Expr,
) -> Result<Option<u32>, OutOfMemory>
    ensures { IfOk result (λ w. w ≡ up_to_129 (part_bits names.now msb.now lsb.now)) }
{
    let msb = bound_of(alloc, names, msb)?;
    let lsb = bound_of(alloc, names, lsb)?;
    Ok(span(msb, lsb))
}

// A count, where it is one from 1 to 128.
fn count_in(value: Option<u128>) -> Option<u32>
    ensures { result ≡ bits_if (is_between_1_and_128 value) (or_zero value) }
{
    match value {
        Some(count) if 1 <= count && count <= 128 => Some(count as u32),
        _ => None,
    }
}

// The count of a replication, where it is a proper one from 1 to 128.
pub(crate) fn count_of(alloc: Global, names: &Names, x: &Expr) -> Result<Option<u32>, OutOfMemory>
    ensures { IfOk result (λ n. n ≡ bits_if (is_count names.now x.now) (or_zero (constant_value names.now x.now))) }
{
    let value = proper_value(alloc, names, x)?;
    Ok(count_in(value))
}
