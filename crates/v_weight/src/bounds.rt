ghost use Rattle.std.specs.Prelude.{◌≡◌, IfOk, is_some};
ghost use Rattle.v_meaning.specs.declared.names.Entry.{Entry};
ghost use Rattle.v_meaning.specs.Names.{or_zero, span, within, within_kind};
ghost use Rattle.v_meaning.specs.Proper.{proper_value};
ghost use Rattle.v_weight.specs.Saturated.{Same};

use crate::saturated::{plus, stopped};
use lz_base::OutOfMemory;
use std::alloc::Global;
use v_constants::proper_value;
use v_meaning::Kind;
use v_names::Names;
use v_syntax::Expr;

// The number that a bound or count stands for; 0 where it is negative or not proper.
pub(crate) fn value_of(alloc: Global, names: &Names, x: &Expr) -> Result<u128, OutOfMemory>
    ensures { IfOk result (λ n. n ≡ or_zero (proper_value names.now x.now)) }
{
    match proper_value(alloc, names, x)? {
        Some(number) => Ok(number),
        None => Ok(0),
    }
}

// How many bits there are from the most to the least significant one.
fn span(msb: u128, lsb: u128) -> u64
    ensures { Same result (span msb lsb) }
{
    if lsb > msb {
        0
    } else {
        plus(stopped(msb - lsb), 1)
    }
}

// How many bits a part of a vector has (IEEE Std 1364-2005, 5.2.1).
pub(crate) fn part_width(
    alloc: Global,
    names: &Names,
    msb: &Expr,
    lsb: &Expr,
) -> Result<u64, OutOfMemory>
    ensures { IfOk result (λ w. Same w (span (or_zero (proper_value names.now msb.now)) (or_zero (proper_value names.now lsb.now)))) }
{
    let msb = value_of(alloc, names, msb)?;
    let lsb = value_of(alloc, names, lsb)?;
    Ok(span(msb, lsb))
}

// Whether an index is among so many that begin with the lowest.
fn is_within(low: u32, count: u32, index: Option<u128>) -> bool
    ensures { result ≡ is_some (within low count index) }
{
    match index {
        Some(i) => low as u128 <= i && i < low as u128 + count as u128,
        None => false,
    }
}

// Whether an index is in the range of a name of this kind, lowest bit and width (5.2.1 and 5.2.2).
pub(crate) fn is_in_range(kind: Kind, low: u32, width: u32, index: Option<u128>) -> bool
    ensures { (e : Entry) → low ≡ e.low → width ≡ e.width → result ≡ is_some (within_kind kind e index) }
{
    match kind {
        Kind::Memory(_, low, count) => is_within(low, count, index),
        _ => is_within(low, width, index),
    }
}
