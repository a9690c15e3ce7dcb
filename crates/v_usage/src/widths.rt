ghost use Rattle.std.specs.Prelude.{◌≡◌, ◌+◌, List, Option, ℕ, Some, IfOk};
ghost use Rattle.v_meaning.specs.Proper.{concat_bits, replicated_bits};
ghost use Rattle.v_meaning.specs.Marks.{joined_targets_bits};
ghost use Rattle.v_meaning.specs.Names.{entry_of};
ghost use Rattle.v_usage.specs.Bits.{bits_of, chain_counted, select_width, target_bits, up_to_129};

use crate::bits::{beside, between, bits, prefixed, select_width, times, wider};
use crate::bounds::{count_of, part_width};
use lz_base::OutOfMemory;
use std::alloc::Global;
use v_names::Names;
use v_numbers::width_up_to_129;
use v_syntax::{BinaryOperator, Expr, Ident, Target};

// How many bits a name has.
fn name_width(names: &Names, ident: &Ident) -> Option<u32>
    ensures { result ≡ up_to_129 (Some (entry_of names.now ident.now.name).width) }
{
    let known = names.known(&ident.name);
    bits(known.width)
}

// How many bits a name with an index has.
fn selected_width(names: &Names, ident: &Ident) -> Option<u32>
    ensures { result ≡ up_to_129 (Some (select_width (entry_of names.now ident.now.name).kind (entry_of names.now ident.now.name).width)) }
{
    let known = names.known(&ident.name);
    bits(select_width(known.kind, known.width))
}

// How many bits an expression has, up to 129; `None` where a bound or count that tells it is not proper.
#[cycle(widths)]
fn width(alloc: Global, names: &Names, x: &Expr) -> Result<Option<u32>, OutOfMemory>
    ensures { IfOk result (λ w. w ≡ up_to_129 (bits_of names.now x.now)) }
{
    match x {
        Expr::Number(number) => Ok(Some(width_up_to_129(&number.spelling))),
        Expr::Name(name) => Ok(name_width(names, name)),
        Expr::Select { name, .. } => Ok(selected_width(names, name)),
        Expr::Part { msb, lsb, .. } => part_width(alloc, names, msb.get(), lsb.get()),
        Expr::Unary(operator, operand) => {
            let x = width(alloc, names, operand.get())?;
            Ok(prefixed(*operator, x))
        }
        Expr::Chain(first, links) => {
            let first = width(alloc, names, first.get())?;
            chain_width(alloc, names, first, links.as_slice())
        }
        Expr::Conditional(_, then, otherwise) => {
            let x = width(alloc, names, then.get())?;
            let y = width(alloc, names, otherwise.get())?;
            Ok(wider(x, y))
        }
        Expr::Concat { parts, .. } => joined_width(alloc, names, parts.as_slice()),
        Expr::Replicate { count, parts, .. } => {
            let count = count_of(alloc, names, count.get())?;
            let x = joined_width(alloc, names, parts.as_slice())?;
            Ok(times(count, x))
        }
        Expr::Cast(_, operand) => width(alloc, names, operand.get()),
    }
}

// How many bits a chain has, whose first operand has so many.
#[cycle(widths)]
fn chain_width(
    alloc: Global,
    names: &Names,
    first: Option<u32>,
    links: &[(BinaryOperator, Expr)],
) -> Result<Option<u32>, OutOfMemory>
    ensures { IfOk result (λ w. w ≡ chain_counted names.now first links.now) }
{
    let mut all = first;
    for (operator, x) in links {
        let y = width(alloc, names, x)?;
        all = between(*operator, all, y);
    }
    Ok(all)
}

// How many bits the parts of a concatenation have together, up to 129; `None` where that is not definite.
#[cycle(widths)]
pub(crate) fn joined_width(
    alloc: Global,
    names: &Names,
    parts: &[Expr],
) -> Result<Option<u32>, OutOfMemory>
    ensures { IfOk result (λ w. w ≡ up_to_129 (concat_bits names.now parts.now)) }
{
    let mut all = Some(0);
    for x in parts {
        let one = width(alloc, names, x)?;
        all = beside(all, one);
    }
    Ok(all)
}

// How many bits a replication has, up to 129; `None` where that is not definite.
pub(crate) fn replicated_width(
    alloc: Global,
    names: &Names,
    count: &Expr,
    parts: &[Expr],
) -> Result<Option<u32>, OutOfMemory>
    ensures { IfOk result (λ w. w ≡ up_to_129 (replicated_bits names.now count.now parts.now)) }
{
    let count = count_of(alloc, names, count)?;
    let x = joined_width(alloc, names, parts)?;
    Ok(times(count, x))
}

// How many bits a target has, up to 129; `None` where a bound that tells it is not proper.
#[cycle(targets)]
fn target_width(alloc: Global, names: &Names, target: &Target) -> Result<Option<u32>, OutOfMemory>
    ensures { IfOk result (λ w. w ≡ up_to_129 (target_bits names.now target.now)) }
{
    match target {
        Target::Name(name) => Ok(name_width(names, name)),
        Target::Select { name, .. } => Ok(selected_width(names, name)),
        Target::Part { range, .. } => part_width(alloc, names, &range.msb.expr, &range.lsb.expr),
        Target::Concat { parts, .. } => targets_width(alloc, names, parts.as_slice()),
    }
}

// How many bits targets have together, up to 129; `None` where that is not definite.
#[cycle(targets)]
pub(crate) fn targets_width(
    alloc: Global,
    names: &Names,
    targets: &[Target],
) -> Result<Option<u32>, OutOfMemory>
    ensures { IfOk result (λ w. w ≡ up_to_129 (joined_targets_bits names.now targets.now)) }
{
    let mut all = Some(0);
    for target in targets {
        let one = target_width(alloc, names, target)?;
        all = beside(all, one);
    }
    Ok(all)
}
