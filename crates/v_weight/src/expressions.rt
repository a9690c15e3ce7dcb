ghost use Rattle.std.specs.Prelude.{◌≡◌, IfOk, true};
ghost use Rattle.v_meaning.specs.Proper.{is_sound};
ghost use Rattle.v_typing.specs.Sound.{all_sound, links_sound};
ghost use Rattle.v_weight.specs.Counts.{AreParts, IsChain, IsCounted};

use crate::bounds::{part_width, value_of};
use crate::counting::Counted;
use crate::leaves::{name, number, selected};
use crate::operators::{both, chosen, operated, prefixed, recast, replicated};
use crate::saturated::{plus, stopped};
use lz_base::OutOfMemory;
use std::alloc::Global;
use v_constants::proper_value;
use v_names::Names;
use v_syntax::{BinaryOperator, Expr};

// The own width of a sound expression and its weight at any final width; here and below nothing is promised of what is
// not sound. Each node is visited once, but for the constant ones of an index: its value is looked for besides, and that
// stops at the first part that is not constant, as an inner select is. So the work is linear in the expression, but for
// the look-ups of names.
#[cycle(expressions)]
pub(crate) fn weigh(alloc: Global, names: &Names, x: &Expr) -> Result<Counted, OutOfMemory>
    ensures { IfOk result (λ r. is_sound names.now x.now ≡ true → IsCounted names.now x.now r) }
{
    match x {
        Expr::Number(n) => Ok(number(n)),
        Expr::Name(ident) => Ok(name(names, ident)),
        Expr::Select { name, index, .. } => {
            let index = index.get();
            let value = proper_value(alloc, names, index)?;
            let weighed = weigh(alloc, names, index)?;
            Ok(selected(names, name, value, weighed))
        }
        Expr::Part { msb, lsb, .. } => {
            let width = part_width(alloc, names, msb.get(), lsb.get())?;
            Ok(Counted::itself(width, false, 0))
        }
        Expr::Unary(operator, x) => {
            let x = weigh(alloc, names, x.get())?;
            Ok(prefixed(*operator, x))
        }
        Expr::Chain(first, links) => {
            let first = weigh(alloc, names, first.get())?;
            let all = weigh_chain(alloc, names, first, links.as_slice())?;
            Ok(all)
        }
        Expr::Conditional(c, x, y) => {
            let c = weigh(alloc, names, c.get())?;
            let x = weigh(alloc, names, x.get())?;
            let y = weigh(alloc, names, y.get())?;
            Ok(chosen(c, x, y))
        }
        Expr::Concat { parts, .. } => {
            let all = weigh_parts(alloc, names, parts.as_slice())?;
            Ok(all)
        }
        Expr::Replicate { count, parts, .. } => {
            let count = value_of(alloc, names, count.get())?;
            let all = weigh_parts(alloc, names, parts.as_slice())?;
            Ok(replicated(stopped(count), all))
        }
        Expr::Cast(_, x) => {
            let x = weigh(alloc, names, x.get())?;
            Ok(recast(x))
        }
    }
}

// A chain behind its first operand, from the left.
#[cycle(expressions)]
fn weigh_chain(
    alloc: Global,
    names: &Names,
    first: Counted,
    links: &[(BinaryOperator, Expr)],
) -> Result<Counted, OutOfMemory>
    ensures { IfOk result (λ r. links_sound names.now links.now ≡ true → IsChain names.now first links.now r) }
{
    let mut all = first;
    for (operator, x) in links {
        let y = weigh(alloc, names, x)?;
        all = operated(*operator, all, y);
    }
    Ok(all)
}

// Operands side by side: their widths together, and their weights, each by itself.
#[cycle(expressions)]
fn weigh_parts(alloc: Global, names: &Names, parts: &[Expr]) -> Result<Counted, OutOfMemory>
    ensures { IfOk result (λ r. all_sound names.now parts.now ≡ true → AreParts names.now parts.now r) }
{
    let mut width = 0u64;
    let mut weight = 0u64;
    let mut is_constant = true;
    for x in parts {
        let one = weigh(alloc, names, x)?;
        width = plus(width, one.width);
        weight = plus(weight, one.own());
        is_constant = both(is_constant, one.is_constant);
    }
    Ok(Counted::itself(width, is_constant, weight))
}
