ghost use Rattle.std.specs.Prelude.{OnOk, flat_map};
ghost use Rattle.std.specs.List.{list_all};
ghost use Rattle.v_meaning.specs.Proper.{is_sound};
ghost use Rattle.v_meaning.specs.Sites.{sites_of};
ghost use Rattle.v_sites.specs.Adding.{Adds, link_sites, is_sound_link};

use crate::leaves::{add_number, add_select};
use lz_base::{Items, OutOfMemory};
use std::alloc::Global;
use v_core::TypedSite;
use v_names::Names;
use v_syntax::{BinaryOperator, Expr};

// Appends the sites of an expression in text order. Constant bounds and counts have none.
#[cycle(expressions)]
pub(crate) fn add_expr(
    alloc: Global,
    names: &Names,
    x: &Expr,
    found: &mut Items<TypedSite>,
) -> Result<(), OutOfMemory>
    ensures { OnOk result (Adds (is_sound names.now x.now) found.old found.new (sites_of names.now x.now)) }
{
    match x {
        Expr::Number(number) => add_number(number, found),
        Expr::Name(_) => Ok(()),
        Expr::Select { name, index, .. } => {
            let index = index.get();
            add_select(alloc, names, name, index, found)?;
            add_expr(alloc, names, index, found)
        }
        Expr::Part { .. } => Ok(()),
        Expr::Unary(_, operand) => add_expr(alloc, names, operand.get(), found),
        Expr::Chain(first, links) => {
            add_expr(alloc, names, first.get(), found)?;
            add_links(alloc, names, links.as_slice(), found)
        }
        Expr::Conditional(condition, then, otherwise) => {
            add_expr(alloc, names, condition.get(), found)?;
            add_expr(alloc, names, then.get(), found)?;
            add_expr(alloc, names, otherwise.get(), found)
        }
        Expr::Concat { parts, .. } => add_exprs(alloc, names, parts.as_slice(), found),
        Expr::Replicate { parts, .. } => add_exprs(alloc, names, parts.as_slice(), found),
        Expr::Cast(_, operand) => add_expr(alloc, names, operand.get(), found),
    }
}

// Appends the sites of the operands behind the first one of a chain.
#[cycle(expressions)]
fn add_links(
    alloc: Global,
    names: &Names,
    links: &[(BinaryOperator, Expr)],
    found: &mut Items<TypedSite>,
) -> Result<(), OutOfMemory>
    ensures { OnOk result (Adds (list_all (is_sound_link names.now) links.now) found.old found.new (flat_map (link_sites names.now) links.now)) }
{
    for (_, operand) in links {
        add_expr(alloc, names, operand, found)?;
    }
    Ok(())
}

// Appends the sites of these expressions.
#[cycle(expressions)]
pub(crate) fn add_exprs(
    alloc: Global,
    names: &Names,
    xs: &[Expr],
    found: &mut Items<TypedSite>,
) -> Result<(), OutOfMemory>
    ensures { OnOk result (Adds (list_all (is_sound names.now) xs.now) found.old found.new (flat_map (sites_of names.now) xs.now)) }
{
    for x in xs {
        add_expr(alloc, names, x, found)?;
    }
    Ok(())
}
