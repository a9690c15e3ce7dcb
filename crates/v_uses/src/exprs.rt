ghost use Rattle.std.specs.Prelude.{OnOk, flat_map};
ghost use Rattle.v_meaning.specs.Uses.{reads_of};
ghost use Rattle.v_uses.specs.Adding.{Adds, accessed, link_reads};

use crate::accesses::{Accesses, add_read};
use lz_base::OutOfMemory;
use v_syntax::{BinaryOperator, Expr};

// Appends the names that an expression reads, in text order. A bound or count reads no name.
#[cycle(expressions)]
pub(crate) fn add_expr<'a>(x: &'a Expr, all: &mut Accesses<'a>) -> Result<(), OutOfMemory>
    ensures { OnOk result (Adds accessed all.old all.new (λ names. reads_of names x.now)) }
{
    match x {
        Expr::Number(_) => Ok(()),
        Expr::Name(name) => add_read(all, name),
        Expr::Select { name, index, .. } => {
            add_read(all, name)?;
            add_expr(index.get(), all)
        }
        Expr::Part { name, .. } => add_read(all, name),
        Expr::Unary(_, operand) => add_expr(operand.get(), all),
        Expr::Chain(first, links) => {
            add_expr(first.get(), all)?;
            add_links(links.as_slice(), all)
        }
        Expr::Conditional(condition, then, otherwise) => {
            add_expr(condition.get(), all)?;
            add_expr(then.get(), all)?;
            add_expr(otherwise.get(), all)
        }
        Expr::Concat { parts, .. } => add_exprs(parts.as_slice(), all),
        Expr::Replicate { parts, .. } => add_exprs(parts.as_slice(), all),
        Expr::Cast(_, operand) => add_expr(operand.get(), all),
    }
}

// Appends the names that the operands behind the first one of a chain read.
#[cycle(expressions)]
fn add_links<'a>(
    links: &'a [(BinaryOperator, Expr)],
    all: &mut Accesses<'a>,
) -> Result<(), OutOfMemory>
    ensures { OnOk result (Adds accessed all.old all.new (λ names. flat_map (link_reads names) links.now)) }
{
    for (_, operand) in links {
        add_expr(operand, all)?;
    }
    Ok(())
}

// Appends the names that these expressions read.
#[cycle(expressions)]
pub(crate) fn add_exprs<'a>(xs: &'a [Expr], all: &mut Accesses<'a>) -> Result<(), OutOfMemory>
    ensures { OnOk result (Adds accessed all.old all.new (λ names. flat_map (reads_of names) xs.now)) }
{
    for x in xs {
        add_expr(x, all)?;
    }
    Ok(())
}
