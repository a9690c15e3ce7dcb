ghost use Rattle.std.specs.Prelude.{◌≡◌, [], ◌∷◌, OnOk, flat_map, Some};
ghost use Rattle.std.specs.Option.{option_copied};
ghost use Rattle.v_meaning.specs.Expressions.{number_by_itself};
ghost use Rattle.v_meaning.specs.Marks.{marks_of, unsized_number};
ghost use Rattle.v_scope.specs.Occurrences.{Adds, mark_of};
ghost use Rattle.v_scope.specs.Lists.{link_marks, part_marks};

use crate::Occurrence;
use lz_base::OutOfMemory;
use v_numbers::is_unsized;
use v_syntax::{BinaryOperator, Expr, Number};

// Appends an occurrence.
#[tactic(auto, using(crate::proofs::Adding::one_more))]
pub(crate) fn add<'a>(
    all: &mut Vec<Occurrence<'a>>,
    occurrence: Occurrence<'a>,
) -> Result<(), OutOfMemory>
    ensures { OnOk result (Adds all.old.items all.new.items (λ names. mark_of names occurrence.entry ∷ [])) }
{
    Ok(all.push(occurrence)?)
}

// Appends the occurrences of an expression in text order.
#[cycle(expressions)]
pub(crate) fn add_expr<'a>(x: &'a Expr, all: &mut Vec<Occurrence<'a>>) -> Result<(), OutOfMemory>
    ensures { OnOk result (Adds all.old.items all.new.items (λ names. marks_of names x.now)) }
{
    match x {
        Expr::Number(number) => add(all, Occurrence::Digits(false, number)),
        Expr::Name(name) => add(all, Occurrence::Bare(name)),
        Expr::Select { name, index, .. } => {
            add(all, Occurrence::Indexed(name))?;
            add_expr(index.get(), all)
        }
        Expr::Part { name, msb, lsb, .. } => {
            let msb = msb.get();
            let lsb = lsb.get();
            add(all, Occurrence::PartOf(name, msb, lsb))?;
            add_expr(msb, all)?;
            add_expr(lsb, all)
        }
        Expr::Unary(_, operand) => add_expr(operand.get(), all),
        Expr::Chain(first, links) => {
            add_expr(first.get(), all)?;
            add_links(links.as_slice(), all)
        }
        Expr::Conditional(condition, then, otherwise) => {
            add_expr(condition.get(), all)?;
            add_expr(then.get(), all)?;
            add_expr(otherwise.get(), all)
        }
        Expr::Concat { brace, parts } => {
            let parts = parts.as_slice();
            add(all, Occurrence::Joined(*brace, parts))?;
            add_parts(parts, all)
        }
        Expr::Replicate {
            brace,
            count,
            parts,
            ..
        } => {
            let count = count.get();
            let parts = parts.as_slice();
            add(all, Occurrence::Replicated(*brace, count, parts))?;
            add_expr(count, all)?;
            add_parts(parts, all)
        }
        Expr::Cast(_, operand) => add_expr(operand.get(), all),
    }
}

// Appends the occurrences of the operands behind the first one of a chain.
#[cycle(expressions)]
fn add_links<'a>(
    links: &'a [(BinaryOperator, Expr)],
    all: &mut Vec<Occurrence<'a>>,
) -> Result<(), OutOfMemory>
    ensures { OnOk result (Adds all.old.items all.new.items (λ names. flat_map (link_marks names) links.now)) }
{
    for (_, operand) in links {
        add_expr(operand, all)?;
    }
    Ok(())
}

// Appends the occurrences of the parts of a concatenation or replication.
#[cycle(expressions)]
fn add_parts<'a>(parts: &'a [Expr], all: &mut Vec<Occurrence<'a>>) -> Result<(), OutOfMemory>
    ensures { OnOk result (Adds all.old.items all.new.items (λ names. flat_map (part_marks names) parts.now)) }
{
    for part in parts {
        add_unsized(part, all)?;
        add_expr(part, all)?;
    }
    Ok(())
}

// Appends the occurrence of a part that is a number without a size, and nothing for other parts.
fn add_unsized<'a>(part: &'a Expr, all: &mut Vec<Occurrence<'a>>) -> Result<(), OutOfMemory>
    ensures { OnOk result (Adds all.old.items all.new.items (λ names. unsized_number (number_by_itself part.now))) }
{
    match number_of(part) {
        Some(number) => add_unsized_number(number, all),
        None => Ok(()),
    }
}

// Appends the occurrence of a number that is a part, where it has no size.
fn add_unsized_number<'a>(
    number: &'a Number,
    all: &mut Vec<Occurrence<'a>>,
) -> Result<(), OutOfMemory>
    ensures { OnOk result (Adds all.old.items all.new.items (λ names. unsized_number (Some number.now))) }
{
    if is_unsized(&number.spelling) {
        add(all, Occurrence::UnsizedPart(number.at))
    } else {
        Ok(())
    }
}

// The number that an expression is by itself.
pub(crate) fn number_of(x: &Expr) -> Option<&Number>
    ensures { option_copied result ≡ number_by_itself x.now }
{
    match x {
        Expr::Number(number) => Some(number),
        _ => None,
    }
}
