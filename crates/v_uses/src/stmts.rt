ghost use Rattle.std.specs.Prelude.{OnOk, flat_map};
ghost use Rattle.v_uses.specs.Adding.{Adds, accessed, index_reads, target_writes, accesses_of, item_reads, body_accesses};

use crate::accesses::{Accesses, add_write};
use crate::exprs::{add_expr, add_exprs};
use lz_base::OutOfMemory;
use v_syntax::{Arm, AssignKind, Label, Stmt, Target};

// Appends the names that the indices of a target read, whichever the kind of the assignment.
#[cycle(indices)]
fn add_index<'a>(target: &'a Target, all: &mut Accesses<'a>) -> Result<(), OutOfMemory>
    ensures { OnOk result (Adds accessed all.old all.new (λ c. index_reads c target.now)) }
{
    match target {
        Target::Name(_) => Ok(()),
        Target::Select { index, .. } => add_expr(index, all),
        Target::Part { .. } => Ok(()),
        Target::Concat { parts, .. } => add_indices(parts.as_slice(), all),
    }
}

// Appends the names that the indices of the parts of a target read.
#[cycle(indices)]
fn add_indices<'a>(targets: &'a [Target], all: &mut Accesses<'a>) -> Result<(), OutOfMemory>
    ensures { OnOk result (Adds accessed all.old all.new (λ c. flat_map (index_reads c) targets.now)) }
{
    for target in targets {
        add_index(target, all)?;
    }
    Ok(())
}

// Appends the names that a target writes, from left to right.
#[cycle(targets)]
fn add_target<'a>(
    target: &'a Target,
    kind: AssignKind,
    all: &mut Accesses<'a>,
) -> Result<(), OutOfMemory>
    ensures { OnOk result (Adds accessed all.old all.new (λ names. target_writes (names, kind) target.now)) }
{
    match target {
        Target::Name(name) => add_write(all, name, kind),
        Target::Select { name, .. } => add_write(all, name, kind),
        Target::Part { name, .. } => add_write(all, name, kind),
        Target::Concat { parts, .. } => add_targets(parts.as_slice(), kind, all),
    }
}

// Appends the names that the parts of a target write.
#[cycle(targets)]
fn add_targets<'a>(
    targets: &'a [Target],
    kind: AssignKind,
    all: &mut Accesses<'a>,
) -> Result<(), OutOfMemory>
    ensures { OnOk result (Adds accessed all.old all.new (λ names. flat_map (target_writes (names, kind)) targets.now)) }
{
    for target in targets {
        add_target(target, kind, all)?;
    }
    Ok(())
}

// Appends the names that the items of an arm read.
fn add_items<'a>(arm: &'a Arm, all: &mut Accesses<'a>) -> Result<(), OutOfMemory>
    ensures { OnOk result (Adds accessed all.old all.new (λ names. item_reads names arm.now)) }
{
    match &arm.label {
        Label::Items(items) => add_exprs(items.as_slice(), all),
        Label::Default(_) => Ok(()),
    }
}

// Appends the names that the items of all arms read.
fn add_labels<'a>(arms: &'a [Arm], all: &mut Accesses<'a>) -> Result<(), OutOfMemory>
    ensures { OnOk result (Adds accessed all.old all.new (λ names. flat_map (item_reads names) arms.now)) }
{
    for arm in arms {
        add_items(arm, all)?;
    }
    Ok(())
}

// Appends the accesses of a statement. A case reads its expression and all items before it takes an arm (9.5), and an
// assignment its right side and the indices of its target before it writes (9.2).
#[cycle(statements)]
pub(crate) fn add_stmt<'a>(statement: &'a Stmt, all: &mut Accesses<'a>) -> Result<(), OutOfMemory>
    ensures { OnOk result (Adds accessed all.old all.new (λ names. accesses_of names statement.now)) }
{
    match statement {
        Stmt::Null => Ok(()),
        Stmt::Block(body) => add_stmts(body.as_slice(), all),
        Stmt::If(condition, then) => {
            add_expr(condition, all)?;
            add_stmt(then.get(), all)
        }
        Stmt::IfElse(condition, then, otherwise) => {
            add_expr(condition, all)?;
            add_stmt(then.get(), all)?;
            add_stmt(otherwise.get(), all)
        }
        Stmt::Case { subject, arms, .. } => {
            let arms = arms.as_slice();
            add_expr(subject, all)?;
            add_labels(arms, all)?;
            add_bodies(arms, all)
        }
        Stmt::Assign {
            target,
            kind,
            value,
        } => {
            let target = target.get();
            add_expr(value, all)?;
            add_index(target, all)?;
            add_target(target, *kind, all)
        }
    }
}

// Appends the accesses of the statements of a block.
#[cycle(statements)]
fn add_stmts<'a>(statements: &'a [Stmt], all: &mut Accesses<'a>) -> Result<(), OutOfMemory>
    ensures { OnOk result (Adds accessed all.old all.new (λ names. flat_map (accesses_of names) statements.now)) }
{
    for statement in statements {
        add_stmt(statement, all)?;
    }
    Ok(())
}

// Appends the accesses of the bodies of all arms.
#[cycle(statements)]
fn add_bodies<'a>(arms: &'a [Arm], all: &mut Accesses<'a>) -> Result<(), OutOfMemory>
    ensures { OnOk result (Adds accessed all.old all.new (λ names. flat_map (body_accesses names) arms.now)) }
{
    for arm in arms {
        add_stmt(&arm.body, all)?;
    }
    Ok(())
}
