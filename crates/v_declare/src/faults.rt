ghost use Rattle.std.specs.Prelude.{◌≡◌, flat_map};
ghost use Rattle.v_meaning.specs.Proper.{is_proper, is_count, is_between_1_and_128};
ghost use Rattle.v_meaning.specs.Statements.{label_items};
ghost use Rattle.v_meaning.specs.ConstantRules.{faulty_at, expr_faults, target_faults, stmt_faults};
ghost use Rattle.v_declare.specs.Walks.{Judges};
ghost use Rattle.v_declare.specs.Faults.{link_faults, arm_faults};

use crate::bounds::{improper, value};
use crate::counts::Declared;
use lz_base::Stop;
use std::alloc::Global;
use v_constants::proper_value;
use v_syntax::{Arm, BinaryOperator, Expr, Label, Stmt, Target};

// Judges a constant expression that begins at a place.
fn judge_value(alloc: Global, names: &Declared, at: u64, x: &Expr) -> Result<(), Stop>
    ensures { Judges (faulty_at (is_proper names.now x.now) at) result }
{
    value(alloc, names, at, x)?;
    Ok(())
}

// Whether a number is a count of copies.
fn is_between_1_and_128(number: Option<u128>) -> bool
    ensures { result ≡ is_between_1_and_128 number }
{
    match number {
        Some(number) => 1 <= number && number <= 128,
        None => false,
    }
}

// Judges a replication count that begins at a place.
fn judge_count(alloc: Global, names: &Declared, at: u64, x: &Expr) -> Result<(), Stop>
    ensures { Judges (faulty_at (is_count names.now x.now) at) result }
{
    if is_between_1_and_128(proper_value(alloc, names.names(), x)?) {
        Ok(())
    } else {
        Err(improper(at))
    }
}

/// Judges the counts and bounds in an expression, in text order.
#[cycle(expressions)]
pub(crate) fn judge_expr(alloc: Global, names: &Declared, x: &Expr) -> Result<(), Stop>
    ensures { Judges (expr_faults names.now x.now) result }
{
    match x {
        Expr::Number(_) => Ok(()),
        Expr::Name(_) => Ok(()),
        Expr::Select { index, .. } => judge_expr(alloc, names, index.get()),
        Expr::Part {
            msb_at,
            msb,
            lsb_at,
            lsb,
            ..
        } => {
            judge_value(alloc, names, *msb_at, msb.get())?;
            judge_value(alloc, names, *lsb_at, lsb.get())
        }
        Expr::Unary(_, operand) => judge_expr(alloc, names, operand.get()),
        Expr::Chain(first, links) => {
            judge_expr(alloc, names, first.get())?;
            judge_links(alloc, names, links.as_slice())
        }
        Expr::Conditional(condition, then, otherwise) => {
            judge_expr(alloc, names, condition.get())?;
            judge_expr(alloc, names, then.get())?;
            judge_expr(alloc, names, otherwise.get())
        }
        Expr::Concat { parts, .. } => judge_exprs(alloc, names, parts.as_slice()),
        Expr::Replicate {
            count_at,
            count,
            parts,
            ..
        } => {
            let count = count.get();
            let parts = parts.as_slice();
            judge_count(alloc, names, *count_at, count)?;
            judge_exprs(alloc, names, parts)
        }
        Expr::Cast(_, operand) => judge_expr(alloc, names, operand.get()),
    }
}

// The operands behind the first one of a chain.
#[cycle(expressions)]
fn judge_links(
    alloc: Global,
    names: &Declared,
    links: &[(BinaryOperator, Expr)],
) -> Result<(), Stop>
    ensures { Judges (flat_map (link_faults names.now) links.now) result }
{
    for (_, operand) in links {
        judge_expr(alloc, names, operand)?;
    }
    Ok(())
}

// Several expressions.
#[cycle(expressions)]
fn judge_exprs(alloc: Global, names: &Declared, exprs: &[Expr]) -> Result<(), Stop>
    ensures { Judges (flat_map (expr_faults names.now) exprs.now) result }
{
    for x in exprs {
        judge_expr(alloc, names, x)?;
    }
    Ok(())
}

// Judges the counts and bounds in a target, in text order.
#[cycle(targets)]
fn judge_target(alloc: Global, names: &Declared, target: &Target) -> Result<(), Stop>
    ensures { Judges (target_faults names.now target.now) result }
{
    match target {
        Target::Name(_) => Ok(()),
        Target::Select { index, .. } => judge_expr(alloc, names, index),
        Target::Part { range, .. } => {
            judge_value(alloc, names, range.msb.at, &range.msb.expr)?;
            judge_value(alloc, names, range.lsb.at, &range.lsb.expr)
        }
        Target::Concat { parts, .. } => judge_targets(alloc, names, parts.as_slice()),
    }
}

#[cycle(targets)]
fn judge_targets(alloc: Global, names: &Declared, targets: &[Target]) -> Result<(), Stop>
    ensures { Judges (flat_map (target_faults names.now) targets.now) result }
{
    for target in targets {
        judge_target(alloc, names, target)?;
    }
    Ok(())
}

// The items of a label; `default` has none.
fn judge_label(alloc: Global, names: &Declared, label: &Label) -> Result<(), Stop>
    ensures { Judges (flat_map (expr_faults names.now) (label_items label.now)) result }
{
    match label {
        Label::Items(items) => judge_exprs(alloc, names, items.as_slice()),
        Label::Default(_) => Ok(()),
    }
}

/// Judges the counts and bounds in a statement, in text order.
#[cycle(statements)]
pub(crate) fn judge_stmt(alloc: Global, names: &Declared, statement: &Stmt) -> Result<(), Stop>
    ensures { Judges (stmt_faults names.now statement.now) result }
{
    match statement {
        Stmt::Null => Ok(()),
        Stmt::Block(body) => judge_stmts(alloc, names, body.as_slice()),
        Stmt::If(condition, then) => {
            judge_expr(alloc, names, condition)?;
            judge_stmt(alloc, names, then.get())
        }
        Stmt::IfElse(condition, then, otherwise) => {
            judge_expr(alloc, names, condition)?;
            judge_stmt(alloc, names, then.get())?;
            judge_stmt(alloc, names, otherwise.get())
        }
        Stmt::Case { subject, arms, .. } => {
            judge_expr(alloc, names, subject)?;
            judge_arms(alloc, names, arms.as_slice())
        }
        Stmt::Assign { target, value, .. } => {
            judge_target(alloc, names, target.get())?;
            judge_expr(alloc, names, value)
        }
    }
}

#[cycle(statements)]
fn judge_stmts(alloc: Global, names: &Declared, statements: &[Stmt]) -> Result<(), Stop>
    ensures { Judges (flat_map (stmt_faults names.now) statements.now) result }
{
    for statement in statements {
        judge_stmt(alloc, names, statement)?;
    }
    Ok(())
}

#[cycle(statements)]
fn judge_arm(alloc: Global, names: &Declared, arm: &Arm) -> Result<(), Stop>
    ensures { Judges (arm_faults names.now arm.now) result }
{
    judge_label(alloc, names, &arm.label)?;
    judge_stmt(alloc, names, &arm.body)
}

#[cycle(statements)]
fn judge_arms(alloc: Global, names: &Declared, arms: &[Arm]) -> Result<(), Stop>
    ensures { Judges (flat_map (arm_faults names.now) arms.now) result }
{
    for arm in arms {
        judge_arm(alloc, names, arm)?;
    }
    Ok(())
}
