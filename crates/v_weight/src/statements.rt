ghost use Rattle.std.specs.Prelude.{◌≡◌, ℕ, IfOk, true, sum, map, []};
ghost use Rattle.v_meaning.specs.Proper.{is_sound};
ghost use Rattle.v_meaning.specs.Statements.{label_items};
ghost use Rattle.v_meaning.specs.Weights.{Weighed, condition_weight, assign_weight, target_weight, stmt_weight};
ghost use Rattle.v_meaning.specs.Targets.{target_of};
ghost use Rattle.v_typing.specs.Sound.{is_sound_target, is_sound_stmt};
ghost use Rattle.v_weight.specs.Saturated.{Same};
ghost use Rattle.v_weight.specs.Counts.{Stands};
ghost use Rattle.v_weight.specs.Statements.{Compares, compared_behind, comparison_weight, arms_items, arms_sound, block_sound};

use crate::counting::Counted;
use crate::expressions::weigh;
use crate::operators::shared;
use crate::saturated::{greater, plus, times};
use crate::targets::weigh_target;
use lz_base::OutOfMemory;
use std::alloc::Global;
use v_names::Names;
use v_syntax::{Arm, BinaryOperator, Expr, Label, Stmt, Target};

// The condition of an `if`: its width, and its weight by itself (IEEE Std 1364-2005, 9.4).
fn weigh_condition(alloc: Global, names: &Names, x: &Expr) -> Result<u64, OutOfMemory>
    ensures { IfOk result (λ w. is_sound names.now x.now ≡ true → Same w (condition_weight names.now x.now)) }
{
    let x = weigh(alloc, names, x)?;
    Ok(plus(x.width, x.own()))
}

// An assignment that so many `if` and `case` statements enclose (9.2).
fn weigh_assignment(
    alloc: Global,
    names: &Names,
    target: &Target,
    value: &Expr,
    depth: u64,
) -> Result<u64, OutOfMemory>
    ensures { IfOk result (λ w. is_sound_target names.now target.now ≡ true → is_sound names.now value.now ≡ true → (d : ℕ) → Same depth d → Same w (assign_weight names.now (target_weight names.now target.now) (target_of names.now [] target.now).width value.now d)) }
{
    let target = weigh_target(alloc, names, target)?;
    let value = weigh(alloc, names, value)?;
    let levels = plus(depth, 1);
    let writes = times(target.size, levels);
    let width = greater(target.width, value.width);
    let right = value.weight.at(width);
    Ok(plus(plus(writes, target.indices), right))
}

// What is compared in a case, with some more items: each item weighs the common width (9.5), as an operator between it
// and what stands before it would, whose operands take the final width.
fn weigh_items(
    alloc: Global,
    names: &Names,
    before: Counted,
    items: &[Expr],
) -> Result<Counted, OutOfMemory>
    ensures { IfOk result (λ r. Compares names.now before items.now r) }
{
    let mut all = before;
    for x in items {
        let one = weigh(alloc, names, x)?;
        all = shared(BinaryOperator::Add, all, one);
    }
    Ok(all)
}

// The same with the items of one more label.
fn weigh_label(
    alloc: Global,
    names: &Names,
    before: Counted,
    label: &Label,
) -> Result<Counted, OutOfMemory>
    ensures { IfOk result (λ r. Compares names.now before (label_items label.now) r) }
{
    match label {
        Label::Items(items) => {
            let all = weigh_items(alloc, names, before, items.as_slice())?;
            Ok(all)
        }
        Label::Default(_) => Ok(before),
    }
}

// What is compared in a case: the expression, with the items of all arms.
fn weigh_labels(
    alloc: Global,
    names: &Names,
    subject: Counted,
    arms: &[Arm],
) -> Result<Counted, OutOfMemory>
    ensures { IfOk result (λ r. arms_sound names.now arms.now ≡ true → (s : Weighed) → Stands subject s → Stands r (compared_behind names.now s (arms_items arms.now))) }
{
    let mut all = subject;
    for arm in arms {
        all = weigh_label(alloc, names, all, &arm.label)?;
    }
    Ok(all)
}

// What a case compares, at the common width.
fn weigh_comparison(
    alloc: Global,
    names: &Names,
    subject: &Expr,
    arms: &[Arm],
) -> Result<u64, OutOfMemory>
    ensures { IfOk result (λ w. is_sound names.now subject.now ≡ true → arms_sound names.now arms.now ≡ true → Same w (comparison_weight names.now subject.now arms.now)) }
{
    let subject = weigh(alloc, names, subject)?;
    let all = weigh_labels(alloc, names, subject, arms)?;
    Ok(all.own())
}

// A statement that so many `if` and `case` statements enclose.
#[cycle(statements)]
pub(crate) fn weigh_statement(
    alloc: Global,
    names: &Names,
    statement: &Stmt,
    depth: u64,
) -> Result<u64, OutOfMemory>
    ensures { IfOk result (λ w. is_sound_stmt names.now statement.now ≡ true → (d : ℕ) → Same depth d → Same w (stmt_weight names.now statement.now d)) }
{
    match statement {
        Stmt::Null => Ok(0),
        Stmt::Block(body) => {
            let all = weigh_block(alloc, names, body.as_slice(), depth)?;
            Ok(all)
        }
        Stmt::If(x, then) => {
            let condition = weigh_condition(alloc, names, x)?;
            let inner = plus(depth, 1);
            let then = weigh_statement(alloc, names, then.get(), inner)?;
            Ok(plus(condition, then))
        }
        Stmt::IfElse(x, then, otherwise) => {
            let condition = weigh_condition(alloc, names, x)?;
            let inner = plus(depth, 1);
            let then = weigh_statement(alloc, names, then.get(), inner)?;
            let otherwise = weigh_statement(alloc, names, otherwise.get(), inner)?;
            let before = plus(condition, then);
            Ok(plus(before, otherwise))
        }
        Stmt::Case { subject, arms, .. } => {
            let comparison = weigh_comparison(alloc, names, subject, arms.as_slice())?;
            let inner = plus(depth, 1);
            let bodies = weigh_arms(alloc, names, arms.as_slice(), inner)?;
            Ok(plus(comparison, bodies))
        }
        Stmt::Assign { target, value, .. } => {
            let all = weigh_assignment(alloc, names, target.get(), value, depth)?;
            Ok(all)
        }
    }
}

// The statements of a block.
#[cycle(statements)]
fn weigh_block(alloc: Global, names: &Names, body: &[Stmt], depth: u64) -> Result<u64, OutOfMemory>
    ensures { IfOk result (λ w. block_sound names.now body.now ≡ true → (d : ℕ) → Same depth d → Same w (sum (map (λ s. stmt_weight names.now s d) body.now))) }
{
    let mut all = 0u64;
    for statement in body {
        let one = weigh_statement(alloc, names, statement, depth)?;
        all = plus(all, one);
    }
    Ok(all)
}

// The bodies of the arms of a case.
#[cycle(statements)]
fn weigh_arms(alloc: Global, names: &Names, arms: &[Arm], depth: u64) -> Result<u64, OutOfMemory>
    ensures { IfOk result (λ w. arms_sound names.now arms.now ≡ true → (d : ℕ) → Same depth d → Same w (sum (map (λ (arm : Arm). stmt_weight names.now arm.body d) arms.now))) }
{
    let mut all = 0u64;
    for arm in arms {
        let one = weigh_statement(alloc, names, &arm.body, depth)?;
        all = plus(all, one);
    }
    Ok(all)
}
