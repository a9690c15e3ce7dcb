ghost use Rattle.std.specs.Prelude.{OnOk, flat_map};
ghost use Rattle.std.specs.List.{list_all};
ghost use Rattle.v_meaning.specs.Statements.{label_items};
ghost use Rattle.v_meaning.specs.Sites.{target_sites, items_sites, stmt_sites};
ghost use Rattle.v_typing.specs.Sound.{all_sound, is_sound_target, is_sound_stmt};
ghost use Rattle.v_sites.specs.Adding.{Adds, arm_sites, is_sound_arm};

use crate::exprs::{add_expr, add_exprs};
use lz_base::{Items, OutOfMemory};
use std::alloc::Global;
use v_core::TypedSite;
use v_names::Names;
use v_syntax::{Arm, Label, Stmt, Target};

// Appends the sites in the indices of a target. A bit or word of the target itself is none.
#[cycle(targets)]
fn add_target(
    alloc: Global,
    names: &Names,
    target: &Target,
    found: &mut Items<TypedSite>,
) -> Result<(), OutOfMemory>
    ensures { OnOk result (Adds (is_sound_target names.now target.now) found.old found.new (target_sites names.now target.now)) }
{
    match target {
        Target::Name(_) => Ok(()),
        Target::Select { index, .. } => add_expr(alloc, names, index, found),
        Target::Part { .. } => Ok(()),
        Target::Concat { parts, .. } => add_targets(alloc, names, parts.as_slice(), found),
    }
}

// Appends the sites in the indices of the parts of a target.
#[cycle(targets)]
fn add_targets(
    alloc: Global,
    names: &Names,
    targets: &[Target],
    found: &mut Items<TypedSite>,
) -> Result<(), OutOfMemory>
    ensures { OnOk result (Adds (list_all (is_sound_target names.now) targets.now) found.old found.new (flat_map (target_sites names.now) targets.now)) }
{
    for target in targets {
        add_target(alloc, names, target, found)?;
    }
    Ok(())
}

// Appends the sites of the items of an arm.
fn add_label(
    alloc: Global,
    names: &Names,
    label: &Label,
    found: &mut Items<TypedSite>,
) -> Result<(), OutOfMemory>
    ensures { OnOk result (Adds (all_sound names.now (label_items label.now)) found.old found.new (items_sites names.now label.now)) }
{
    match label {
        Label::Items(items) => add_exprs(alloc, names, items.as_slice(), found),
        Label::Default(_) => Ok(()),
    }
}

// Appends the sites of a statement in text order.
#[cycle(statements)]
pub(crate) fn add_stmt(
    alloc: Global,
    names: &Names,
    statement: &Stmt,
    found: &mut Items<TypedSite>,
) -> Result<(), OutOfMemory>
    ensures { OnOk result (Adds (is_sound_stmt names.now statement.now) found.old found.new (stmt_sites names.now statement.now)) }
{
    match statement {
        Stmt::Null => Ok(()),
        Stmt::Block(body) => add_stmts(alloc, names, body.as_slice(), found),
        Stmt::If(condition, then) => {
            add_expr(alloc, names, condition, found)?;
            add_stmt(alloc, names, then.get(), found)
        }
        Stmt::IfElse(condition, then, otherwise) => {
            add_expr(alloc, names, condition, found)?;
            add_stmt(alloc, names, then.get(), found)?;
            add_stmt(alloc, names, otherwise.get(), found)
        }
        Stmt::Case { subject, arms, .. } => {
            add_expr(alloc, names, subject, found)?;
            add_arms(alloc, names, arms.as_slice(), found)
        }
        Stmt::Assign { target, value, .. } => {
            add_target(alloc, names, target.get(), found)?;
            add_expr(alloc, names, value, found)
        }
    }
}

// Appends the sites of the statements of a block.
#[cycle(statements)]
fn add_stmts(
    alloc: Global,
    names: &Names,
    statements: &[Stmt],
    found: &mut Items<TypedSite>,
) -> Result<(), OutOfMemory>
    ensures { OnOk result (Adds (list_all (is_sound_stmt names.now) statements.now) found.old found.new (flat_map (stmt_sites names.now) statements.now)) }
{
    for statement in statements {
        add_stmt(alloc, names, statement, found)?;
    }
    Ok(())
}

// Appends the sites of the arms of a case.
#[cycle(statements)]
fn add_arms(
    alloc: Global,
    names: &Names,
    arms: &[Arm],
    found: &mut Items<TypedSite>,
) -> Result<(), OutOfMemory>
    ensures { OnOk result (Adds (list_all (is_sound_arm names.now) arms.now) found.old found.new (flat_map (arm_sites names.now) arms.now)) }
{
    for arm in arms {
        add_label(alloc, names, &arm.label, found)?;
        add_stmt(alloc, names, &arm.body, found)?;
    }
    Ok(())
}
