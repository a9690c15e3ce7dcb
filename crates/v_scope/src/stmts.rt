ghost use Rattle.std.specs.Prelude.{◌≡◌, [], ◌∷◌, OnOk, false, flat_map, Some, if◌then◌else◌, ◌||◌};
ghost use Rattle.v_meaning.specs.Marks.{range_marks, target_marks, item_marks, label_marks, is_default, stmt_marks};
ghost use Rattle.v_meaning.specs.Marks as marks;
ghost use Rattle.v_scope.specs.Occurrences.{Adds};
ghost use Rattle.v_scope.specs.Lists.{arms_behind};

use crate::Occurrence;
use crate::exprs::{add, add_expr, number_of};
use lz_base::OutOfMemory;
use v_syntax::{Arm, CaseKind, Expr, Label, Range, Stmt, Target};

// Appends the occurrences of the bounds of a range.
pub(crate) fn add_range<'a>(
    range: &'a Range,
    all: &mut Vec<Occurrence<'a>>,
) -> Result<(), OutOfMemory>
    ensures { OnOk result (Adds all.old.items all.new.items (λ names. range_marks names (Some range.now))) }
{
    add_expr(&range.msb.expr, all)?;
    add_expr(&range.lsb.expr, all)
}

// Appends the occurrences of a target in text order.
#[cycle(targets)]
fn add_target<'a>(target: &'a Target, all: &mut Vec<Occurrence<'a>>) -> Result<(), OutOfMemory>
    ensures { OnOk result (Adds all.old.items all.new.items (λ names. target_marks names target.now)) }
{
    match target {
        Target::Name(name) => add(all, Occurrence::Bare(name)),
        Target::Select { name, index, .. } => {
            add(all, Occurrence::Indexed(name))?;
            add_expr(index, all)
        }
        Target::Part { name, range } => {
            add(
                all,
                Occurrence::PartOf(name, &range.msb.expr, &range.lsb.expr),
            )?;
            add_range(range, all)
        }
        Target::Concat { brace, parts } => {
            let parts = parts.as_slice();
            add(all, Occurrence::JoinedTargets(*brace, parts))?;
            add_targets(parts, all)
        }
    }
}

// Appends the occurrences of the parts of a target.
#[cycle(targets)]
fn add_targets<'a>(targets: &'a [Target], all: &mut Vec<Occurrence<'a>>) -> Result<(), OutOfMemory>
    ensures { OnOk result (Adds all.old.items all.new.items (λ names. flat_map (target_marks names) targets.now)) }
{
    for target in targets {
        add_target(target, all)?;
    }
    Ok(())
}

// Appends the occurrences of an item of a case.
fn add_item<'a>(
    kind: CaseKind,
    item: &'a Expr,
    all: &mut Vec<Occurrence<'a>>,
) -> Result<(), OutOfMemory>
    ensures { OnOk result (Adds all.old.items all.new.items (λ names. item_marks names kind item.now)) }
{
    match kind {
        CaseKind::Case => add_expr(item, all),
        CaseKind::Casez => match number_of(item) {
            Some(number) => add(all, Occurrence::Digits(true, number)),
            None => add_expr(item, all),
        },
    }
}

// Appends the occurrences of the items of an arm.
fn add_items<'a>(
    kind: CaseKind,
    items: &'a [Expr],
    all: &mut Vec<Occurrence<'a>>,
) -> Result<(), OutOfMemory>
    ensures { OnOk result (Adds all.old.items all.new.items (λ names. flat_map (item_marks names kind) items.now)) }
{
    for item in items {
        add_item(kind, item, all)?;
    }
    Ok(())
}

// Appends the occurrences of a label, where a `default` was met before it or not.
fn add_label<'a>(
    kind: CaseKind,
    met: bool,
    label: &'a Label,
    all: &mut Vec<Occurrence<'a>>,
) -> Result<(), OutOfMemory>
    ensures { OnOk result (Adds all.old.items all.new.items (λ names. label_marks names kind met label.now)) }
{
    match label {
        Label::Items(items) => add_items(kind, items.as_slice(), all),
        Label::Default(at) => add_default(met, *at, all),
    }
}

// Appends the occurrence of a `default` behind another one, and nothing for a first one.
fn add_default<'a>(met: bool, at: u64, all: &mut Vec<Occurrence<'a>>) -> Result<(), OutOfMemory>
    ensures { OnOk result (Adds all.old.items all.new.items (λ names. if met then marks.Again at ∷ [] else [])) }
{
    if met {
        add(all, Occurrence::Again(at))
    } else {
        Ok(())
    }
}

// Whether a `default` was met before a label or is that label.
fn default_met(met: bool, label: &Label) -> bool
    ensures { result ≡ (met || is_default label.now) }
{
    match label {
        Label::Items(_) => met,
        Label::Default(_) => true,
    }
}

// Appends the occurrences of a statement in text order.
#[cycle(statements)]
pub(crate) fn add_stmt<'a>(
    statement: &'a Stmt,
    all: &mut Vec<Occurrence<'a>>,
) -> Result<(), OutOfMemory>
    ensures { OnOk result (Adds all.old.items all.new.items (λ names. stmt_marks names statement.now)) }
{
    match statement {
        Stmt::Null => Ok(()),
        Stmt::Block(body) => add_stmts(body.as_slice(), all),
        Stmt::If(condition, then) => {
            add_expr(condition, all)?;
            add_stmt(then.get(), all)
        }
        Stmt::IfElse(condition, then, otherwise) => {
            add_expr(condition, all)?;
            add_stmt(then.get(), all)?;
            add_stmt(otherwise.get(), all)
        }
        Stmt::Case {
            kind,
            subject,
            arms,
        } => {
            add_expr(subject, all)?;
            add_arms(arms.as_slice(), *kind, all)
        }
        Stmt::Assign { target, value, .. } => {
            add_target(target.get(), all)?;
            add_expr(value, all)
        }
    }
}

// Appends the occurrences of the statements of a block.
#[cycle(statements)]
fn add_stmts<'a>(statements: &'a [Stmt], all: &mut Vec<Occurrence<'a>>) -> Result<(), OutOfMemory>
    ensures { OnOk result (Adds all.old.items all.new.items (λ names. flat_map (stmt_marks names) statements.now)) }
{
    for statement in statements {
        add_stmt(statement, all)?;
    }
    Ok(())
}

// Appends the occurrences of the arms of a case.
#[cycle(statements)]
fn add_arms<'a>(
    arms: &'a [Arm],
    kind: CaseKind,
    all: &mut Vec<Occurrence<'a>>,
) -> Result<(), OutOfMemory>
    ensures { OnOk result (Adds all.old.items all.new.items (λ names. arms_behind names kind false arms.now)) }
{
    let mut met = false;
    for arm in arms {
        add_label(kind, met, &arm.label, all)?;
        add_stmt(&arm.body, all)?;
        met = default_met(met, &arm.label);
    }
    Ok(())
}
