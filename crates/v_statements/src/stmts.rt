ghost use Rattle.std.specs.Prelude.{◌≡◌, ℕ, List, All, true, map, IfOk};
ghost use Rattle.std.specs.List.{list_all};
ghost use Rattle.v_meaning.specs.Senses.{own};
ghost use Rattle.v_meaning.specs.Expressions.{sense_of};
ghost use Rattle.v_meaning.specs.Statements.{acts_of, assign_acts, writes_of};
ghost use Rattle.v_meaning.specs.Targets.{target_of};
ghost use Rattle.v_meaning.specs.Proper.{is_sound};
ghost use Rattle.v_core.specs.Values.{typed_value};
ghost use Rattle.v_core.specs.declared.statement.TypedStmt.{TypedStmt};
ghost use Rattle.v_core.specs.Statements.{acts_in};
ghost use Rattle.v_core.specs.Formed.{formed};
ghost use Rattle.v_core.specs.FormedCores.{is_formed_stmt};
ghost use Rattle.v_statements.specs.Forms.{ArmFormed, Each};
ghost use Rattle.v_core.specs.Sited.{is_sited};
ghost use Rattle.v_core.specs.SitedCores.{is_sited_stmt};
ghost use Rattle.v_statements.specs.Sited.{ArmRead, StmtRead, TargetRead, are_sited_open_arms};
ghost use Rattle.v_typing.specs.Sited.{IsRead};
ghost use Rattle.v_typing.specs.Sound.{is_sound_stmt, is_sound_target};
ghost use Rattle.v_statements.specs.Sound.{is_sound_arm};
ghost use Rattle.v_statements.specs.Made.{body_acts};
ghost use Rattle.v_statements.specs.Cases.{open_arm, source_arm};

use crate::cases::{OpenArm, compared};
use crate::items::opened_label;
use crate::making::{assigned, branched, in_turn, nothing};
use crate::targets::measured;
use lz_base::{Items, OutOfMemory};
use std::alloc::Global;
use v_core::{Typed, TypedStmt, fix};
use v_names::{Names, Sites};
use v_syntax::{Arm, AssignKind, CaseKind, Expr, Stmt, Target};
use v_typing::{opened, own};

// A condition, which determines itself (IEEE Std 1364-2005, 9.4). `OutOfMemory` is the only other answer, here and below.
fn condition(alloc: Global, names: &Names, sites: &Sites, x: &Expr) -> Result<Typed, OutOfMemory>
    requires sound { is_sound names.now x.now ≡ true }
    ensures value { IfOk result (λ t. typed_value t names.now ≡ own (sense_of names.now sites.now x.now)) }
    ensures form { IfOk result (λ t. (formed t names.now).kept ≡ true) }
    ensures sited { IfOk result (λ t. (widths : List ℕ) → IsRead widths sites.now names.now x.now → is_sited t names.now widths ≡ true) }
{
    let x = opened(alloc, names, sites, x)?;
    let t = own(alloc, x)?;
    Ok(t)
}

// An assignment, whose value takes the greater of its own width and the target's, with its own sign (9.2).
fn assignment(
    alloc: Global,
    names: &Names,
    sites: &Sites,
    target: &Target,
    kind: AssignKind,
    value: &Expr,
) -> Result<TypedStmt, OutOfMemory>
    requires target { is_sound_target names.now target.now ≡ true }
    requires value { is_sound names.now value.now ≡ true }
    ensures value { IfOk result (λ t. acts_in t names.now ≡ assign_acts kind (writes_of (target_of names.now sites.now target.now) (sense_of names.now sites.now value.now))) }
    ensures form { IfOk result (λ t. is_formed_stmt t names.now ≡ true) }
    ensures sited { IfOk result (λ t. (widths : List ℕ) → TargetRead widths sites.now names.now target.now → IsRead widths sites.now names.now value.now → is_sited_stmt t names.now widths ≡ true) }
{
    let target = measured(alloc, names, sites, target)?;
    let value = opened(alloc, names, sites, value)?;
    let width = target.width.max(value.width);
    let value = fix(alloc, value.body, width, value.signed)?;
    let t = assigned(alloc, target.target, kind, value)?;
    Ok(t)
}

/// A statement, with each width and extension of its expressions and targets written out, that has the same acts (IEEE Std
/// 1364-2005, 9). Its expressions are sound, and its targets have 1 to 128 bits. Where as many bits are read at its numbers
/// and selects as are open there, no site of what it gives has more bits than what is selected. `OutOfMemory` is the only
/// other answer. The work is linear in the statement, but for the look-ups of names.
#[cycle(statements)]
pub fn statement(
    alloc: Global,
    names: &Names,
    sites: &Sites,
    s: &Stmt,
) -> Result<TypedStmt, OutOfMemory>
    requires sound { is_sound_stmt names.now s.now ≡ true }
    ensures value { IfOk result (λ t. acts_in t names.now ≡ acts_of names.now sites.now s.now) }
    ensures form { IfOk result (λ t. is_formed_stmt t names.now ≡ true) }
    ensures sited { IfOk result (λ t. (widths : List ℕ) → StmtRead widths sites.now names.now s.now → is_sited_stmt t names.now widths ≡ true) }
{
    match s {
        Stmt::Null => Ok(nothing()),
        Stmt::Block(body) => {
            let body = each(alloc, names, sites, body.as_slice())?;
            Ok(in_turn(body))
        }
        Stmt::If(x, one) => {
            let x = condition(alloc, names, sites, x)?;
            let one = statement(alloc, names, sites, one.get())?;
            let t = branched(alloc, x, one, nothing())?;
            Ok(t)
        }
        Stmt::IfElse(x, one, other) => {
            let x = condition(alloc, names, sites, x)?;
            let one = statement(alloc, names, sites, one.get())?;
            let other = statement(alloc, names, sites, other.get())?;
            let t = branched(alloc, x, one, other)?;
            Ok(t)
        }
        Stmt::Case {
            kind,
            subject,
            arms,
        } => {
            let subject = opened(alloc, names, sites, subject)?;
            let arms = opened_arms(alloc, names, sites, *kind, arms.as_slice())?;
            let t = compared(alloc, subject, arms)?;
            Ok(t)
        }
        Stmt::Assign {
            target,
            kind,
            value,
        } => {
            let t = assignment(alloc, names, sites, target.get(), *kind, value)?;
            Ok(t)
        }
    }
}

// The statements of a block.
#[cycle(statements)]
fn each(
    alloc: Global,
    names: &Names,
    sites: &Sites,
    body: &[Stmt],
) -> Result<Items<TypedStmt>, OutOfMemory>
    requires sound { list_all (is_sound_stmt names.now) body.now ≡ true }
    ensures value { IfOk result (λ t. body_acts t names.now ≡ map (acts_of names.now sites.now) body.now) }
    ensures form { IfOk result (λ t. list_all (λ (x : TypedStmt). is_formed_stmt x names.now) t ≡ true) }
    ensures sited { IfOk result (λ t. (widths : List ℕ) → All (StmtRead widths sites.now names.now) body.now → list_all (λ (x : TypedStmt). is_sited_stmt x names.now widths) t ≡ true) }
{
    let mut all = Items::new(alloc);
    for s in body {
        let one = statement(alloc, names, sites, s)?;
        all.push(one)?;
    }
    Ok(all)
}

// The arms of a case, whose items have their own width and sign.
#[cycle(statements)]
fn opened_arms(
    alloc: Global,
    names: &Names,
    sites: &Sites,
    kind: CaseKind,
    arms: &[Arm],
) -> Result<Items<OpenArm>, OutOfMemory>
    requires sound { list_all (is_sound_arm names.now) arms.now ≡ true }
    ensures value { IfOk result (λ o. map (open_arm names.now) o ≡ map (source_arm names.now sites.now kind) arms.now) }
    ensures form { IfOk result (λ o. Each (ArmFormed names.now) o) }
    ensures sited { IfOk result (λ o. (widths : List ℕ) → All (ArmRead widths sites.now names.now) arms.now → are_sited_open_arms o names.now widths ≡ true) }
{
    let mut all = Items::new(alloc);
    for arm in arms {
        let label = opened_label(alloc, names, sites, kind, &arm.label)?;
        let body = statement(alloc, names, sites, &arm.body)?;
        all.push(OpenArm { label, body })?;
    }
    Ok(all)
}
