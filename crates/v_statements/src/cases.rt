ghost use Rattle.std.specs.Prelude.{◌≡◌, ◌≤◌, ◌&&◌, max, map, true, IfOk, List};
ghost use Rattle.v_meaning.specs.declared.names.Entry.{Entry};
ghost use Rattle.v_core.specs.Bodies.{sense_in};
ghost use Rattle.v_core.specs.Statements.{acts_in};
ghost use Rattle.v_core.specs.FormedCores.{is_formed_stmt};
ghost use Rattle.v_core.specs.OpenForms.{OpenFormed};
ghost use Rattle.v_core.specs.Sited.{is_sited_body};
ghost use Rattle.v_core.specs.SitedCores.{is_sited_stmt};
ghost use Rattle.v_statements.specs.Forms.{ArmFormed, Each, arm_form, open_arm_form};
ghost use Rattle.v_statements.specs.Sited.{are_sited_open_arms, is_sited_arm, is_sited_open_arm};
ghost use Rattle.v_statements.specs.Cases.{arm_at, case_of, comparison_among, comparison_in, open_arm, open_item, open_items, comparison_behind, senses_of, typed_arm};

use crate::items::{Common, OpenItem, OpenLabel, fixed_label};
use crate::making::chosen;
use lz_base::{Items, OutOfMemory};
use std::alloc::Global;
use v_core::{Open, TypedArm, TypedStmt, fix};

/// An arm of a case whose items have their own width and sign.
#[derive(Drop)]
pub struct OpenArm {
    pub label: OpenLabel,
    pub body: TypedStmt,
}

// The common width and sign of what has one and of one item more.
fn with_item(by: Common, item: &Open) -> Common
    ensures width { result.width ≡ max by.width item.now.width }
    ensures signed { result.signed ≡ (by.signed && item.now.signed) }
{
    Common {
        width: by.width.max(item.width),
        signed: by.signed && item.signed,
    }
}

// That of what has one and of the items of a label: the greatest width, and signed where all are.
fn with_items(by: Common, items: &[OpenItem]) -> Common
    ensures { (names : List Entry) → comparison_in result ≡ comparison_behind (comparison_in by) (senses_of (map (open_item names) items.now)) }
{
    let mut all = by;
    for item in items {
        all = with_item(all, &item.value);
    }
    all
}

// That of what has one and of a label.
fn with_label(by: Common, label: &OpenLabel) -> Common
    ensures { (names : List Entry) → comparison_in result ≡ comparison_behind (comparison_in by) (senses_of (map (open_item names) (open_items label.now))) }
{
    match label {
        OpenLabel::Items(items) => with_items(by, items.as_slice()),
        OpenLabel::Default => by,
    }
}

// The common width and sign of the subject and all items (IEEE Std 1364-2005, 9.5).
fn common(subject: &Open, arms: &[OpenArm]) -> Common
    ensures { (names : List Entry) → comparison_in result ≡ comparison_among (sense_in subject.now names) (map (open_arm names) arms.now) }
{
    let mut all = Common {
        width: subject.width,
        signed: subject.signed,
    };
    for arm in arms {
        all = with_label(all, &arm.label);
    }
    all
}

// An arm whose items are compared at the common width and sign. `OutOfMemory` is the only other answer, here and below.
fn fixed_arm(alloc: Global, arm: OpenArm, by: Common) -> Result<TypedArm, OutOfMemory>
    requires within { by.width ≤ 128 }
    ensures value { IfOk result (λ t. (names : List Entry) → typed_arm names t ≡ arm_at (comparison_in by) (open_arm names arm)) }
    ensures form { IfOk result (λ t. (names : List Entry) → arm_form names t ≡ open_arm_form names by arm) }
    ensures sited { IfOk result (λ t. is_sited_arm t ≡ is_sited_open_arm arm) }
{
    let label = fixed_label(alloc, arm.label, by)?;
    Ok(TypedArm {
        label,
        body: arm.body,
    })
}

// The arms at the common width and sign, the last one first.
fn fixed_arms(
    alloc: Global,
    arms: Items<OpenArm>,
    by: Common,
) -> Result<Items<TypedArm>, OutOfMemory>
    requires within { by.width ≤ 128 }
    ensures value { IfOk result (λ t. (names : List Entry) → map (typed_arm names) t ≡ map (arm_at (comparison_in by)) (map (open_arm names) arms)) }
    ensures form { IfOk result (λ t. (names : List Entry) → map (arm_form names) t ≡ map (open_arm_form names by) arms) }
    ensures sited { IfOk result (λ t. map is_sited_arm t ≡ map is_sited_open_arm arms) }
{
    let mut left = arms;
    let mut fixed = Vec::new(alloc);
    while let Some(arm) = left.pop() {
        let one = fixed_arm(alloc, arm, by)?;
        fixed.push(one)?;
    }
    fixed.reverse();
    Ok(Items::from_vec(fixed))
}

/// A case whose subject and items are compared at the greatest of their widths, as signed where all are (9.5).
pub fn compared(
    alloc: Global,
    subject: Open,
    arms: Items<OpenArm>,
) -> Result<TypedStmt, OutOfMemory>
    ensures value { IfOk result (λ t. (names : List Entry) → acts_in t names ≡ case_of (sense_in subject names) (map (open_arm names) arms)) }
    ensures form { IfOk result (λ t. (names : List Entry) → OpenFormed subject names → Each (ArmFormed names) arms → is_formed_stmt t names ≡ true) }
    ensures sited { IfOk result (λ t. is_sited_stmt t ≡ (λ names sites. is_sited_body subject.body names sites && are_sited_open_arms arms names sites)) }
{
    let by = common(&subject, arms.as_slice());
    // No sound expression has more bits.
    if by.width > 128 {
        return Err(OutOfMemory);
    }
    let subject = fix(alloc, subject.body, by.width, by.signed)?;
    let arms = fixed_arms(alloc, arms, by)?;
    Ok(chosen(subject, arms))
}
