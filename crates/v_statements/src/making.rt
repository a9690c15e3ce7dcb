ghost use Rattle.std.specs.Prelude.{◌≡◌, ◌+◌, ◌==◌, ◌&&◌, if◌then◌else◌, nat_le, true, map, IfOk};
ghost use Rattle.std.specs.List.{list_all};
ghost use Rattle.v_meaning.specs.Acts.{End, Branch, sequence};
ghost use Rattle.v_meaning.specs.Statements.{assign_acts};
ghost use Rattle.v_core.specs.declared.statement.TypedArm.{TypedArm};
ghost use Rattle.v_core.specs.declared.statement.TypedStmt.{TypedStmt};
ghost use Rattle.v_core.specs.declared.statement.TypedTarget.{TypedTarget};
ghost use Rattle.v_core.specs.Values.{entry_at, typed_value};
ghost use Rattle.v_core.specs.Formed.{formed, has, is_width, selected_width, within_words};
ghost use Rattle.v_core.specs.FormedCores.{is_formed_stmt, target_form, target_parts};
ghost use Rattle.v_core.specs.Statements.{target_in, acts_in, writes_in};
ghost use Rattle.v_statements.specs.Made.{part_in, select_in, joined_in, body_acts};
ghost use Rattle.v_statements.specs.Cases.{chosen_acts, typed_arm};
ghost use Rattle.v_statements.specs.Forms.{is_formed_arm};
ghost use Rattle.v_core.specs.Sited.{is_sited};
ghost use Rattle.v_core.specs.SitedCores.{is_sited_stmt, is_sited_target};
ghost use Rattle.v_statements.specs.Sited.{is_sited_arm};

use lz_base::{Boxed, Items, OutOfMemory};
use std::alloc::Global;
use v_core::{Typed, TypedArm, TypedStmt, TypedTarget};
use v_syntax::AssignKind;

/// So many bits of a variable, from the number of the lowest one up (IEEE Std 1364-2005, 5.2.1).
pub fn part(name: u32, at: u64, low: u32, width: u32) -> TypedTarget
    ensures value { target_in result ≡ part_in name low width }
    ensures form { target_form result ≡ (λ names. record { width = width; kept = is_width width && nat_le (low + width) (entry_at names name).width }) }
    ensures sited { is_sited_target result ≡ (λ names sites. true) }
{
    TypedTarget::Part {
        name,
        at,
        low,
        width,
    }
}

/// A bit of a variable or a word of a memory, of so many bits, at an index of this width and sign (5.2.1 and 5.2.2).
pub fn select(name: u32, at: u64, bits: u32, width: u32, signed: bool, index: Typed) -> TypedTarget
    ensures value { target_in result ≡ select_in name bits width signed index }
    ensures form { target_form result ≡ (λ names. record { width = bits; kept = is_width (entry_at names name).width && bits == selected_width (entry_at names name).kind (entry_at names name).width && has width (formed index names) }) }
    ensures sited { is_sited_target result ≡ is_sited index }
{
    TypedTarget::Select {
        name,
        at,
        bits,
        width,
        signed,
        index,
    }
}

/// Parts side by side; the first is the most significant (9.2).
#[tactic(auto, using(crate::proofs::MakingLaws::target_concat, crate::proofs::FormLaws::form_concat, crate::proofs::SitedLaws::sited_concat))]
pub fn joined(parts: Items<TypedTarget>) -> TypedTarget
    ensures value { target_in result ≡ joined_in parts }
    ensures form { target_form result ≡ (λ names. within_words (target_parts (map target_form parts) names)) }
    ensures sited { is_sited_target result ≡ (λ names sites. list_all (λ (x : TypedTarget). is_sited_target x names sites) parts) }
{
    TypedTarget::Concat(parts)
}

/// The null statement (9.1).
pub fn nothing() -> TypedStmt
    ensures value { acts_in result ≡ (λ names. End) }
    ensures form { is_formed_stmt result ≡ (λ names. true) }
    ensures sited { is_sited_stmt result ≡ (λ names sites. true) }
{
    TypedStmt::Null
}

/// Statements one after another (9.8.1).
#[tactic(auto, using(crate::proofs::MakingLaws::stmt_block, crate::proofs::FormLaws::form_block, crate::proofs::SitedLaws::sited_block))]
pub fn in_turn(body: Items<TypedStmt>) -> TypedStmt
    ensures value { acts_in result ≡ (λ names. sequence (body_acts body names)) }
    ensures form { is_formed_stmt result ≡ (λ names. list_all (λ (t : TypedStmt). is_formed_stmt t names) body) }
    ensures sited { is_sited_stmt result ≡ (λ names sites. list_all (λ (t : TypedStmt). is_sited_stmt t names sites) body) }
{
    TypedStmt::Block(body)
}

/// One statement where a condition holds, else the other (9.4). `OutOfMemory` is the only other answer, here and below.
pub fn branched(
    alloc: Global,
    condition: Typed,
    one: TypedStmt,
    other: TypedStmt,
) -> Result<TypedStmt, OutOfMemory>
    ensures value { IfOk result (λ t. acts_in t ≡ (λ names. Branch (λ v. if typed_value condition names v == 0 then acts_in other names else acts_in one names) End)) }
    ensures form { IfOk result (λ t. is_formed_stmt t ≡ (λ names. (formed condition names).kept && (is_formed_stmt one names && is_formed_stmt other names))) }
    ensures sited { IfOk result (λ t. is_sited_stmt t ≡ (λ names sites. is_sited condition names sites && (is_sited_stmt one names sites && is_sited_stmt other names sites))) }
{
    let one = Boxed::new(alloc, one)?;
    let other = Boxed::new(alloc, other)?;
    Ok(TypedStmt::If(condition, one, other))
}

/// The first arm with an item that the subject meets; else the default, else nothing (9.5).
#[tactic(auto, using(crate::proofs::MakingLaws::stmt_case, crate::proofs::FormLaws::form_case, crate::proofs::SitedLaws::sited_case))]
pub fn chosen(subject: Typed, arms: Items<TypedArm>) -> TypedStmt
    ensures value { acts_in result ≡ (λ names. chosen_acts (typed_value subject names) (map (typed_arm names) arms)) }
    ensures form { is_formed_stmt result ≡ (λ names. (formed subject names).kept && list_all (is_formed_arm (formed subject names).width names) arms) }
    ensures sited { is_sited_stmt result ≡ (λ names sites. is_sited subject names sites && list_all (λ (a : TypedArm). is_sited_arm a names sites) arms) }
{
    TypedStmt::Case { subject, arms }
}

/// An assignment, whose value is cut to the width of its target (9.2).
pub fn assigned(
    alloc: Global,
    target: TypedTarget,
    kind: AssignKind,
    value: Typed,
) -> Result<TypedStmt, OutOfMemory>
    ensures value { IfOk result (λ t. acts_in t ≡ (λ names. assign_acts kind (λ v. writes_in (target_in target names) (typed_value value names v) v))) }
    ensures form { IfOk result (λ t. is_formed_stmt t ≡ (λ names. (target_form target names).kept && (formed value names).kept)) }
    ensures sited { IfOk result (λ t. is_sited_stmt t ≡ (λ names sites. is_sited_target target names sites && is_sited value names sites)) }
{
    let target = Boxed::new(alloc, target)?;
    Ok(TypedStmt::Assign {
        target,
        kind,
        value,
    })
}
