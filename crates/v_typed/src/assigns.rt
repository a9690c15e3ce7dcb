ghost use Rattle.std.specs.Prelude.{◌≡◌, ◌≤◌, ◌++◌, ◌%◌, ◌^◌, ℕ, List, All, true, map, flat_map, OnOk, IfOk, max};
ghost use Rattle.std.specs.List.{list_all};
ghost use Rattle.v_syntax.specs.declared.module.Declared.{Declared};
ghost use Rattle.v_syntax.specs.declared.module.Setting.{Setting};
ghost use Rattle.v_meaning.specs.Senses.{assigned};
ghost use Rattle.v_meaning.specs.Expressions.{sense_of};
ghost use Rattle.v_meaning.specs.Proper.{is_sound};
ghost use Rattle.v_meaning.specs.Modules.{net_assign, wire_assign};
ghost use Rattle.v_core.specs.Values.{typed_value};
ghost use Rattle.v_core.specs.Cores.{assign_in};
ghost use Rattle.v_core.specs.Formed.{formed};
ghost use Rattle.v_core.specs.Sited.{is_sited};
ghost use Rattle.v_typed.specs.Forms.{are_formed_assigns, are_measured};
ghost use Rattle.v_typed.specs.Sited.{ValueRead, are_sited_assigns};
ghost use Rattle.v_typing.specs.Sited.{IsRead};
ghost use Rattle.v_typing.specs.Sound.{is_sound_value};

use lz_base::{Items, OutOfMemory};
use std::alloc::Global;
use v_core::{Typed, TypedAssign, fix};
use v_meaning::Kind;
use v_names::{Names, Sites};
use v_syntax::{Declared, Expr, Ident, Placed, Setting};
use v_typing::opened;

// The right side of an assign of so many bits, at the greater one of its own width and that width (IEEE Std 1364-2005,
// 5.4.1 and 6.1).
fn right_side(
    alloc: Global,
    names: &Names,
    sites: &Sites,
    width: u32,
    x: &Expr,
) -> Result<Typed, OutOfMemory>
    requires sound { is_sound names.now x.now ≡ true }
    ensures value { IfOk result (λ t. (λ v. typed_value t names.now v % 2 ^ width) ≡ assigned width (sense_of names.now sites.now x.now)) }
    ensures form { IfOk result (λ t. width ≤ 128 → (formed t names.now).kept ≡ true) }
    ensures sited { IfOk result (λ t. (widths : List ℕ) → IsRead widths sites.now names.now x.now → is_sited t names.now widths ≡ true) }
{
    let side = opened(alloc, names, sites, x)?;
    fix(alloc, side.body, width.max(side.width), side.signed)
}

// Appends the assign of a net (6.1). What is no net has none.
fn add_assign(
    alloc: Global,
    names: &Names,
    sites: &Sites,
    name: &Ident,
    value: &Expr,
    assigns: &mut Items<TypedAssign>,
) -> Result<(), OutOfMemory>
    requires sound { is_sound names.now value.now ≡ true }
    ensures value { OnOk result (map (assign_in names.now) assigns.new ≡ map (assign_in names.now) assigns.old ++ net_assign names.now sites.now name.now value.now) }
    ensures form { OnOk result (are_formed_assigns names.now assigns.new ≡ are_formed_assigns names.now assigns.old) }
    ensures sited { OnOk result ((widths : List ℕ) → IsRead widths sites.now names.now value.now → are_sited_assigns assigns.new names.now widths ≡ are_sited_assigns assigns.old names.now widths) }
    ensures measured { OnOk result (are_measured names.now assigns.new ≡ are_measured names.now assigns.old) }
{
    let known = names.known(&name.name);
    match known.kind {
        Kind::Net(net) => {
            let width = known.width;
            let value = right_side(alloc, names, sites, width, value)?;
            assigns.push(TypedAssign { net, width, value })?;
            Ok(())
        }
        _ => Ok(()),
    }
}

// Appends the assign of a wire that is declared with a value (6.1.1).
fn add_value(
    alloc: Global,
    names: &Names,
    sites: &Sites,
    name: &Ident,
    value: &Option<Placed>,
    assigns: &mut Items<TypedAssign>,
) -> Result<(), OutOfMemory>
    requires sound { is_sound_value names.now value.now ≡ true }
    ensures value { OnOk result (map (assign_in names.now) assigns.new ≡ map (assign_in names.now) assigns.old ++ wire_assign names.now sites.now name.now value.now) }
    ensures form { OnOk result (are_formed_assigns names.now assigns.new ≡ are_formed_assigns names.now assigns.old) }
    ensures sited { OnOk result ((widths : List ℕ) → ValueRead widths sites.now names.now value.now → are_sited_assigns assigns.new names.now widths ≡ are_sited_assigns assigns.old names.now widths) }
    ensures measured { OnOk result (are_measured names.now assigns.new ≡ are_measured names.now assigns.old) }
{
    match value {
        None => Ok(()),
        Some(value) => add_assign(alloc, names, sites, name, &value.expr, assigns),
    }
}

/// Appends the assigns of wires that are declared with values, in text order (6.1.1).
pub(crate) fn add_wires(
    alloc: Global,
    names: &Names,
    sites: &Sites,
    wires: &[Declared],
    assigns: &mut Items<TypedAssign>,
) -> Result<(), OutOfMemory>
    requires sound { list_all (λ (d : Declared). is_sound_value names.now d.value) wires.now ≡ true }
    ensures value { OnOk result (map (assign_in names.now) assigns.new ≡ map (assign_in names.now) assigns.old ++ flat_map (λ (d : Declared). wire_assign names.now sites.now d.name d.value) wires.now) }
    ensures form { OnOk result (are_formed_assigns names.now assigns.new ≡ are_formed_assigns names.now assigns.old) }
    ensures sited { OnOk result ((widths : List ℕ) → All (λ (d : Declared). ValueRead widths sites.now names.now d.value) wires.now → are_sited_assigns assigns.new names.now widths ≡ are_sited_assigns assigns.old names.now widths) }
    ensures measured { OnOk result (are_measured names.now assigns.new ≡ are_measured names.now assigns.old) }
{
    for wire in wires {
        add_value(alloc, names, sites, &wire.name, &wire.value, assigns)?;
    }
    Ok(())
}

/// Appends the assigns of nets in text order (6.1.2).
pub(crate) fn add_assigns(
    alloc: Global,
    names: &Names,
    sites: &Sites,
    settings: &[Setting],
    assigns: &mut Items<TypedAssign>,
) -> Result<(), OutOfMemory>
    requires sound { list_all (λ (s : Setting). is_sound names.now s.value.expr) settings.now ≡ true }
    ensures value { OnOk result (map (assign_in names.now) assigns.new ≡ map (assign_in names.now) assigns.old ++ flat_map (λ (s : Setting). net_assign names.now sites.now s.name s.value.expr) settings.now) }
    ensures form { OnOk result (are_formed_assigns names.now assigns.new ≡ are_formed_assigns names.now assigns.old) }
    ensures sited { OnOk result ((widths : List ℕ) → All (λ (s : Setting). IsRead widths sites.now names.now s.value.expr) settings.now → are_sited_assigns assigns.new names.now widths ≡ are_sited_assigns assigns.old names.now widths) }
    ensures measured { OnOk result (are_measured names.now assigns.new ≡ are_measured names.now assigns.old) }
{
    for setting in settings {
        add_assign(
            alloc,
            names,
            sites,
            &setting.name,
            &setting.value.expr,
            assigns,
        )?;
    }
    Ok(())
}
