ghost use Rattle.std.specs.Prelude.{◌≡◌, IfOk, OnOk, true, map, flat_map};
ghost use Rattle.std.specs.List.{list_all};
ghost use Rattle.v_meaning.specs.Sites.{item_sites, module_sites, value_sites};
ghost use Rattle.v_typing.specs.Sound.{are_sound_items, is_sound_item, is_sound_value};
ghost use Rattle.v_sites.specs.Found.{site_in, are_words};
ghost use Rattle.v_sites.specs.Adding.{Adds, net_sites, is_sound_net, setting_sites, is_sound_setting};

use crate::exprs::add_expr;
use crate::stmts::add_stmt;
use lz_base::{Items, OutOfMemory};
use std::alloc::Global;
use v_core::TypedSite;
use v_names::Names;
use v_syntax::{Declared, Item, Module, Placed, Setting};

// Appends the sites of the value that a net is assigned where it is declared, if it is.
fn add_value(
    alloc: Global,
    names: &Names,
    value: &Option<Placed>,
    found: &mut Items<TypedSite>,
) -> Result<(), OutOfMemory>
    ensures { OnOk result (Adds (is_sound_value names.now value.now) found.old found.new (value_sites names.now value.now)) }
{
    match value {
        None => Ok(()),
        Some(value) => add_expr(alloc, names, &value.expr, found),
    }
}

// Appends the sites of what nets are assigned where they are declared.
fn add_nets(
    alloc: Global,
    names: &Names,
    nets: &[Declared],
    found: &mut Items<TypedSite>,
) -> Result<(), OutOfMemory>
    ensures { OnOk result (Adds (list_all (is_sound_net names.now) nets.now) found.old found.new (flat_map (net_sites names.now) nets.now)) }
{
    for net in nets {
        add_value(alloc, names, &net.value, found)?;
    }
    Ok(())
}

// Appends the sites of the assignments of nets.
fn add_settings(
    alloc: Global,
    names: &Names,
    settings: &[Setting],
    found: &mut Items<TypedSite>,
) -> Result<(), OutOfMemory>
    ensures { OnOk result (Adds (list_all (is_sound_setting names.now) settings.now) found.old found.new (flat_map (setting_sites names.now) settings.now)) }
{
    for setting in settings {
        add_expr(alloc, names, &setting.value.expr, found)?;
    }
    Ok(())
}

// Appends the sites of an item.
fn add_item(
    alloc: Global,
    names: &Names,
    item: &Item,
    found: &mut Items<TypedSite>,
) -> Result<(), OutOfMemory>
    ensures { OnOk result (Adds (is_sound_item names.now item.now) found.old found.new (item_sites names.now item.now)) }
{
    match item {
        Item::Wires { nets, .. } => add_nets(alloc, names, nets.as_slice(), found),
        Item::Assigns(settings) => add_settings(alloc, names, settings.as_slice(), found),
        Item::Always { body, .. } => add_stmt(alloc, names, body, found),
        _ => Ok(()),
    }
}

/// The sites of a module over its declared names, in text order: its numbers with x bits, and its selects whose index is no
/// constant expression in range; the place of a site is its first byte, and it has 1 to 128 bits. Constant expressions and the targets of assignments
/// are none. The module can be typed, as each one can that keeps the rules of declarations and expressions.
/// `OutOfMemory` is the only other answer. The work is linear in the module, but for the look-ups of names.
pub fn sites(alloc: Global, names: &Names, module: &Module) -> Result<Items<TypedSite>, OutOfMemory>
    requires sound { are_sound_items names.now «module».now.items ≡ true }
    ensures sites { IfOk result (λ found. map site_in found ≡ module_sites names.now «module».now.items) }
    ensures words { IfOk result (λ found. are_words found ≡ true) }
{
    let mut found = Items::new(alloc);
    for item in module.items.as_slice() {
        add_item(alloc, names, item, &mut found)?;
    }
    Ok(found)
}
