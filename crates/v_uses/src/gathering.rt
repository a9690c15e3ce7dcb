ghost use Rattle.std.specs.Prelude.{◌≡◌, [], ◌∷◌, List, IfOk, OnOk, map, flat_map};
ghost use Rattle.v_meaning.specs.declared.names.Entry.{Entry};
ghost use Rattle.v_meaning.specs.Uses.{reads_of, use_of, item_assign_uses, item_process_uses, uses_of};
ghost use Rattle.v_uses.specs.Seen.{seen_of, assign_seen, process_seen};
ghost use Rattle.v_uses.specs.Gathered.{assign_in, process_in, uses_in};
ghost use Rattle.v_uses.specs.Adding.{Adds, assigns_seen, processes_seen, setting_use, wire_uses};

use crate::accesses::{Accesses, no_accesses};
use crate::exprs::add_expr;
use crate::stmts::add_stmt;
use crate::{AssignUses, ProcessUses, Uses};
use lz_base::{Items, OutOfMemory};
use std::alloc::Global;
use v_syntax::{Declared, Event, Expr, Ident, Item, Module, Setting, Stmt};

// Appends an assign.
fn add_assign<'a>(
    alloc: Global,
    target: &'a Ident,
    value: &'a Expr,
    all: &mut Items<AssignUses<'a>>,
) -> Result<(), OutOfMemory>
    ensures { OnOk result (Adds assigns_seen all.old all.new (λ names. record { target = target.now; reads = reads_of names value.now } ∷ [])) }
{
    let mut found = no_accesses(alloc);
    add_expr(value, &mut found)?;
    let Accesses { reads, .. } = found;
    Ok(all.push(AssignUses { target, reads })?)
}

// Appends what a net is assigned where it is declared, if it is (6.1.1).
fn add_wire<'a>(
    alloc: Global,
    net: &'a Declared,
    all: &mut Items<AssignUses<'a>>,
) -> Result<(), OutOfMemory>
    ensures { OnOk result (Adds assigns_seen all.old all.new (λ names. wire_uses names net.now)) }
{
    match &net.value {
        None => Ok(()),
        Some(value) => add_assign(alloc, &net.name, &value.expr, all),
    }
}

// Appends what nets are assigned where they are declared.
fn add_wires<'a>(
    alloc: Global,
    nets: &'a [Declared],
    all: &mut Items<AssignUses<'a>>,
) -> Result<(), OutOfMemory>
    ensures { OnOk result (Adds assigns_seen all.old all.new (λ names. flat_map (wire_uses names) nets.now)) }
{
    for net in nets {
        add_wire(alloc, net, all)?;
    }
    Ok(())
}

// Appends the assigns of a list.
fn add_settings<'a>(
    alloc: Global,
    settings: &'a [Setting],
    all: &mut Items<AssignUses<'a>>,
) -> Result<(), OutOfMemory>
    ensures { OnOk result (Adds assigns_seen all.old all.new (λ names. flat_map (setting_use names) settings.now)) }
{
    for setting in settings {
        add_assign(alloc, &setting.name, &setting.value.expr, all)?;
    }
    Ok(())
}

// Appends the assigns of an item.
fn add_item_assigns<'a>(
    alloc: Global,
    item: &'a Item,
    all: &mut Items<AssignUses<'a>>,
) -> Result<(), OutOfMemory>
    ensures { OnOk result (Adds assigns_seen all.old all.new (λ names. item_assign_uses names item.now)) }
{
    match item {
        Item::Wires { nets, .. } => add_wires(alloc, nets.as_slice(), all),
        Item::Assigns(settings) => add_settings(alloc, settings.as_slice(), all),
        _ => Ok(()),
    }
}

// The assigns of these items.
fn assigns<'a>(alloc: Global, items: &'a [Item]) -> Result<Items<AssignUses<'a>>, OutOfMemory>
    ensures { IfOk result (λ all. (names : List Entry) → map assign_in all ≡ map assign_seen (flat_map (item_assign_uses names) items.now)) }
{
    let mut all = Items::new(alloc);
    for item in items {
        add_item_assigns(alloc, item, &mut all)?;
    }
    Ok(all)
}

// Appends a process.
fn add_process<'a>(
    alloc: Global,
    event: &'a Event,
    body: &'a Stmt,
    all: &mut Items<ProcessUses<'a>>,
) -> Result<(), OutOfMemory>
    ensures { OnOk result (Adds processes_seen all.old all.new (λ names. record { event = event.now; body = use_of names body.now } ∷ [])) }
{
    let mut found = no_accesses(alloc);
    add_stmt(body, &mut found)?;
    let Accesses { reads, writes } = found;
    Ok(all.push(ProcessUses {
        event,
        reads,
        writes,
    })?)
}

// Appends the process that an item is, if it is one.
fn add_item_process<'a>(
    alloc: Global,
    item: &'a Item,
    all: &mut Items<ProcessUses<'a>>,
) -> Result<(), OutOfMemory>
    ensures { OnOk result (Adds processes_seen all.old all.new (λ names. item_process_uses names item.now)) }
{
    match item {
        Item::Always { event, body } => add_process(alloc, event, body, all),
        _ => Ok(()),
    }
}

// The processes among these items.
fn processes<'a>(alloc: Global, items: &'a [Item]) -> Result<Items<ProcessUses<'a>>, OutOfMemory>
    ensures { IfOk result (λ all. (names : List Entry) → map process_in all ≡ map process_seen (flat_map (item_process_uses names) items.now)) }
{
    let mut all = Items::new(alloc);
    for item in items {
        add_item_process(alloc, item, &mut all)?;
    }
    Ok(all)
}

/// The names that each assign and each process of a module reads and writes, at their places. Whatever its declared names
/// are taken to be, these are its reads and writes, in this order: an assignment reads its right side and then the indices
/// of its target before it writes (IEEE Std 1364-2005, 9.2), and a case its expression and all items before the
/// bodies of its arms (9.5). A bound or count reads no name. `OutOfMemory` is the only other answer. The work is linear in
/// the module.
pub fn uses(alloc: Global, module: &Module) -> Result<Uses<'_>, OutOfMemory>
    ensures { IfOk result (λ u. (names : List Entry) → uses_in u ≡ seen_of (uses_of names «module».now)) }
{
    let items = module.items.as_slice();
    let assigns = assigns(alloc, items)?;
    let processes = processes(alloc, items)?;
    Ok(Uses { assigns, processes })
}
