ghost use Rattle.std.specs.Prelude.{◌≡◌, ◌++◌, ℕ, List, All, true, not, map, flat_map, OnOk, IfOk};
ghost use Rattle.v_syntax.specs.declared.module.Item.TheVariants as i;
ghost use Rattle.v_meaning.specs.Modules.{item_assigns, item_clocked, item_combinational};
ghost use Rattle.v_core.specs.Cores.{assign_in, acts_where};
ghost use Rattle.v_typing.specs.Sound.{is_sound_stmt, is_sound_item, are_sound_items};
ghost use Rattle.v_typed.specs.Forms.{are_formed_assigns, are_formed_processes, are_measured};
ghost use Rattle.v_typed.specs.Processes as edges;
ghost use Rattle.v_typed.specs.Sited.{ItemRead, are_sited_assigns, are_sited_processes};
ghost use Rattle.v_statements.specs.Sited.{StmtRead};

use crate::assigns::{add_assigns, add_wires};
use lz_base::{Items, OutOfMemory};
use std::alloc::Global;
use v_core::{TypedAssign, TypedProcess};
use v_names::{Names, Sites};
use v_statements::statement;
use v_syntax::{Event, Item, Stmt};

/// The assigns and the processes of a module, each in text order.
#[derive(Drop)]
pub(crate) struct Parts {
    pub(crate) assigns: Items<TypedAssign>,
    pub(crate) processes: Items<TypedProcess>,
}

// Whether a process with this event waits for the edge of the clock (IEEE Std 1364-2005, 9.7.2).
fn waits_for_edge(event: &Event) -> bool
    ensures { result ≡ edges.waits_for_edge event.now }
{
    match event {
        Event::Posedge(_) => true,
        Event::Any => false,
    }
}

// Appends a process (9.9.2).
fn add_process(
    alloc: Global,
    names: &Names,
    sites: &Sites,
    event: &Event,
    body: &Stmt,
    processes: &mut Items<TypedProcess>,
) -> Result<(), OutOfMemory>
    requires sound { is_sound_stmt names.now body.now ≡ true }
    ensures combinational { OnOk result (acts_where (λ p. not p.clocked) names.now processes.new ≡ acts_where (λ p. not p.clocked) names.now processes.old ++ item_combinational names.now sites.now (i.Always event.now body.now)) }
    ensures clocked { OnOk result (acts_where (λ p. p.clocked) names.now processes.new ≡ acts_where (λ p. p.clocked) names.now processes.old ++ item_clocked names.now sites.now (i.Always event.now body.now)) }
    ensures form { OnOk result (are_formed_processes names.now processes.new ≡ are_formed_processes names.now processes.old) }
    ensures sited { OnOk result ((widths : List ℕ) → StmtRead widths sites.now names.now body.now → are_sited_processes processes.new names.now widths ≡ are_sited_processes processes.old names.now widths) }
{
    let clocked = waits_for_edge(event);
    let body = statement(alloc, names, sites, body)?;
    processes.push(TypedProcess { clocked, body })?;
    Ok(())
}

// Appends the assigns and the process of an item.
fn add_item(
    alloc: Global,
    names: &Names,
    sites: &Sites,
    item: &Item,
    parts: &mut Parts,
) -> Result<(), OutOfMemory>
    requires sound { is_sound_item names.now item.now ≡ true }
    ensures assigns { OnOk result (map (assign_in names.now) parts.new.assigns ≡ map (assign_in names.now) parts.old.assigns ++ item_assigns names.now sites.now item.now) }
    ensures combinational { OnOk result (acts_where (λ p. not p.clocked) names.now parts.new.processes ≡ acts_where (λ p. not p.clocked) names.now parts.old.processes ++ item_combinational names.now sites.now item.now) }
    ensures clocked { OnOk result (acts_where (λ p. p.clocked) names.now parts.new.processes ≡ acts_where (λ p. p.clocked) names.now parts.old.processes ++ item_clocked names.now sites.now item.now) }
    ensures formed_assigns { OnOk result (are_formed_assigns names.now parts.new.assigns ≡ are_formed_assigns names.now parts.old.assigns) }
    ensures measured { OnOk result (are_measured names.now parts.new.assigns ≡ are_measured names.now parts.old.assigns) }
    ensures formed_processes { OnOk result (are_formed_processes names.now parts.new.processes ≡ are_formed_processes names.now parts.old.processes) }
    ensures sited_assigns { OnOk result ((widths : List ℕ) → ItemRead widths sites.now names.now item.now → are_sited_assigns parts.new.assigns names.now widths ≡ are_sited_assigns parts.old.assigns names.now widths) }
    ensures sited_processes { OnOk result ((widths : List ℕ) → ItemRead widths sites.now names.now item.now → are_sited_processes parts.new.processes names.now widths ≡ are_sited_processes parts.old.processes names.now widths) }
{
    match item {
        Item::Wires { nets, .. } => {
            add_wires(alloc, names, sites, nets.as_slice(), &mut parts.assigns)
        }
        Item::Assigns(settings) => {
            add_assigns(alloc, names, sites, settings.as_slice(), &mut parts.assigns)
        }
        Item::Always { event, body } => {
            add_process(alloc, names, sites, event, body, &mut parts.processes)
        }
        Item::Parameters(_) | Item::LocalParameters(_) | Item::Regs { .. } => Ok(()),
    }
}

/// The assigns and the processes of the items of a module (6.1 and 9.9).
pub(crate) fn parts_of(
    alloc: Global,
    names: &Names,
    sites: &Sites,
    items: &[Item],
) -> Result<Parts, OutOfMemory>
    requires sound { are_sound_items names.now items.now ≡ true }
    ensures assigns { IfOk result (λ parts. map (assign_in names.now) parts.assigns ≡ flat_map (item_assigns names.now sites.now) items.now) }
    ensures combinational { IfOk result (λ parts. acts_where (λ p. not p.clocked) names.now parts.processes ≡ flat_map (item_combinational names.now sites.now) items.now) }
    ensures clocked { IfOk result (λ parts. acts_where (λ p. p.clocked) names.now parts.processes ≡ flat_map (item_clocked names.now sites.now) items.now) }
    ensures formed_assigns { IfOk result (λ parts. are_formed_assigns names.now parts.assigns ≡ true) }
    ensures measured { IfOk result (λ parts. are_measured names.now parts.assigns ≡ true) }
    ensures formed_processes { IfOk result (λ parts. are_formed_processes names.now parts.processes ≡ true) }
    ensures sited_assigns { IfOk result (λ parts. (widths : List ℕ) → All (ItemRead widths sites.now names.now) items.now → are_sited_assigns parts.assigns names.now widths ≡ true) }
    ensures sited_processes { IfOk result (λ parts. (widths : List ℕ) → All (ItemRead widths sites.now names.now) items.now → are_sited_processes parts.processes names.now widths ≡ true) }
{
    let mut parts = Parts {
        assigns: Items::new(alloc),
        processes: Items::new(alloc),
    };
    for item in items {
        add_item(alloc, names, sites, item, &mut parts)?;
    }
    Ok(parts)
}
