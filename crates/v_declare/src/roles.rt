ghost use Rattle.std.specs.Prelude.{◌≡◌, ◌∷◌, [], IfOk, OnOk, flat_map};
ghost use Rattle.std.specs.Option.{option_copied};
ghost use Rattle.lz_base.specs.Names.{is_among};
ghost use Rattle.v_syntax.specs.declared.module.Item.{Item};
ghost use Rattle.v_meaning.specs.Declarations.{first_event, combinational_names, roles_of, is_event, target_names};
ghost use Rattle.v_declare.specs.Roles.{Meets};
ghost use Rattle.v_declare.specs.Targets.{written_names};

use lz_base::{Name, OutOfMemory, is_met, meet, no_names};
use std::alloc::Global;
use std::collections::BTreeSet;
use std::marker::Model;
use v_syntax::{Arm, Event, Ident, Item, Stmt, Target};

// ---- the names that statements write

// Meets a name.
fn meet_name<'a>(ident: &'a Ident, met: &mut BTreeSet<&'a [u8]>) -> Result<(), OutOfMemory>
    ensures { OnOk result (Meets met.old met.new (ident.now.name ∷ [])) }
{
    meet(met, ident.name.bytes())?;
    Ok(())
}

// Meets the names that a target writes, from left to right.
#[cycle(targets)]
fn meet_target<'a>(target: &'a Target, met: &mut BTreeSet<&'a [u8]>) -> Result<(), OutOfMemory>
    ensures { OnOk result (Meets met.old met.new (written_names target.now)) }
{
    match target {
        Target::Name(name) => meet_name(name, met),
        Target::Select { name, .. } => meet_name(name, met),
        Target::Part { name, .. } => meet_name(name, met),
        Target::Concat { parts, .. } => meet_targets(parts.as_slice(), met),
    }
}

#[cycle(targets)]
fn meet_targets<'a>(targets: &'a [Target], met: &mut BTreeSet<&'a [u8]>) -> Result<(), OutOfMemory>
    ensures { OnOk result (Meets met.old met.new (flat_map written_names targets.now)) }
{
    for target in targets {
        meet_target(target, met)?;
    }
    Ok(())
}

// Meets the names that a statement writes, in text order.
#[cycle(statements)]
fn meet_stmt<'a>(statement: &'a Stmt, met: &mut BTreeSet<&'a [u8]>) -> Result<(), OutOfMemory>
    ensures { OnOk result (Meets met.old met.new (target_names statement.now)) }
{
    match statement {
        Stmt::Null => Ok(()),
        Stmt::Block(body) => meet_stmts(body.as_slice(), met),
        Stmt::If(_, then) => meet_stmt(then.get(), met),
        Stmt::IfElse(_, then, otherwise) => {
            meet_stmt(then.get(), met)?;
            meet_stmt(otherwise.get(), met)
        }
        Stmt::Case { arms, .. } => meet_arms(arms.as_slice(), met),
        Stmt::Assign { target, .. } => meet_target(target.get(), met),
    }
}

#[cycle(statements)]
fn meet_stmts<'a>(statements: &'a [Stmt], met: &mut BTreeSet<&'a [u8]>) -> Result<(), OutOfMemory>
    ensures { OnOk result (Meets met.old met.new (flat_map target_names statements.now)) }
{
    for statement in statements {
        meet_stmt(statement, met)?;
    }
    Ok(())
}

#[cycle(statements)]
fn meet_arms<'a>(arms: &'a [Arm], met: &mut BTreeSet<&'a [u8]>) -> Result<(), OutOfMemory>
    ensures { OnOk result (Meets met.old met.new (flat_map (λ arm. target_names arm.body) arms.now)) }
{
    for arm in arms {
        meet_stmt(&arm.body, met)?;
    }
    Ok(())
}

// Meets the names that an item writes where it is a combinational process.
fn meet_item<'a>(item: &'a Item, met: &mut BTreeSet<&'a [u8]>) -> Result<(), OutOfMemory>
    ensures { OnOk result (Meets met.old met.new (combinational_names (item.now ∷ []))) }
{
    match item {
        Item::Always {
            event: Event::Any,
            body,
        } => meet_stmt(body, met),
        _ => Ok(()),
    }
}

// Meets the names that combinational processes write.
fn meet_items<'a>(items: &'a [Item], met: &mut BTreeSet<&'a [u8]>) -> Result<(), OutOfMemory>
    ensures { OnOk result (Meets met.old met.new (combinational_names items.now)) }
{
    for item in items {
        meet_item(item, met)?;
    }
    Ok(())
}

// ---- the first event

// The name of the event of an item, where it has one.
fn event_of(item: &Item) -> Option<&Name>
    ensures { option_copied result ≡ first_event (item.now ∷ []) }
{
    match item {
        Item::Always {
            event: Event::Posedge(ident),
            ..
        } => Some(&ident.name),
        _ => None,
    }
}

// The name of the first event.
fn first_event(items: &[Item]) -> Option<&Name>
    ensures { option_copied result ≡ first_event items.now }
{
    for item in items {
        if let Some(name) = event_of(item) {
            return Some(name);
        }
    }
    None
}

// ---- roles

/// What the processes of a module make of its names: which one is the first event's, and which ones combinational
/// processes write.
#[derive(Drop)]
pub(crate) struct NameRoles<'a> {
    // The items of the module, by which contracts see the others.
    items: &'a [Item],
    event: Option<&'a Name>,
    combinational: BTreeSet<&'a [u8]>,
}

impl<'a> Model for NameRoles<'a> {
    ghost use Rattle.v_meaning.specs.Declarations.{Roles, roles_of};
    ghost use Rattle.v_declare.specs.Roles.{AreRoles};

    ghost Value = { Roles };

    ghost view = { λ r. roles_of r.items.now };

    ghost invariant = { λ r. AreRoles r.items.now r.event r.combinational };
}

impl<'a> NameRoles<'a> {
    /// The roles of the names of a module with these items. `OutOfMemory` is the only other answer.
    pub(crate) fn new(alloc: Global, items: &'a [Item]) -> Result<NameRoles<'a>, OutOfMemory>
        ensures { IfOk result (λ r. r ≡ roles_of items.now) }
    {
        let mut combinational = no_names(alloc);
        meet_items(items, &mut combinational)?;
        Ok(NameRoles {
            items,
            event: first_event(items),
            combinational,
        })
    }

    /// Whether this is the name in the first event. It takes no memory.
    pub(crate) fn is_event(&self, name: &Name) -> bool
        ensures { result ≡ is_event self.now.event name.now }
    {
        match self.event {
            Some(event) => event == name,
            None => false,
        }
    }

    /// Whether a combinational process writes this name. It takes no memory.
    pub(crate) fn is_combinational(&self, name: &'a Name) -> bool
        ensures { result ≡ is_among name.now self.now.combinational }
    {
        is_met(&self.combinational, name.bytes())
    }
}
