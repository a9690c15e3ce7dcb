ghost use Rattle.std.specs.Prelude.{◌≡◌, ◌++◌, ◌∷◌, [], IfOk, OnOk, map, flat_map};
ghost use Rattle.v_meaning.specs.Uses as m;
ghost use Rattle.v_meaning.specs.ProcessRules.{assign_reads, process_reads, event_names, writes_of_process};
ghost use Rattle.v_uses.specs.Seen.{seen_of};
ghost use Rattle.v_uses.specs.Gathered.{uses_in, written_in};
ghost use Rattle.v_rules.specs.Groups.{idents_in, blocking_in, names_of_event};

use lz_base::OutOfMemory;
use std::alloc::Global;
use v_syntax::{AssignKind, Event, Ident};
use v_uses::{AssignUses, Uses, Write};

// The targets of assigns.
pub(crate) fn assign_targets<'a>(
    alloc: Global,
    assigns: &[AssignUses<'a>],
) -> Result<Vec<&'a Ident>, OutOfMemory>
    ensures { IfOk result (λ idents. idents.items ≡ map (λ assign. assign.target) assigns.now) }
{
    Ok(assigns.iter().map(|assign| assign.target).collect(alloc)?)
}

// What the assigns read.
pub(crate) fn assign_reads<'a>(
    alloc: Global,
    uses: &Uses<'a>,
) -> Result<Vec<&'a Ident>, OutOfMemory>
    ensures { IfOk result (λ idents. (u : m.Uses) → uses_in uses.now ≡ seen_of u → idents_in idents.items ≡ assign_reads u) }
{
    let mut idents = Vec::new(alloc);
    for assign in uses.assigns.as_slice() {
        idents.extend_from_slice(assign.reads.as_slice())?;
    }
    Ok(idents)
}

// What the processes read.
pub(crate) fn process_reads<'a>(
    alloc: Global,
    uses: &Uses<'a>,
) -> Result<Vec<&'a Ident>, OutOfMemory>
    ensures { IfOk result (λ idents. (u : m.Uses) → uses_in uses.now ≡ seen_of u → idents_in idents.items ≡ process_reads u) }
{
    let mut idents = Vec::new(alloc);
    for process in uses.processes.as_slice() {
        idents.extend_from_slice(process.reads.as_slice())?;
    }
    Ok(idents)
}

// The writes of the processes, one behind another.
pub(crate) fn writes<'a>(alloc: Global, uses: &Uses<'a>) -> Result<Vec<Write<'a>>, OutOfMemory>
    ensures { IfOk result (λ writes. (u : m.Uses) → uses_in uses.now ≡ seen_of u → map written_in writes.items ≡ flat_map writes_of_process u.processes) }
{
    let mut writes = Vec::new(alloc);
    for process in uses.processes.as_slice() {
        writes.extend_from_slice(process.writes.as_slice())?;
    }
    Ok(writes)
}

// The targets of writes.
pub(crate) fn targets<'a>(
    alloc: Global,
    writes: &[Write<'a>],
) -> Result<Vec<&'a Ident>, OutOfMemory>
    ensures { IfOk result (λ idents. idents.items ≡ map (λ write. write.name) writes.now) }
{
    Ok(writes.iter().map(|write| write.name).collect(alloc)?)
}

// The target of a write is one more name, if the assignment is blocking.
fn add_blocking<'a>(idents: &mut Vec<&'a Ident>, write: &Write<'a>) -> Result<(), OutOfMemory>
    ensures { OnOk result (idents_in idents.new.items ≡ idents_in idents.old.items ++ blocking_in (written_in write.now ∷ [])) }
{
    match write.kind {
        AssignKind::Blocking => {
            idents.push(write.name)?;
            Ok(())
        }
        AssignKind::Nonblocking => Ok(()),
    }
}

// The targets of blocking assignments among writes.
pub(crate) fn blocking_targets<'a>(
    alloc: Global,
    writes: &[Write<'a>],
) -> Result<Vec<&'a Ident>, OutOfMemory>
    ensures { IfOk result (λ idents. idents_in idents.items ≡ blocking_in (map written_in writes.now)) }
{
    let mut idents = Vec::new(alloc);
    for write in writes {
        add_blocking(&mut idents, write)?;
    }
    Ok(idents)
}

// The name in an event is one more, if there is one.
fn add_event<'a>(idents: &mut Vec<&'a Ident>, event: &'a Event) -> Result<(), OutOfMemory>
    ensures { OnOk result (idents_in idents.new.items ≡ idents_in idents.old.items ++ names_of_event event.now) }
{
    match event {
        Event::Posedge(name) => {
            idents.push(name)?;
            Ok(())
        }
        Event::Any => Ok(()),
    }
}

// The names in the events of the processes.
pub(crate) fn event_names<'a>(alloc: Global, uses: &Uses<'a>) -> Result<Vec<&'a Ident>, OutOfMemory>
    ensures { IfOk result (λ idents. (u : m.Uses) → uses_in uses.now ≡ seen_of u → idents_in idents.items ≡ event_names u.processes) }
{
    let mut idents = Vec::new(alloc);
    for process in uses.processes.as_slice() {
        add_event(&mut idents, process.event)?;
    }
    Ok(idents)
}
