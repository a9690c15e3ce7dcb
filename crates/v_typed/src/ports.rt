ghost use Rattle.std.specs.Prelude.{◌≡◌, ◌++◌, ◌∷◌, [], map, OnOk, IfOk};
ghost use Rattle.v_syntax.specs.declared.module.Declared.{Declared};
ghost use Rattle.v_meaning.specs.Names.{entry_of};
ghost use Rattle.v_meaning.specs.Modules.{output_names};
ghost use Rattle.v_core.specs.Values.{entry_at};

use lz_base::{Items, OutOfMemory};
use std::alloc::Global;
use v_names::Names;
use v_syntax::{Declared, PortGroup, PortKind};

// Appends the numbers of these ports.
fn add_numbers(
    names: &Names,
    ports: &[Declared],
    numbers: &mut Items<u32>,
) -> Result<(), OutOfMemory>
    ensures { OnOk result (map (entry_at names.now) numbers.new ≡ map (entry_at names.now) numbers.old ++ map (λ (d : Declared). entry_of names.now d.name.name) ports.now) }
{
    for port in ports {
        numbers.push(names.number_of(&port.name.name))?;
    }
    Ok(())
}

// Appends the numbers of the ports of a group, where they are outputs.
fn add_group(names: &Names, group: &PortGroup, numbers: &mut Items<u32>) -> Result<(), OutOfMemory>
    ensures { OnOk result (map (entry_at names.now) numbers.new ≡ map (entry_at names.now) numbers.old ++ map (entry_of names.now) (output_names (group.now ∷ []))) }
{
    match group.kind {
        PortKind::Input => Ok(()),
        PortKind::Output | PortKind::OutputReg => {
            add_numbers(names, group.ports.as_slice(), numbers)
        }
    }
}

/// The numbers of the outputs of a module in text order (IEEE Std 1364-2005, 12.3).
pub(crate) fn outputs_of(
    alloc: Global,
    names: &Names,
    groups: &[PortGroup],
) -> Result<Items<u32>, OutOfMemory>
    ensures { IfOk result (λ numbers. map (entry_at names.now) numbers ≡ map (entry_of names.now) (output_names groups.now)) }
{
    let mut numbers = Items::new(alloc);
    for group in groups {
        add_group(names, group, &mut numbers)?;
    }
    Ok(numbers)
}
