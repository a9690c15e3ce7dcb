ghost use Rattle.std.specs.Prelude.{◌≡◌, ◌∷◌, [], OnOk, IfOk, fold};
ghost use Rattle.lz_base.specs.Answers.{IfFault};
ghost use Rattle.lz_base.specs.declared.rule.Rule.TheVariants as r;
ghost use Rattle.v_meaning.specs.Declarations.{behind_parameters, behind_ports, behind_item, names_of};
ghost use Rattle.v_meaning.specs.ConstantRules.{parameter_faults, port_faults, item_faults, improper};
ghost use Rattle.v_declare.specs.Walks.{Judges, along};

use crate::counts::Declared;
use crate::groups::{declare_item, declare_parameters, declare_ports};
use crate::roles::NameRoles;
use lz_base::Stop;
use std::alloc::Global;
use v_names::Names;
use v_syntax::{Item, Module, ParameterGroup, PortGroup};

// Declares the parameters of the header.
fn declare_all_parameters(
    alloc: Global,
    names: &mut Declared,
    groups: &[ParameterGroup],
) -> Result<(), Stop>
    ensures judged { Judges (along parameter_faults behind_parameters names.old groups.now) result }
    ensures behind { OnOk result (names.new ≡ fold behind_parameters names.old groups.now) }
{
    for group in groups {
        declare_parameters(alloc, names, group)?;
    }
    Ok(())
}

// Declares the ports.
fn declare_all_ports<'a>(
    alloc: Global,
    roles: &NameRoles<'a>,
    names: &mut Declared,
    groups: &'a [PortGroup],
) -> Result<(), Stop>
    ensures judged { Judges (along port_faults (behind_ports roles.now) names.old groups.now) result }
    ensures behind { OnOk result (names.new ≡ fold (behind_ports roles.now) names.old groups.now) }
{
    for group in groups {
        declare_ports(alloc, roles, names, group)?;
    }
    Ok(())
}

// Judges the items and declares their names.
fn declare_items<'a>(
    alloc: Global,
    roles: &NameRoles<'a>,
    names: &mut Declared,
    items: &'a [Item],
) -> Result<(), Stop>
    ensures judged { Judges (along item_faults (behind_item roles.now) names.old items.now) result }
    ensures behind { OnOk result (names.new ≡ fold (behind_item roles.now) names.old items.now) }
{
    for item in items {
        declare_item(alloc, roles, names, item)?;
    }
    Ok(())
}

/// The declared names of a module in text order (IEEE Std 1364-2005, 4 and 12.3), where each of its values, bounds,
/// counts and ranges is proper. Where one is not, the answer is E7 at the first in text order: at the first byte of an
/// expression that is no constant or has no proper value, or at the bracket of a range that is too wide or not in order.
/// `OutOfMemory` is the only other answer; it also comes where there are 2^32 names. The work is n log n in the module.
pub fn declare(alloc: Global, module: &Module) -> Result<Names, Stop>
    ensures refused { IfFault result (λ fault. (fault.rule ≡ r.E7) × (improper «module».now ≡ fault.at ∷ [])) }
    ensures accepted { IfOk result (λ names. (improper «module».now ≡ []) × (names ≡ names_of «module».now)) }
{
    let items = module.items.as_slice();
    let roles = NameRoles::new(alloc, items)?;
    let mut names = Declared::new(alloc);
    declare_all_parameters(alloc, &mut names, module.parameters.as_slice())?;
    declare_all_ports(alloc, &roles, &mut names, module.ports.as_slice())?;
    declare_items(alloc, &roles, &mut names, items)?;
    Ok(names.into_names())
}
