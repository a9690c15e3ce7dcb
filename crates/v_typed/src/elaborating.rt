ghost use Rattle.std.specs.Prelude.{◌≡◌, None, Some, All, IfOk, true, map};
ghost use Rattle.std.specs.List.{list_all};
ghost use Rattle.lz_base.specs.Answers.{IfFault};
ghost use Rattle.v_syntax.specs.declared.module.Module.{Module};
ghost use Rattle.v_meaning.specs.Broken.{places_of, first_fault, typing_rules};
ghost use Rattle.v_meaning.specs.Declarations.{names_of};
ghost use Rattle.v_meaning.specs.Sites.{module_sites};
ghost use Rattle.v_meaning.specs.Modules.{design_of};
ghost use Rattle.v_core.specs.Cores.{design_in};
ghost use Rattle.v_core.specs.Formed.{is_width};
ghost use Rattle.v_core.specs.FormedCores.{is_formed_core};
ghost use Rattle.v_core.specs.SitedCores.{is_sited_core};
ghost use Rattle.v_names.specs.Words.{AreWords};
ghost use Rattle.v_places.specs.Openings.{bits_read, module_openings};
ghost use Rattle.v_typing.specs.Sound.{are_sound_items};
ghost use Rattle.v_sites.specs.Found.{site_in};
ghost use Rattle.v_typed.specs.Forms.{are_measured};

use crate::copying::{copy_of, site_places};
use crate::parts::parts_of;
use crate::ports::outputs_of;
use lz_base::{OutOfMemory, Stop};
use std::alloc::Global;
use v_core::Core;
use v_elaborate::declared_names;
use v_names::Names;
use v_sites::sites;
use v_syntax::Module;

/// The items of a module that keeps the rules of declarations and expressions are sound (IEEE Std 1364-2005, 5.1.14 and 5.2.1).
pub fn kept_is_sound()
    ensures { (m : Module) → first_fault (places_of m) typing_rules ≡ None → are_sound_items (names_of m) m.items ≡ true }
{}

/// The typed form of a module that keeps the rules of declarations and expressions (E4 to E13), over its declared names; it
/// does in each cycle what the module does (IEEE Std 1364-2005, 4, 5, 6, 9 and 12), and each expression in it has 1 to 128
/// bits, and its operands as many as its operators take. Each name and each site has 1 to 128 bits too, and each assign as many as
/// its net. Where as many bits are read at the module's numbers and selects as are open there, no site has more bits than
/// what is selected. `OutOfMemory` is the only other answer; it also comes where there are 2^32 names or sites. The work is
/// n log n in the module.
pub fn typed(alloc: Global, names: &Names, module: &Module) -> Result<Core, OutOfMemory>
    requires declared { names.now ≡ names_of «module».now }
    requires kept { first_fault (places_of «module».now) typing_rules ≡ None }
    ensures design { IfOk result (λ core. design_in core ≡ design_of «module».now) }
    ensures names { IfOk result (λ core. core.names ≡ names_of «module».now) }
    ensures sites { IfOk result (λ core. map site_in core.sites ≡ module_sites names.now «module».now.items) }
    ensures form { IfOk result (λ core. is_formed_core core ≡ true) }
    ensures words { IfOk result (λ core. AreWords core.names) }
    ensures measured { IfOk result (λ core. are_measured core.names core.assigns ≡ true) }
    ensures places { IfOk result (λ core. list_all is_width (design_in core).sites ≡ true) }
    ensures sited { IfOk result (λ core. All (λ s. bits_read (module_sites names.now «module».now.items) s.at ≡ s.width) (module_openings names.now «module».now.items) → is_sited_core core ≡ true) }
{
    let found = sites(alloc, names, module)?;
    let places = site_places(alloc, found.as_slice())?;
    let parts = parts_of(alloc, names, &places, module.items.as_slice())?;
    let outputs = outputs_of(alloc, names, module.ports.as_slice())?;
    let name = module.name.name.clone()?;
    let entries = copy_of(alloc, names)?;
    Ok(Core {
        name,
        names: entries,
        sites: found,
        outputs,
        assigns: parts.assigns,
        processes: parts.processes,
    })
}

/// The typed form of a module, where it keeps the rules of declarations and expressions (E4 to E13); it does in each cycle
/// what the module does (IEEE Std 1364-2005, 4, 5, 6, 9 and 12). Its names are the declared names in text order, and its
/// sites, assigns and processes stand in text order too; it keeps to its widths and sites as that of `typed` does. Else the
/// answer is the first of these rules that is broken, at its least place, which is a byte of the file. `OutOfMemory` is the
/// only other answer; it also comes where there are 2^32 names or sites. The work is n log n in the module.
pub fn elaborate(alloc: Global, module: &Module) -> Result<Core, Stop>
    ensures refused { IfFault result (λ fault. first_fault (places_of «module».now) typing_rules ≡ Some fault) }
    ensures accepted { IfOk result (λ core. (first_fault (places_of «module».now) typing_rules ≡ None) × (design_in core ≡ design_of «module».now)) }
    ensures names { IfOk result (λ core. core.names ≡ names_of «module».now) }
    ensures sites { IfOk result (λ core. map site_in core.sites ≡ module_sites (names_of «module».now) «module».now.items) }
    ensures form { IfOk result (λ core. is_formed_core core ≡ true) }
    ensures words { IfOk result (λ core. AreWords core.names) }
    ensures measured { IfOk result (λ core. are_measured core.names core.assigns ≡ true) }
    ensures places { IfOk result (λ core. list_all is_width (design_in core).sites ≡ true) }
    ensures sited { IfOk result (λ core. All (λ s. bits_read (module_sites (names_of «module».now) «module».now.items) s.at ≡ s.width) (module_openings (names_of «module».now) «module».now.items) → is_sited_core core ≡ true) }
{
    let names = declared_names(alloc, module)?;
    Ok(typed(alloc, &names, module)?)
}
