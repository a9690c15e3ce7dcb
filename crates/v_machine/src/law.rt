ghost use Rattle.std.specs.Prelude.{◌≡◌, ℕ, List, [], None, true};
ghost use Rattle.std.specs.List.{list_all};
ghost use Rattle.v_syntax.specs.declared.module.Module.{Module};
ghost use Rattle.v_meaning.specs.Broken.{places_of, first_fault, process_rules, typing_rules};
ghost use Rattle.v_meaning.specs.Declarations.{names_of};
ghost use Rattle.v_meaning.specs.Modules.{design_of};
ghost use Rattle.v_meaning.specs.ProcessRules.{combinational_of};
ghost use Rattle.v_meaning.specs.Uses.{uses_of};
ghost use Rattle.v_core.specs.SitedCores.{is_sited_core};
ghost use Rattle.v_core.specs.declared.modules.Core.{Core};
ghost use Rattle.v_core.specs.Cores.{design_in};
ghost use Rattle.v_core.specs.Formed.{is_width};
ghost use Rattle.v_core.specs.FormedCores.{is_formed_core};
ghost use Rattle.v_names.specs.Words.{AreWords};
ghost use Rattle.v_values.specs.Moments.{fit};
ghost use Rattle.v_order.specs.Numbered.{AreNumbered};
ghost use Rattle.v_order.specs.Settling.{Settles};
ghost use Rattle.v_typed.specs.Forms.{are_measured};
ghost use Rattle.v_machine.specs.Runnable.{CanRun, KeepsWords, keeps_parameter, shape_of};

use v_order::{first_values_fit, names_are_numbered, processes_are_apart, processes_are_steady};

/// Law: where the names of a module are numbered from 0, kind by kind, and parameters keep to their widths, each name has as
/// many bits as the word of its number.
pub fn numbered_names_fit()
    ensures { (c : Core) → AreNumbered [] c.names → list_all keeps_parameter c.names ≡ true → fit (shape_of c) c.names ≡ true }
{}

/// Law: a machine can be made of the typed form of a module that breaks no rule and whose processes are all clocked, where it
/// has the module's names and design and keeps to words of 1 to 128 bits, and the module's nets settle in this order.
pub fn accepted_modules_run()
    ensures { (m : Module) (c : Core) (order : List ℕ) → first_fault (places_of m) typing_rules ≡ None → first_fault (places_of m) process_rules ≡ None → combinational_of (uses_of (names_of m) m) ≡ [] → c.names ≡ names_of m → design_in c ≡ design_of m → Settles (design_of m) order → KeepsWords c → CanRun c order }
{
    processes_are_steady();
    processes_are_apart();
    names_are_numbered();
}

/// Law: the typed form of a module keeps to words of 1 to 128 bits, where it has the module's names, these are words, its
/// values and statements keep to their widths and its sites have the bits that are read there, each site has 1 to 128 bits,
/// and each assign as many as its net.
pub fn typed_modules_keep_words()
    ensures { (m : Module) (c : Core) → c.names ≡ names_of m → is_formed_core c ≡ true → is_sited_core c ≡ true → AreWords c.names → are_measured c.names c.assigns ≡ true → list_all is_width (design_in c).sites ≡ true → KeepsWords c }
{
    names_are_numbered();
    first_values_fit();
}
