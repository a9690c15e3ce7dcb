ghost use Rattle.std.specs.Prelude.{◌≡◌, None, Some, IfOk};
ghost use Rattle.lz_base.specs.Answers.{IfFault};
ghost use Rattle.v_meaning.specs.Broken.{places_of, first_fault, typing_rules};
ghost use Rattle.v_meaning.specs.Declarations.{names_of};

use lz_base::Stop;
use std::alloc::Global;
use v_declare::declare;
use v_names::Names;
use v_scope::scope;
use v_syntax::Module;
use v_usage::usage;

/// The declared names of a module in text order (IEEE Std 1364-2005, 4 and 12.3), where it keeps the rules of declarations
/// and expressions (E4 to E13). The answer is the first of these rules that is broken, at its least place, which is a byte
/// of the file, or Ok where none is. `OutOfMemory` is the only other answer; it also comes where there are 2^32 names.
pub fn declared_names(alloc: Global, module: &Module) -> Result<Names, Stop>
    ensures refused { IfFault result (λ fault. first_fault (places_of «module».now) typing_rules ≡ Some fault) }
    ensures accepted { IfOk result (λ names. (first_fault (places_of «module».now) typing_rules ≡ None) × (names ≡ names_of «module».now)) }
{
    scope(alloc, module)?;
    let names = declare(alloc, module)?;
    usage(alloc, &names, module)?;
    Ok(names)
}
