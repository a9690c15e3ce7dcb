ghost use Rattle.std.specs.Prelude.{◌≡◌, [], ◌∷◌, OnOk, ℕ};
ghost use Rattle.v_meaning.specs.Uses as access;
ghost use Rattle.v_uses.specs.Adding.{Adds, accessed};

use crate::Write;
use lz_base::{Items, OutOfMemory};
use std::alloc::Global;
use v_syntax::{AssignKind, Ident};

// The names that are read, and the targets, each in the order in which they are met.
#[derive(Drop)]
pub(crate) struct Accesses<'a> {
    pub(crate) reads: Items<&'a Ident>,
    pub(crate) writes: Items<Write<'a>>,
}

// No accesses.
pub(crate) fn no_accesses<'a>(alloc: Global) -> Accesses<'a>
    ensures { (result.reads ≡ []) × (result.writes ≡ []) }
{
    Accesses {
        reads: Items::new(alloc),
        writes: Items::new(alloc),
    }
}

// Appends a name that is read, whichever its bits.
pub(crate) fn add_read<'a>(all: &mut Accesses<'a>, name: &'a Ident) -> Result<(), OutOfMemory>
    ensures { OnOk result (Adds accessed all.old all.new (λ (bits : ℕ). access.Read name.now bits ∷ [])) }
{
    Ok(all.reads.push(name)?)
}

// Appends a target, whichever its bits.
pub(crate) fn add_write<'a>(
    all: &mut Accesses<'a>,
    name: &'a Ident,
    kind: AssignKind,
) -> Result<(), OutOfMemory>
    ensures { OnOk result (Adds accessed all.old all.new (λ (bits : ℕ). access.Write name.now kind bits ∷ [])) }
{
    Ok(all.writes.push(Write { name, kind })?)
}
