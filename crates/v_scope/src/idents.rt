ghost use Rattle.std.specs.Prelude.{◌≡◌, ◌++◌, List, ℕ, OnOk};
ghost use Rattle.std.specs.Option.{option_copied};
ghost use Rattle.lz_base.specs.Met.{Met};
ghost use Rattle.lz_base.specs.Names.{is_among};
ghost use Rattle.v_meaning.specs.declared.names.Entry.{Entry};
ghost use Rattle.v_scope.specs.Occurrences.{mark_of};
ghost use Rattle.v_scope.specs.Idents.{ident_declared, ident_valued, ident_used, name_in};

use crate::Occurrence;
use lz_base::{OutOfMemory, meet};
use std::collections::BTreeSet;
use v_syntax::Ident;

// The name that is declared here, if one is.
pub(crate) fn declared<'a>(occurrence: &Occurrence<'a>) -> Option<&'a Ident>
    ensures { (names : List Entry) → option_copied result ≡ ident_declared (mark_of names occurrence.now) }
{
    match *occurrence {
        Occurrence::Declares(ident) => Some(ident),
        _ => None,
    }
}

// The parameter whose value ends here, if one does.
pub(crate) fn valued<'a>(occurrence: &Occurrence<'a>) -> Option<&'a Ident>
    ensures { (names : List Entry) → option_copied result ≡ ident_valued (mark_of names occurrence.now) }
{
    match *occurrence {
        Occurrence::Valued(ident) => Some(ident),
        _ => None,
    }
}

// The name that is used here, if one is.
pub(crate) fn used<'a>(occurrence: &Occurrence<'a>) -> Option<&'a Ident>
    ensures { (names : List Entry) → option_copied result ≡ ident_used (mark_of names occurrence.now) }
{
    match *occurrence {
        Occurrence::Bare(ident) => Some(ident),
        Occurrence::Indexed(ident) => Some(ident),
        Occurrence::PartOf(ident, _, _) => Some(ident),
        _ => None,
    }
}

// A name, if there is one, is met from now on.
pub(crate) fn meet_some<'a>(
    met: &mut BTreeSet<&'a [u8]>,
    ident: Option<&'a Ident>,
) -> Result<(), OutOfMemory>
    ensures { OnOk result ((names : List (List ℕ)) → Met met.old names → Met met.new (names ++ name_in (option_copied ident.entry))) }
{
    match ident {
        None => Ok(()),
        Some(ident) => {
            meet(met, ident.name.bytes())?;
            Ok(())
        }
    }
}
