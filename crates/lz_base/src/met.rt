ghost use Rattle.std.specs.Prelude.{◌≡◌, ◌↔◌, ◌++◌, ◌∷◌, [], List, ℕ, not, IfOk, IsTrue};
ghost use Rattle.lz_base.specs.Met.{Met};
ghost use Rattle.lz_base.specs.Names.{IsAmong, is_among};

use crate::OutOfMemory;
use std::alloc::Global;
use std::collections::BTreeSet;

/// No name is met. It takes no memory.
pub fn no_names<'a>(alloc: Global) -> BTreeSet<&'a [u8]>
    ensures { Met result [] }
{
    BTreeSet::new(alloc)
}

/// Whether a name is none of those that were met. From now on it is one of them.
pub fn meet<'a>(met: &mut BTreeSet<&'a [u8]>, name: &'a [u8]) -> Result<bool, OutOfMemory>
    ensures { IfOk result (λ added. (names : List (List ℕ)) → Met met.old names → (added ≡ not (is_among name.now names)) × Met met.new (names ++ name.now ∷ [])) }
{
    Ok(met.insert(name)?)
}

/// Whether a name is one of those that were met.
pub fn is_met<'a>(met: &BTreeSet<&'a [u8]>, name: &'a [u8]) -> bool
    ensures { (names : List (List ℕ)) → Met met.now names → result ≡ is_among name.now names }
{
    met.contains(name)
}

/// Whether a name is one of several is what the test says.
pub fn is_among_decides()
    ensures { (name : List ℕ) (names : List (List ℕ)) → IsTrue (is_among name names) ↔ IsAmong name names }
{}
