ghost use Rattle.std.specs.Prelude.{◌≡◌, map, IfOk};
ghost use Rattle.v_core.specs.declared.modules.TypedSite.{TypedSite};
ghost use Rattle.v_names.specs.Words.{AreWords};

use lz_base::{Items, OutOfMemory};
use std::alloc::Global;
use v_core::TypedSite;
use v_meaning::Entry;
use v_names::{Names, Sites};

// A copy of an entry.
fn entry_copy(entry: &Entry) -> Result<Entry, OutOfMemory>
    ensures { IfOk result (λ copy. copy ≡ entry.now) }
{
    Ok(Entry {
        name: entry.name.clone()?,
        at: entry.at,
        kind: entry.kind,
        width: entry.width,
        signed: entry.signed,
        low: entry.low,
        is_vector: entry.is_vector,
        first: entry.first,
    })
}

/// A copy of the declared names, each of 1 to 128 bits. `OutOfMemory` also comes where there are 2^32 names.
pub(crate) fn copy_of(alloc: Global, names: &Names) -> Result<Items<Entry>, OutOfMemory>
    ensures copy { IfOk result (λ copy. copy ≡ names.now) }
    ensures words { IfOk result (λ copy. AreWords copy) }
{
    let mut copy = Items::new(alloc);
    let mut number = 0u32;
    while let Some(entry) = names.entry(number) {
        if number == u32::MAX {
            return Err(OutOfMemory);
        }
        let one = entry_copy(entry)?;
        copy.push(one)?;
        number += 1;
    }
    Ok(copy)
}

/// The places of sites, by which they are found.
pub(crate) fn site_places(alloc: Global, found: &[TypedSite]) -> Result<Sites, OutOfMemory>
    ensures { IfOk result (λ places. places ≡ map (λ (s : TypedSite). s.at) found.now) }
{
    let mut places = Sites::new(alloc);
    for site in found {
        places.push(site.at)?;
    }
    Ok(places)
}
