ghost use Rattle.std.specs.Prelude.{◌≡◌, ◌≤◌, ◌+◌, ◌^◌, [], ◌∷◌, map, IfOk, OnErr};
ghost use Rattle.v_meaning.specs.Designs.{cycle_bits, first_bits, open_bits_of, total};
ghost use Rattle.v_meaning.specs.Modules.{firsts_among};
ghost use Rattle.v_core.specs.Cores.{design_in};
ghost use Rattle.v_run.specs.Inputs.{process_count};

use lz_base::OutOfMemory;
use v_core::Core;
use v_meaning::{Entry, Kind};

// The sum, where it is below 2^64.
fn add(count: u64, more: u64) -> Result<u64, OutOfMemory>
    ensures sum { IfOk result (λ n. n ≡ count + more) }
    ensures past { OnErr result (2 ^ 64 ≤ count + more) }
{
    match count.checked_add(more) {
        Some(sum) => Ok(sum),
        None => Err(OutOfMemory),
    }
}

// How many bits of the first choice a name takes: a variable without a declared value has its width, a memory has all its
// words, and anything else none.
fn open_bits(entry: &Entry) -> u64
    ensures { result ≡ total (map open_bits_of (firsts_among (entry.now ∷ []))) }
{
    match entry.kind {
        Kind::Variable(_) => match entry.first {
            Some(_) => 0,
            None => u64::from(entry.width),
        },
        Kind::Memory(_, _, count) => u64::from(count) * u64::from(entry.width),
        _ => 0,
    }
}

/// How many bits the first choice of a module has: those of its variables that have no declared value, and of its memories
/// (IEEE Std 1364-2005, 6.2.1). `OutOfMemory` comes exactly where they are 2^64 or more, so that no choice can be held. It
/// takes no memory.
pub fn first_bits(core: &Core) -> Result<u64, OutOfMemory>
    ensures bits { IfOk result (λ n. n ≡ first_bits (design_in core.now)) }
    ensures past { OnErr result (2 ^ 64 ≤ first_bits (design_in core.now)) }
{
    let mut bits = 0;
    for entry in core.names.as_slice() {
        bits = add(bits, open_bits(entry))?;
    }
    Ok(bits)
}

/// How many bits the choice of a cycle has: those of all sites. `OutOfMemory` comes exactly where they are 2^64 or more, so
/// that no choice can be held. It takes no memory.
pub fn cycle_bits(core: &Core) -> Result<u64, OutOfMemory>
    ensures bits { IfOk result (λ n. n ≡ cycle_bits (design_in core.now)) }
    ensures past { OnErr result (2 ^ 64 ≤ cycle_bits (design_in core.now)) }
{
    let mut bits = 0;
    for site in core.sites.as_slice() {
        bits = add(bits, u64::from(site.width))?;
    }
    Ok(bits)
}

/// How many processes the schedules of a module name: those that are clocked, which are numbered from 0 in text order.
/// `OutOfMemory` comes exactly where they are 2^32 or more, so that an entry cannot name each. It takes no memory.
pub fn process_count(core: &Core) -> Result<u32, OutOfMemory>
    ensures count { IfOk result (λ n. n ≡ process_count (design_in core.now)) }
    ensures past { OnErr result (2 ^ 32 ≤ process_count (design_in core.now)) }
{
    let mut count = 0u32;
    for process in core.processes.as_slice() {
        if process.clocked {
            let Some(more) = count.checked_add(1) else {
                return Err(OutOfMemory);
            };
            count = more;
        }
    }
    Ok(count)
}
