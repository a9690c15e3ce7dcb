ghost use Rattle.std.specs.Prelude.{map, IfOk, IsTrue, ◌↔◌};
ghost use Rattle.lz_base.specs.Names.{AreDistinct};

use lz_base::{OutOfMemory, is_among_decides, meet, no_names};
use std::alloc::Global;

// Whether no two of these names have the same bytes. The work is n log n in the names.
pub(crate) fn is_distinct(alloc: Global, names: &[&[u8]]) -> Result<bool, OutOfMemory>
    ensures { IfOk result (λ b. IsTrue b ↔ AreDistinct (map (λ n. n.now) names.now)) }
{
    is_among_decides();
    let mut met = no_names(alloc);
    for name in names {
        if !meet(&mut met, name)? {
            return Ok(false);
        }
    }
    Ok(true)
}
