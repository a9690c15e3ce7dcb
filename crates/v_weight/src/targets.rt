ghost use Rattle.std.specs.Prelude.{◌≡◌, IfOk, true};
ghost use Rattle.v_typing.specs.Sound.{is_sound_target, targets_sound};
ghost use Rattle.v_weight.specs.Targets.{IsTarget, AreTargets};

use crate::bounds::part_width;
use crate::expressions::weigh;
use crate::leaves::{selected_width, size, width};
use crate::saturated::plus;
use lz_base::OutOfMemory;
use std::alloc::Global;
use v_names::Names;
use v_syntax::Target;

/// What is counted of a target of an assignment.
#[derive(Clone, Copy, Debug, PartialEq, Eq)]
pub struct CountedTarget {
    /// How many bits are written.
    pub width: u64,
    /// How many bits the whole variables and memories have of which some are written.
    pub size: u64,
    /// What its indices weigh.
    pub indices: u64,
}

// The width and size of a target, and the weight of its indices.
#[cycle(targets)]
pub(crate) fn weigh_target(
    alloc: Global,
    names: &Names,
    target: &Target,
) -> Result<CountedTarget, OutOfMemory>
    ensures { IfOk result (λ r. is_sound_target names.now target.now ≡ true → IsTarget names.now target.now r) }
{
    match target {
        Target::Name(name) => Ok(CountedTarget {
            width: width(names, name),
            size: size(names, name),
            indices: 0,
        }),
        Target::Select { name, index, .. } => {
            let index = weigh(alloc, names, index)?;
            Ok(CountedTarget {
                width: selected_width(names, name),
                size: size(names, name),
                indices: index.own(),
            })
        }
        Target::Part { name, range } => {
            let width = part_width(alloc, names, &range.msb.expr, &range.lsb.expr)?;
            Ok(CountedTarget {
                width,
                size: size(names, name),
                indices: 0,
            })
        }
        Target::Concat { parts, .. } => {
            let all = weigh_targets(alloc, names, parts.as_slice())?;
            Ok(all)
        }
    }
}

// Targets side by side.
#[cycle(targets)]
fn weigh_targets(
    alloc: Global,
    names: &Names,
    targets: &[Target],
) -> Result<CountedTarget, OutOfMemory>
    ensures { IfOk result (λ r. targets_sound names.now targets.now ≡ true → AreTargets names.now targets.now r) }
{
    let mut width = 0u64;
    let mut size = 0u64;
    let mut indices = 0u64;
    for target in targets {
        let one = weigh_target(alloc, names, target)?;
        width = plus(width, one.width);
        size = plus(size, one.size);
        indices = plus(indices, one.indices);
    }
    Ok(CountedTarget {
        width,
        size,
        indices,
    })
}
