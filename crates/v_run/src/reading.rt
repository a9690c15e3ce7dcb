ghost use Rattle.std.specs.Prelude.{ℕ, List, IfOk};
ghost use Rattle.lz_base.specs.Answers.{Answers, IfFault};
ghost use Rattle.lz_base.specs.declared.rule.Rule.TheVariants.{C1, S1};
ghost use Rattle.lz_lines.specs.Places.{IsUnreadable};
ghost use Rattle.t_choices.specs.ChoiceTexts.{IsChoices};
ghost use Rattle.t_choices.specs.ScheduleTexts.{IsSchedule};
ghost use Rattle.t_choices.specs.declared.choice_texts.Choices.{Choices};
ghost use Rattle.v_core.specs.Cores.{design_in};
ghost use Rattle.v_meaning.specs.Designs.{cycle_bits, first_bits};
ghost use Rattle.v_run.specs.Inputs.{process_count};

use crate::choosing::{cycle_bits, first_bits, process_count};
use lz_base::Stop;
use std::alloc::Global;
use t_choices::{Choices, Schedules, read_choices, read_schedule};
use v_core::Core;

/// The choices whose text the bytes are, for the bits that a module leaves open and so many cycles. The fault C1 comes exactly
/// where they are no such text, and its place is the length of the longest front of the bytes with which some such text
/// begins. `OutOfMemory` is the only other answer.
pub fn choices_for(alloc: Global, core: &Core, cycles: usize, bytes: &[u8]) -> Result<Choices, Stop>
    ensures found { IfOk result (λ c. IsChoices (first_bits (design_in core.now)) (cycle_bits (design_in core.now)) cycles c bytes.now) }
    ensures only { (choices : Choices) → IsChoices (first_bits (design_in core.now)) (cycle_bits (design_in core.now)) cycles choices bytes.now → Answers (λ c. c) result choices }
    ensures fault { IfFault result (IsUnreadable (IsChoices (first_bits (design_in core.now)) (cycle_bits (design_in core.now)) cycles) C1 bytes.now) }
{
    let first = first_bits(core)?;
    let each = cycle_bits(core)?;
    read_choices(alloc, bytes, first, each, cycles as u64)
}

/// The schedules whose text the bytes are, for the clocked processes of a module and so many cycles. Whether they are complete
/// is not judged. The fault S1 comes exactly where the bytes are no such text, and its place is the length of the longest front
/// of the bytes with which some such text begins. `OutOfMemory` is the only other answer.
pub fn schedules_for(
    alloc: Global,
    core: &Core,
    cycles: usize,
    bytes: &[u8],
) -> Result<Schedules, Stop>
    ensures found { IfOk result (λ s. IsSchedule (process_count (design_in core.now)) cycles s bytes.now) }
    ensures only { (schedule : List (List ℕ)) → IsSchedule (process_count (design_in core.now)) cycles schedule bytes.now → Answers (λ s. s) result schedule }
    ensures fault { IfFault result (IsUnreadable (IsSchedule (process_count (design_in core.now)) cycles) S1 bytes.now) }
{
    let processes = process_count(core)?;
    read_schedule(alloc, bytes, processes, cycles as u64)
}
