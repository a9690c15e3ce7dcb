ghost use Rattle.std.specs.Prelude.{◌≡◌, List, ℕ, [], length};
ghost use Rattle.s_cli.specs.Answers.{Answers};
ghost use Rattle.s_cli.specs.Texts.{AreShort, AreWhole};
ghost use Rattle.s_cli.specs.Words.{IsForm, limits_of};

use crate::Command;
use crate::mapping::{map, map_with};
use crate::simulation::{trace, trace_lanes};
use crate::source_run::{scheduled_trace, source_trace};
use crate::synthesis::translate;
use crate::upgrading::upgrade;
use lz_base::Stop;
use m_mapper::Mapper;
use s_map::Mapped;
use std::alloc::Global;

/// The text that a form calls for, and what is noted of what was proposed, which may be nothing.
#[derive(Drop)]
pub(crate) struct Output {
    pub(crate) text: Vec<u8>,
    pub(crate) note: Vec<u8>,
}

// A text with which nothing is noted.
fn unnoted(alloc: Global, text: Vec<u8>) -> Output
    ensures text { result.text ≡ text }
    ensures note { result.note.items ≡ [] }
{
    Output {
        text,
        note: Vec::new(alloc),
    }
}

// A text with its note.
fn noted(mapped: Mapped) -> Output
    ensures text { result.text ≡ mapped.text }
    ensures note { result.note ≡ mapped.note }
{
    Output {
        text: mapped.text,
        note: mapped.note,
    }
}

/// The whole output that a form calls for, by what was read of its files, or the fault for which one is refused.
pub(crate) fn answer(
    alloc: Global,
    command: Command,
    texts: &[Option<Vec<u8>>],
    mapper: &Box<dyn Mapper>,
) -> Result<Output, Stop>
    requires form { IsForm command }
    requires count { length texts.now ≡ length (limits_of command) }
    requires short { AreShort (limits_of command) texts.now }
    ensures { (contents : List (List ℕ)) → AreWhole (limits_of command) texts.now contents → Answers command (may_answer mapper.now) contents result }
{
    match command {
        Command::Synth => Ok(unnoted(alloc, translate(alloc, &texts[0])?)),
        Command::Map => Ok(noted(map(alloc, &texts[0], mapper)?)),
        Command::MapFile => Ok(noted(map_with(alloc, &texts[0], &texts[1])?)),
        Command::Simv => {
            Ok(unnoted(alloc, source_trace(alloc, &texts[0], &texts[1], &texts[2])?))
        }
        Command::SimvBy => {
            let trace = scheduled_trace(alloc, &texts[0], &texts[1], &texts[2], &texts[3])?;
            Ok(unnoted(alloc, trace))
        }
        Command::Simn => Ok(unnoted(alloc, trace(alloc, &texts[0], &texts[1])?)),
        Command::Lanes { count } => {
            Ok(unnoted(alloc, trace_lanes(alloc, &texts[0], &texts[1], count)?))
        }
        Command::Upgrade => Ok(unnoted(alloc, upgrade(alloc, &texts[0])?)),
    }
}
