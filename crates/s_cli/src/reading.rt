ghost use Rattle.std.specs.Prelude.{◌≡◌, ◌≤◌, ◌^◌, length, Some, IfOk};
ghost use Rattle.s_cli.specs.Status.{CausesTexts};
ghost use Rattle.s_cli.specs.Texts.{AreShort, IsMissing, IsShort, IsWhole, StandsSo, WereRead};
ghost use Rattle.s_cli.specs.Words.{command_of, limits_of, names_in};

use crate::words::{file_count, file_name, limit};
use crate::{Command, Status};
use lz_base::{Files, ReadEnd, read_file};
use std::alloc::Global;

// The bytes under a name, or None where there are more than it may have.
fn read_text<F: Files>(
    alloc: Global,
    files: &mut F,
    name: &str,
    limit: u64,
) -> Result<Option<Vec<u8>>, Status>
    requires { limit ≤ 2 ^ 28 }
    ensures cause { CausesTexts (F.faults files.old) (F.faults files.new) result }
    ensures told { F.told files.new ≡ F.told files.old }
    ensures read { IfOk result (λ text. StandsSo (F.told files.old) name.now (IsWhole limit text)) }
    ensures short { IfOk result (IsShort limit) }
{
    match read_file(alloc, files, name, limit) {
        Ok(bytes) => Ok(Some(bytes)),
        Err(ReadEnd::Fault) => Err(Status::ReadFault),
        Err(ReadEnd::TooLong) => Ok(None),
        Err(ReadEnd::OutOfMemory) => Err(Status::OutOfMemory),
    }
}

/// Reads the files of a form, in the order of its words: the bytes of each, or None where it has more than it may have.
pub(crate) fn read_texts<F: Files>(
    alloc: Global,
    files: &mut F,
    command: Command,
    words: &[String],
) -> Result<Vec<Option<Vec<u8>>>, Status>
    requires { command_of words.now ≡ Some command }
    ensures cause { CausesTexts (F.faults files.old) (F.faults files.new) result }
    ensures told { F.told files.new ≡ F.told files.old }
    ensures read { IfOk result (λ texts. WereRead (F.told files.old) (names_in words.now) (limits_of command) texts.items) }
    ensures there { IfOk result (λ _. IsMissing (F.told files.old) (names_in words.now) → ⊥) }
    ensures count { IfOk result (λ texts. length texts.items ≡ length (limits_of command)) }
    ensures short { IfOk result (λ texts. AreShort (limits_of command) texts.items) }
{
    let mut texts = Vec::new(alloc);
    for i in 0..file_count(command) {
        let name = file_name(words, command, i).as_str();
        let text = read_text(alloc, files, name, limit(command, i))?;
        texts.push(text)?;
    }
    Ok(texts)
}
