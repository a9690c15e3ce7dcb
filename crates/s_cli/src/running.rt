ghost use Rattle.std.specs.Prelude.{◌≡◌, ◌<◌, ◌≤◌, ◌↔◌, List, ℕ, None, Some, take, Err, IfOk, IfErr};
ghost use Rattle.std.specs.Io.KnownBytes.{Appends};
ghost use Rattle.lz_base.specs.Causes.{Rose};
ghost use Rattle.s_cli.specs.Status.{OnDone, OnWriteFault, OnReadFault, IfRefused, OnSilent, Writes, WritesBoth, IsFailure, IsUnlessMemory, status_of, status_line};
ghost use Rattle.s_cli.specs.Answers.{ForOutput, IfTold, IsOutputBy, IsRefusal, IsRefusalBy, IsCalledFor, IsJudgedBy};
ghost use Rattle.s_cli.specs.Texts.{IsMissing};
ghost use Rattle.s_cli.specs.Words.{IsForm, command_of, names_in};

use crate::answering::{Output, answer};
use crate::reading::read_texts;
use crate::reporting::{report, write_line};
use crate::words::command;
use crate::{Command, Status};
use lz_base::{Files, Sink, write_all};
use m_mapper::Mapper;
use std::alloc::Global;

// The whole output that a form calls for, or the status of what stands against it. All its files are read first.
fn output<F: Files>(
    alloc: Global,
    command: Command,
    words: &[String],
    files: &mut F,
    mapper: &Box<dyn Mapper>,
) -> Result<Output, Status>
    requires words { command_of words.now ≡ Some command }
    requires form { IsForm command }
    ensures failure { IfErr result IsFailure }
    ensures no_usage { result ≡ Err Status.Usage → ⊥ }
    ensures read { IfErr result (λ s. OnReadFault s (Rose (F.faults files.old) (F.faults files.new))) }
    ensures read_always { F.faults files.old < F.faults files.new → result ≡ Err Status.ReadFault }
    ensures missing { IsMissing (F.told files.old) (names_in words.now) → IsUnlessMemory (status_of result) Status.ReadFault }
    ensures told { F.told files.new ≡ F.told files.old }
    ensures refused { IfErr result (λ s. IfRefused s (λ fault. IfTold (F.told files.old) (names_in words.now) (λ contents. IsRefusalBy command contents fault))) }
    ensures done { IfOk result (λ o. IfTold (F.told files.old) (names_in words.now) (λ contents. IsOutputBy command (may_answer mapper.now) contents o.text.items o.note.items)) }
    ensures complete { (Rose (F.faults files.old) (F.faults files.new) → ⊥) → IfTold (F.told files.old) (names_in words.now) (λ contents. IsJudgedBy command contents (status_of result)) }
{
    let texts = read_texts(alloc, files, command, words)?;
    Ok(answer(alloc, command, texts.as_slice(), mapper)?)
}

// Does what the words ask, but for the line of the status to the errors.
fn execute<F: Files, O: Sink, E: Sink>(
    alloc: Global,
    words: &[String],
    files: &mut F,
    out: &mut O,
    err: &mut E,
    mapper: &Box<dyn Mapper>,
) -> Status
    ensures usage { result ≡ Status.Usage ↔ (command_of words.now ≡ None) }
    ensures unopened { result ≡ Status.Usage → files.new ≡ files.old }
    ensures read { OnReadFault result (Rose (F.faults files.old) (F.faults files.new)) }
    ensures read_always { F.faults files.old < F.faults files.new → result ≡ Status.ReadFault }
    ensures missing { IsMissing (F.told files.old) (names_in words.now) → IsUnlessMemory result Status.ReadFault }
    ensures write { OnWriteFault result (Rose (O.faults out.old) (O.faults out.new)) }
    ensures write_always { O.faults out.old < O.faults out.new → result ≡ Status.WriteFault }
    ensures told { F.told files.new ≡ F.told files.old }
    ensures refused { IfRefused result (λ fault. IfTold (F.told files.old) (names_in words.now) (λ contents. IsRefusal (command_of words.now) contents fault)) }
    ensures done { OnDone result (ForOutput (command_of words.now) (may_answer mapper.now) (F.told files.old) (names_in words.now) (λ output note. Appends (O.written out.old) (O.written out.new) output × Writes (E.faults err.old) (E.faults err.new) (E.written err.old) (E.written err.new) note)) }
    ensures part { OnWriteFault result (ForOutput (command_of words.now) (may_answer mapper.now) (F.told files.old) (names_in words.now) (λ output note. ((sent : ℕ) × Appends (O.written out.old) (O.written out.new) (take sent output)) × Writes (E.faults err.old) (E.faults err.new) (E.written err.old) (E.written err.new) note)) }
    ensures silent { OnSilent result (out.new ≡ out.old) }
    ensures unnoted { OnSilent result (err.new ≡ err.old) }
    ensures complete { (Rose (F.faults files.old) (F.faults files.new) → ⊥) → (Rose (O.faults out.old) (O.faults out.new) → ⊥) → IfTold (F.told files.old) (names_in words.now) (λ contents. IsCalledFor (command_of words.now) contents result) }
{
    let Some(command) = command(words) else {
        return Status::Usage;
    };
    match output(alloc, command, words, files, mapper) {
        Ok(output) => {
            write_line(err, &output.note);
            match write_all(out, &output.text) {
                Ok(()) => Status::Ok,
                Err(_) => Status::WriteFault,
            }
        }
        Err(status) => status,
    }
}

/// Does what the words after the program's name ask: it reads the named files, in their order, and makes the whole
/// output, where the words ask for it by an answer of the mapper. Only then it writes, first to `err` what is noted of a
/// proposal, then the output to `out`. For a status other than `Ok` it writes the status's line to `err`.
///
/// `Usage` comes exactly where the words are of no form, and then nothing is opened. `ReadFault` and `WriteFault` come
/// only where a call on `files` or `out` failed, and always where one did; a named file that is not there is one,
/// whatever the other files hold. Otherwise the first rule that the files break is named with its byte, or the output
/// is written. What is proposed, by the mapper or by a file, breaks no rule. A fault of `err` changes nothing else.
pub fn run<F: Files, O: Sink, E: Sink>(
    alloc: Global,
    words: &[String],
    files: &mut F,
    out: &mut O,
    err: &mut E,
    mapper: &Box<dyn Mapper>,
) -> Status
    ensures usage { result ≡ Status.Usage ↔ (command_of words.now ≡ None) }
    ensures unopened { result ≡ Status.Usage → files.new ≡ files.old }

    ensures read { OnReadFault result (Rose (F.faults files.old) (F.faults files.new)) }
    ensures read_always { F.faults files.old < F.faults files.new → result ≡ Status.ReadFault }
    ensures missing { IsMissing (F.told files.old) (names_in words.now) → IsUnlessMemory result Status.ReadFault }
    ensures write { OnWriteFault result (Rose (O.faults out.old) (O.faults out.new)) }
    ensures write_always { O.faults out.old < O.faults out.new → result ≡ Status.WriteFault }
    ensures told { F.told files.new ≡ F.told files.old }

    // What was asked is refused with the first rule that it breaks.
    ensures refused { IfRefused result (λ fault. IfTold (F.told files.old) (names_in words.now) (λ contents. IsRefusal (command_of words.now) contents fault)) }

    // The output was written, and of it alone a front where a write failed; and its note and the status's line to `err`.
    ensures done { OnDone result (ForOutput (command_of words.now) (may_answer mapper.now) (F.told files.old) (names_in words.now) (λ output note. Appends (O.written out.old) (O.written out.new) output × WritesBoth (E.faults err.old) (E.faults err.new) (E.written err.old) (E.written err.new) note (status_line result))) }
    ensures part { OnWriteFault result (ForOutput (command_of words.now) (may_answer mapper.now) (F.told files.old) (names_in words.now) (λ output note. ((sent : ℕ) × Appends (O.written out.old) (O.written out.new) (take sent output)) × WritesBoth (E.faults err.old) (E.faults err.new) (E.written err.old) (E.written err.new) note (status_line result))) }
    ensures silent { OnSilent result (out.new ≡ out.old) }
    ensures line { OnSilent result (Writes (E.faults err.old) (E.faults err.new) (E.written err.old) (E.written err.new) (status_line result)) }

    // Where no call failed, the status is the one that the files call for, unless memory was wanting.
    ensures complete { (Rose (F.faults files.old) (F.faults files.new) → ⊥) → (Rose (O.faults out.old) (O.faults out.new) → ⊥) → IfTold (F.told files.old) (names_in words.now) (λ contents. IsCalledFor (command_of words.now) contents result) }
{
    let status = execute(alloc, words, files, out, err, mapper);
    report(err, status);
    status
}
