ghost use Rattle.std.specs.Prelude.{◌≡◌, ◌≤◌, map, true, IfOk};
ghost use Rattle.std.specs.List.{list_all};
ghost use Rattle.t_trace.specs.Widths.{AreWidths, FitWidths};
ghost use Rattle.v_core.specs.Cores.{design_in};
ghost use Rattle.v_core.specs.Values.{entry_at};
ghost use Rattle.v_machine.specs.Runnable.{is_word, port_widths};
ghost use Rattle.v_meaning.specs.Declarations.{is_input};
ghost use Rattle.v_meaning.specs.Modules.{inputs_among};
ghost use Rattle.v_values.specs.Seen.{widths_of};

use lz_base::{OutOfMemory, Word};
use std::alloc::Global;
use v_core::Core;
use v_meaning::{Entry, Kind};

fn is_input(kind: Kind) -> bool
    ensures { result ≡ is_input kind }
{
    matches!(kind, Kind::Input(_))
}

/// How many bits the inputs of a module have, in declaration order, without the clock. `OutOfMemory` is the only other
/// answer.
#[tactic(auto, using(crate::proofs::Ports::are_widths))]
pub fn input_widths(alloc: Global, core: &Core) -> Result<Vec<u32>, OutOfMemory>
    ensures value { IfOk result (λ v. v.items ≡ port_widths (design_in core.now).inputs) }
    ensures words { list_all is_word core.now.names ≡ true → IfOk result (λ v. AreWidths v.items) }
{
    input_widths_of(alloc, core.names.as_slice())
}

fn input_widths_of(alloc: Global, names: &[Entry]) -> Result<Vec<u32>, OutOfMemory>
    ensures { IfOk result (λ v. v.items ≡ port_widths (inputs_among names.now)) }
{
    let mut widths = Vec::new(alloc);
    for entry in names {
        if is_input(entry.kind) {
            widths.push(entry.width)?;
        }
    }
    Ok(widths)
}

// How many bits the declared name of a number has; 1 where there are not so many.
fn width_at(names: &[Entry], number: u32) -> u32
    requires { list_all is_word names.now ≡ true }
    ensures width { result ≡ (entry_at names.now number).width }
    ensures least { 1 ≤ result }
    ensures most { result ≤ 128 }
{
    if (number as usize) < names.len() {
        let entry = &names[number as usize];
        entry.width
    } else {
        1
    }
}

/// A word for each output, which has its width.
pub(crate) fn zeros(alloc: Global, core: &Core) -> Result<Vec<Word>, OutOfMemory>
    requires { list_all is_word core.now.names ≡ true }
    ensures { IfOk result (λ v. widths_of v.items ≡ port_widths (design_in core.now).outputs) }
{
    let names = core.names.as_slice();
    let mut words = Vec::with_capacity(alloc, core.outputs.len())?;
    for output in core.outputs.as_slice() {
        words.push(Word::new(width_at(names, *output), 0))?;
    }
    Ok(words)
}

/// Law of words: each keeps to its width, as its type says. It reads them and does nothing else.
pub(crate) fn keep(words: &[Word])
    ensures { FitWidths (widths_of words.now) words.now }
{
    for word in words {
        let _value = word.value;
    }
}
