ghost use Rattle.std.specs.Prelude.{◌≡◌, ℕ, List, IfOk};
ghost use Rattle.lz_base.specs.Answers.{Answers, IfFault};
ghost use Rattle.lz_base.specs.WordValue.{WordValue};
ghost use Rattle.lz_base.specs.declared.rule.Rule.TheVariants.{T1};
ghost use Rattle.lz_lines.specs.Places.{IsUnreadable};
ghost use Rattle.t_trace.specs.Texts.{IsStimulus, IsText, IsTrace, stimulus_text, trace_text};
ghost use Rattle.t_trace.specs.Widths.{AreWidths};

use crate::head::Head;
use crate::printing::print_cycles;
use crate::reading::read_cycles;
use lz_base::{Items, OutOfMemory, Rule, Stop, Word};
use std::alloc::Global;

/// What the inputs show: in each cycle one word for each input port, in declaration order, without the clock.
#[derive(Debug, Drop)]
pub struct Stimulus {
    pub cycles: Items<Items<Word>>,
}

/// What the outputs show: in each cycle one word for each output port, in declaration order.
#[derive(Debug, Drop)]
pub struct Trace {
    pub cycles: Items<Items<Word>>,
}

/// The stimulus whose text the bytes are, for input ports of these widths. The fault T1 comes exactly where they are no
/// such text, and its place is the length of the longest front of the bytes with which some such text begins.
pub fn read_stimulus(alloc: Global, bytes: &[u8], widths: &[u32]) -> Result<Stimulus, Stop>
    requires { AreWidths widths.now }
    ensures found { IfOk result (λ s. IsText stimulus_text widths.now bytes.now s.cycles) }
    ensures only { (cycles : List (List WordValue)) → IsText stimulus_text widths.now bytes.now cycles → Answers (λ s. s.cycles) result cycles }
    ensures fault { IfFault result (IsUnreadable (IsStimulus widths.now) T1 bytes.now) }
{
    match read_cycles(alloc, bytes, widths, b"stim 1\n", Head::In) {
        Ok(cycles) => Ok(Stimulus { cycles }),
        Err(unread) => Err(unread.stop(bytes.len(), Rule::T1)),
    }
}

/// The trace whose text the bytes are, for output ports of these widths. The fault T1 comes exactly where they are no
/// such text, and its place is the length of the longest front of the bytes with which some such text begins.
pub fn read_trace(alloc: Global, bytes: &[u8], widths: &[u32]) -> Result<Trace, Stop>
    requires { AreWidths widths.now }
    ensures found { IfOk result (λ t. IsText trace_text widths.now bytes.now t.cycles) }
    ensures only { (cycles : List (List WordValue)) → IsText trace_text widths.now bytes.now cycles → Answers (λ t. t.cycles) result cycles }
    ensures fault { IfFault result (IsUnreadable (IsTrace widths.now) T1 bytes.now) }
{
    match read_cycles(alloc, bytes, widths, b"trace 1\n", Head::Out) {
        Ok(cycles) => Ok(Trace { cycles }),
        Err(unread) => Err(unread.stop(bytes.len(), Rule::T1)),
    }
}

/// The one text of a stimulus, which `read_stimulus` reads back for the widths that all its cycles have.
pub fn print_stimulus(alloc: Global, stimulus: &Stimulus) -> Result<Vec<u8>, OutOfMemory>
    ensures { IfOk result (λ v. v.items ≡ stimulus_text stimulus.now.cycles) }
{
    print_cycles(alloc, stimulus.cycles.as_slice(), b"stim 1\n", b"in")
}

/// The one text of a trace, which `read_trace` reads back for the widths that all its cycles have.
pub fn print_trace(alloc: Global, trace: &Trace) -> Result<Vec<u8>, OutOfMemory>
    ensures { IfOk result (λ v. v.items ≡ trace_text trace.now.cycles) }
{
    print_cycles(alloc, trace.cycles.as_slice(), b"trace 1\n", b"out")
}
