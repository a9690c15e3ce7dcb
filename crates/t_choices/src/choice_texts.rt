ghost use Rattle.std.specs.Prelude.{◌≡◌, ◌++◌, [], flat_map, codes, IfOk, OnOk};
ghost use Rattle.lz_base.specs.Answers.{Answers, IfFault};
ghost use Rattle.lz_base.specs.declared.rule.Rule.TheVariants.{C1};
ghost use Rattle.lz_lines.specs.Forms.{Anything, Nothing, Obtains};
ghost use Rattle.lz_lines.specs.Places.{IsUnreadable};
ghost use Rattle.t_choices.specs.Bits.{HasBits};
ghost use Rattle.t_choices.specs.ChoiceTexts.{IsChoices, choice_line, choices_text};
ghost use Rattle.t_choices.specs.Repeated.{Exactly, Spelled};
ghost use Rattle.t_choices.specs.declared.choice_texts.Choices.{Choices};

use crate::bits::{push_choice, read_choice};
use crate::lines::read_last;
use lz_base::{Items, OutOfMemory, Rule, Stop};
use lz_lines::{Unread, end_line, push_line_end, read_word};
use std::alloc::Global;

/// What is left open by the source: the bits of the first store that no initialiser sets, and in each cycle the bits
/// that are written `x`. One bit is one digit of a text, in the same order.
#[derive(Debug, Drop)]
pub struct Choices {
    pub first: Items<bool>,
    pub cycles: Items<Items<bool>>,
}

// Takes a line that has this word and a choice of so many bits.
fn read_line<'a>(
    alloc: Global,
    bytes: &'a [u8],
    key: &[u8],
    count: u64,
) -> Result<(Items<bool>, &'a [u8]), Unread>
    ensures { Obtains (Spelled (choice_line key.now) (HasBits count)) Anything (λ r. r.0) (λ r. r.1.now) bytes.now result }
{
    let rest = read_word(bytes, key)?;
    let (bits, rest) = read_choice(alloc, rest, count)?;
    end_line(bits, rest)
}

// Takes the lines of so many cycles.
fn read_cycles<'a>(
    alloc: Global,
    bytes: &'a [u8],
    cycle_bits: u64,
    count: u64,
) -> Result<(Items<Items<bool>>, &'a [u8]), Unread>
    ensures { Obtains (Exactly (choice_line (codes "cycle")) (HasBits cycle_bits) count) Anything (λ r. r.0) (λ r. r.1.now) bytes.now result }
{
    let mut cycles = Vec::new(alloc);
    let mut left = bytes;
    'cycles: while (cycles.len() as u64) < count {
        let (bits, rest) = read_line(alloc, left, b"cycle", cycle_bits)?;
        cycles.push(bits)?;
        left = rest;
    }
    Ok((Items::from_vec(cycles), left))
}

// Reads a whole text.
fn read_whole(
    alloc: Global,
    bytes: &[u8],
    first_bits: u64,
    cycle_bits: u64,
    cycles: u64,
) -> Result<Choices, Unread>
    ensures { Obtains (IsChoices first_bits cycle_bits cycles) Nothing (λ r. r) (λ _. []) bytes.now result }
{
    let rest = read_word(bytes, b"choices 1\n")?;
    let (first, rest) = read_line(alloc, rest, b"first", first_bits)?;
    let (cycles, rest) = read_cycles(alloc, rest, cycle_bits, cycles)?;
    read_last(Choices { first, cycles }, rest)
}

/// The choices whose text the bytes are, for a first choice and a choice in each cycle of so many bits, and so many
/// cycles. The fault C1 comes exactly where the bytes are no such text, and its place is the length of the longest
/// front of the bytes with which some such text begins.
pub fn read_choices(
    alloc: Global,
    bytes: &[u8],
    first_bits: u64,
    cycle_bits: u64,
    cycles: u64,
) -> Result<Choices, Stop>
    ensures found { IfOk result (λ c. IsChoices first_bits cycle_bits cycles c bytes.now) }
    ensures only { (choices : Choices) → IsChoices first_bits cycle_bits cycles choices bytes.now → Answers (λ c. c) result choices }
    ensures fault { IfFault result (IsUnreadable (IsChoices first_bits cycle_bits cycles) C1 bytes.now) }
{
    match read_whole(alloc, bytes, first_bits, cycle_bits, cycles) {
        Ok(choices) => Ok(choices),
        Err(unread) => Err(unread.stop(bytes.len(), Rule::C1)),
    }
}

fn push_line(out: &mut Vec<u8>, key: &[u8], bits: &[bool]) -> Result<(), OutOfMemory>
    ensures { OnOk result (out.new.items ≡ out.old.items ++ choice_line key.now bits.now) }
{
    out.extend_from_slice(key)?;
    push_choice(out, bits)?;
    push_line_end(out)
}

fn push_cycles(out: &mut Vec<u8>, cycles: &[Items<bool>]) -> Result<(), OutOfMemory>
    ensures { OnOk result (out.new.items ≡ out.old.items ++ flat_map (choice_line (codes "cycle")) cycles.now) }
{
    for bits in cycles {
        push_line(out, b"cycle", bits.as_slice())?;
    }
    Ok(())
}

/// The one text of choices, which `read_choices` reads back for as many bits and cycles as they have, where all cycles
/// have equally many bits.
pub fn print_choices(alloc: Global, choices: &Choices) -> Result<Vec<u8>, OutOfMemory>
    ensures { IfOk result (λ v. v.items ≡ choices_text choices.now) }
{
    let mut out = Vec::new(alloc);
    out.extend_from_slice(b"choices 1\n")?;
    push_line(&mut out, b"first", choices.first.as_slice())?;
    push_cycles(&mut out, choices.cycles.as_slice())?;
    out.extend_from_slice(b"end\n")?;
    Ok(out)
}
