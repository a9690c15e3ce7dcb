ghost use Rattle.std.specs.Prelude.{◌≡◌, ◌+◌, ◌<◌, ◌≤◌, ◌^◌, ◌++◌, [], ℕ, List, Some, flat_map, get_or, length, slice_get, IfOk, OnOk};
ghost use Rattle.lz_base.specs.Answers.{Answers, IfFault};
ghost use Rattle.lz_base.specs.declared.rule.Rule.TheVariants.{S1};
ghost use Rattle.lz_lines.specs.Forms.{Anything, Nothing, Obtains};
ghost use Rattle.lz_lines.specs.Places.{IsUnreadable};
ghost use Rattle.t_choices.specs.Places.{place_of};
ghost use Rattle.t_choices.specs.Repeated.{Exactly};
ghost use Rattle.t_choices.specs.ScheduleTexts.{AreProcesses, IsSchedule, cycle_line, schedule_text};

use crate::entries::{push_cycle, read_cycle};
use crate::lines::read_last;
use lz_base::{Items, OutOfMemory, Rule, Stop};
use lz_lines::{Unread, read_word};
use std::alloc::Global;
use std::marker::Model;

/// The order of the processes' steps in each cycle, as it was read: an entry is the number of the process that takes the
/// next step. Contracts see the list of the cycles' entries.
#[derive(Debug, Drop)]
pub struct Schedules {
    cycles: Items<Items<u32>>,
    places: Items<Items<u64>>,
}

impl Model for Schedules {
    ghost use Rattle.std.specs.Prelude.{◌≡◌, ℕ, List};
    ghost use Rattle.t_choices.specs.Places.{cycle_places};

    ghost Value = { List (List ℕ) };

    ghost view = { λ s. s.cycles };

    ghost invariant = { λ s. s.places ≡ cycle_places 11 s.cycles };
}

impl Schedules {
    /// How many cycles there are. It takes no memory.
    pub fn cycles(&self) -> usize
        ensures { result ≡ length self.now }
    {
        self.cycles.len()
    }

    /// The entries of a cycle in their order. It takes no memory.
    pub fn entries(&self, cycle: usize) -> &[u32]
        requires { cycle < length self.now }
        ensures { slice_get self.now cycle ≡ Some result.now }
    {
        self.cycles.as_slice()[cycle].as_slice()
    }

    /// The byte, from 0, at which this entry of a cycle stands in the text that was read, or the line's end where
    /// `index` is the number of the cycle's entries. It takes no memory.
    pub fn place(&self, cycle: usize, index: usize) -> u64
        requires cycle { cycle < length self.now }
        requires index { index ≤ length (get_or self.now cycle []) }
        ensures place { result ≡ place_of self.now cycle index }
        ensures within { result < length (schedule_text self.now) }
    {
        place_at(self.places.as_slice(), cycle, index)
    }
}

fn place_at(places: &[Items<u64>], cycle: usize, index: usize) -> u64
    requires cycle { cycle < length places.now }
    requires index { index < length (get_or places.now cycle []) }
    ensures { result ≡ get_or (get_or places.now cycle []) index 0 }
{
    places[cycle].as_slice()[index]
}

// Takes the lines of so many cycles, which stand behind the first line and its 11 bytes.
fn read_cycles<'a>(
    alloc: Global,
    bytes: &'a [u8],
    processes: u32,
    count: u64,
) -> Result<(Schedules, &'a [u8]), Unread>
    requires { 11 + length bytes.now < 2 ^ 64 }
    ensures { Obtains (Exactly cycle_line (AreProcesses processes) count) Anything (λ r. r.0) (λ r. r.1.now) bytes.now result }
{
    let mut cycles = Vec::new(alloc);
    let mut places = Vec::new(alloc);
    let mut left = bytes;
    let mut at = 11;
    'cycles: while (cycles.len() as u64) < count {
        let (line, rest) = read_cycle(alloc, left, processes, at)?;
        cycles.push(line.entries)?;
        places.push(line.places)?;
        at += (left.len() - rest.len()) as u64;
        left = rest;
    }
    let schedules = Schedules {
        cycles: Items::from_vec(cycles),
        places: Items::from_vec(places),
    };
    Ok((schedules, left))
}

// Reads a whole text.
fn read_whole(alloc: Global, bytes: &[u8], processes: u32, cycles: u64) -> Result<Schedules, Unread>
    ensures { Obtains (IsSchedule processes cycles) Nothing (λ r. r) (λ _. []) bytes.now result }
{
    let rest = read_word(bytes, b"schedule 1\n")?;
    let (schedules, rest) = read_cycles(alloc, rest, processes, cycles)?;
    read_last(schedules, rest)
}

/// The schedules whose text the bytes are, for so many processes and cycles. Whether an order is complete is not judged.
/// The fault S1 comes exactly where the bytes are no such text, and its place is the length of the longest front of the
/// bytes with which some such text begins.
pub fn read_schedule(
    alloc: Global,
    bytes: &[u8],
    processes: u32,
    cycles: u64,
) -> Result<Schedules, Stop>
    ensures found { IfOk result (λ s. IsSchedule processes cycles s bytes.now) }
    ensures only { (schedule : List (List ℕ)) → IsSchedule processes cycles schedule bytes.now → Answers (λ s. s) result schedule }
    ensures fault { IfFault result (IsUnreadable (IsSchedule processes cycles) S1 bytes.now) }
{
    match read_whole(alloc, bytes, processes, cycles) {
        Ok(schedules) => Ok(schedules),
        Err(unread) => Err(unread.stop(bytes.len(), Rule::S1)),
    }
}

fn push_cycles(out: &mut Vec<u8>, cycles: &[Items<u32>]) -> Result<(), OutOfMemory>
    ensures { OnOk result (out.new.items ≡ out.old.items ++ flat_map cycle_line cycles.now) }
{
    for entries in cycles {
        push_cycle(out, entries.as_slice())?;
    }
    Ok(())
}

/// The one text of schedules, which `read_schedule` reads back for as many cycles, and more processes than each entry
/// says.
pub fn print_schedule(alloc: Global, schedules: &Schedules) -> Result<Vec<u8>, OutOfMemory>
    ensures { IfOk result (λ v. v.items ≡ schedule_text schedules.now) }
{
    let mut out = Vec::new(alloc);
    out.extend_from_slice(b"schedule 1\n")?;
    push_cycles(&mut out, schedules.cycles.as_slice())?;
    out.extend_from_slice(b"end\n")?;
    Ok(out)
}
