ghost use Rattle.std.specs.Prelude.{◌≡◌, ◌⊎◌, ◌+◌, ◌<◌, ◌^◌, ◌++◌, true, false, flat_map, length, IfOk, OnOk};
ghost use Rattle.lz_lines.specs.Fields.{number};
ghost use Rattle.lz_lines.specs.Forms.{Anything, Obtains};
ghost use Rattle.lz_lines.specs.Readers.{begins_field};
ghost use Rattle.t_choices.specs.Places.{entry_places};
ghost use Rattle.t_choices.specs.Repeated.{Spelled};
ghost use Rattle.t_choices.specs.ScheduleTexts.{AreProcesses, BeforeEnd, cycle_line};

use lz_base::{Items, OutOfMemory};
use lz_lines::{Unread, end_line, push_line_end, push_number, read_number, read_word};
use std::alloc::Global;

/// The numbers of processes in a line, the byte at which each of them stands, and last that of the line's end.
#[derive(Drop)]
pub(crate) struct Line {
    pub entries: Items<u32>,
    pub places: Items<u64>,
}

// Whether a field comes next.
fn begins_field(bytes: &[u8]) -> bool
    ensures { result ≡ begins_field bytes.now }
{
    match bytes.first() {
        Some(byte) => *byte == b' ',
        None => false,
    }
}

// Whether an entry has to come next: without processes there is none.
fn wants_entry(processes: u32, bytes: &[u8]) -> bool
    ensures some { result ≡ true → (0 < processes) × (begins_field bytes.now ≡ true) }
    ensures none { result ≡ false → (processes ≡ 0) ⊎ (begins_field bytes.now ≡ false) }
{
    if processes == 0 {
        return false;
    }
    begins_field(bytes)
}

// Takes the numbers of a line, which begin at this byte.
fn read_entries<'a>(
    alloc: Global,
    bytes: &'a [u8],
    processes: u32,
    start: u64,
) -> Result<(Line, &'a [u8]), Unread>
    requires { start + length bytes.now < 2 ^ 64 }
    ensures places { IfOk result (λ r. r.0.places ≡ entry_places start r.0.entries) }
    ensures reads { Obtains (Spelled (flat_map number) (AreProcesses processes)) BeforeEnd (λ r. r.0.entries) (λ r. r.1.now) bytes.now result }
{
    let mut entries = Vec::new(alloc);
    let mut places = Vec::new(alloc);
    let mut left = bytes;
    let mut at = start;
    'numbers: while wants_entry(processes, left) {
        let (number, rest) = read_number(left, 0, u128::from(processes - 1))?;
        entries.push(number as u32)?;
        places.push(at + 1)?;
        at += (left.len() - rest.len()) as u64;
        left = rest;
    }
    places.push(at)?;
    let line = Line {
        entries: Items::from_vec(entries),
        places: Items::from_vec(places),
    };
    Ok((line, left))
}

/// Takes the line of a cycle, which begins at this byte.
pub(crate) fn read_cycle<'a>(
    alloc: Global,
    bytes: &'a [u8],
    processes: u32,
    at: u64,
) -> Result<(Line, &'a [u8]), Unread>
    requires { at + length bytes.now < 2 ^ 64 }
    ensures places { IfOk result (λ r. r.0.places ≡ entry_places (at + 5) r.0.entries) }
    ensures reads { Obtains (Spelled cycle_line (AreProcesses processes)) Anything (λ r. r.0.entries) (λ r. r.1.now) bytes.now result }
{
    let rest = read_word(bytes, b"cycle")?;
    let (line, rest) = read_entries(alloc, rest, processes, at + 5)?;
    let places = line.places;
    let (entries, rest) = end_line(line.entries, rest)?;
    Ok((Line { entries, places }, rest))
}

fn push_entries(out: &mut Vec<u8>, entries: &[u32]) -> Result<(), OutOfMemory>
    ensures { OnOk result (out.new.items ≡ out.old.items ++ flat_map number entries.now) }
{
    for entry in entries {
        push_number(out, u128::from(*entry))?;
    }
    Ok(())
}

/// Appends the line of a cycle.
pub(crate) fn push_cycle(out: &mut Vec<u8>, entries: &[u32]) -> Result<(), OutOfMemory>
    ensures { OnOk result (out.new.items ≡ out.old.items ++ cycle_line entries.now) }
{
    out.extend_from_slice(b"cycle")?;
    push_entries(out, entries)?;
    push_line_end(out)
}
