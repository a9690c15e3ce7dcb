ghost use Rattle.std.specs.Prelude.{◌≡◌, ◌++◌, codes, IfOk, OnOk};
ghost use Rattle.s_map.specs.Notes.{check_text, refusal_note, unreadable_note, verdict_note};

use lz_base::{Num, OutOfMemory};
use lz_lines::{push_line_end, push_number};
use m_valid::{Check, Verdict};
use std::alloc::Global;

// The name of a check.
fn check_text(check: Check) -> &'static [u8]
    ensures { result.now ≡ check_text check }
{
    match check {
        Check::V1 => b"V1",
        Check::V2 => b"V2",
        Check::V3 => b"V3",
        Check::V4 => b"V4",
        Check::V5 => b"V5",
    }
}

// The note that a proposal breaks a check at a place.
fn refusal_note(alloc: Global, check: Check, at: Num) -> Result<Vec<u8>, OutOfMemory>
    ensures { IfOk result (λ v. v.items ≡ refusal_note check at) }
{
    let mut note = Vec::new(alloc);
    note.extend_from_slice(b"note: proposal refused ")?;
    note.extend_from_slice(check_text(check))?;
    note.extend_from_slice(b" at")?;
    push_number(&mut note, at)?;
    push_line_end(&mut note)?;
    Ok(note)
}

/// The note on a proposal's verdict, which is empty where the proposal is valid.
pub(crate) fn verdict_note(alloc: Global, verdict: Verdict) -> Result<Vec<u8>, OutOfMemory>
    ensures { IfOk result (λ v. v.items ≡ verdict_note verdict) }
{
    match verdict {
        Verdict::Valid => Ok(Vec::new(alloc)),
        Verdict::Broken { check, at } => refusal_note(alloc, check, at),
    }
}

/// The note that a file spells no proposal.
pub(crate) fn unreadable_note(alloc: Global) -> Result<Vec<u8>, OutOfMemory>
    ensures { IfOk result (λ v. v.items ≡ unreadable_note) }
{
    let mut note = Vec::new(alloc);
    note.extend_from_slice(b"note: proposal unreadable\n")?;
    Ok(note)
}
