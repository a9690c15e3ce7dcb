ghost use Rattle.std.specs.Prelude.{◌≡◌, ◌≤◌, length, IfOk};
ghost use Rattle.lz_base.specs.Answers.{Answers, IfFault};
ghost use Rattle.lz_base.specs.Limits.{text_limit};
ghost use Rattle.n_cells.specs.Form.{HasForm};
ghost use Rattle.n_cells.specs.Netlist.{NetlistValue, IsWellFormed};
ghost use Rattle.n_cells.specs.Text.{text};
ghost use Rattle.n_text.specs.Answers.{IsRefusal, IsTextOf};

use crate::raw::lend;
use crate::raw_reading::read_raw;
use crate::references::judge;
use lz_base::{Rule, Stop};
use n_cells::{Format, Netlist};
use n_parts::make;
use std::alloc::Global;

/// The netlist whose text in format 2 the bytes are.
///
/// The fault N1 comes exactly where the bytes do not have the lines and fields of such a text, and its place is the
/// length of the longest prefix with which one begins. The fault N2 comes exactly where they have, and a net is not
/// there or a name of the clock, an input or an output stands twice among these; its place is the least byte of such a
/// number, or of such a name where it stands again.
pub fn read(alloc: Global, bytes: &[u8]) -> Result<Netlist, Stop>
    requires { length bytes.now ≤ text_limit }
    ensures found { IfOk result (λ n. bytes.now ≡ text Format.Two n) }
    ensures text { IfOk result (IsTextOf Format.Two bytes.now) }
    ensures formed { IfOk result IsWellFormed }
    ensures only { (n : NetlistValue) → HasForm Format.Two n → IsWellFormed n → bytes.now ≡ text Format.Two n → Answers (λ r. r) result n }
    ensures fault { IfFault result (IsRefusal Format.Two bytes.now) }
{
    read_in(alloc, Format::Two, bytes)
}

/// The netlist whose text in format 1 the bytes are: the enable of each of its flip-flops is the constant 1, and its
/// look-up tables have at most four leaves. The faults N1 and N2 come as those of `read`, for the texts of format 1.
pub fn read_old(alloc: Global, bytes: &[u8]) -> Result<Netlist, Stop>
    requires { length bytes.now ≤ text_limit }
    ensures found { IfOk result (λ n. bytes.now ≡ text Format.One n) }
    ensures text { IfOk result (IsTextOf Format.One bytes.now) }
    ensures formed { IfOk result IsWellFormed }
    ensures only { (n : NetlistValue) → HasForm Format.One n → IsWellFormed n → bytes.now ≡ text Format.One n → Answers (λ r. r) result n }
    ensures fault { IfFault result (IsRefusal Format.One bytes.now) }
{
    read_in(alloc, Format::One, bytes)
}

// The netlist whose text in this format the bytes are.
fn read_in(alloc: Global, format: Format, bytes: &[u8]) -> Result<Netlist, Stop>
    requires { length bytes.now ≤ text_limit }
    ensures text { IfOk result (IsTextOf format bytes.now) }
    ensures formed { IfOk result IsWellFormed }
    ensures only { (n : NetlistValue) → HasForm format n → IsWellFormed n → bytes.now ≡ text format n → Answers (λ r. r) result n }
    ensures fault { IfFault result (IsRefusal format bytes.now) }
{
    let raw = match read_raw(alloc, format, bytes) {
        Ok(raw) => raw,
        Err(unread) => return Err(unread.stop(bytes.len(), Rule::N1)),
    };
    judge(alloc, format, lend(&raw))?;
    Ok(make(alloc, raw)?)
}
