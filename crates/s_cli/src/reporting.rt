ghost use Rattle.std.specs.Prelude.{◌≡◌, ◌≤◌, ◌+◌, ◌++◌, length};
ghost use Rattle.arrayvec.specs.ArrayString.{array_string_len};
ghost use Rattle.s_cli.specs.Status.{Writes, refusal_line, status_line};

use crate::Status;
use arrayvec::ArrayString;
use itoa::Buffer;
use lz_base::{Fault, Sink, write_all};

/// More bytes than a refusal's line has.
const LINE: usize = 64;

// Appends a text for which there is room.
fn push_text(line: &mut ArrayString<LINE>, text: &str)
    requires { array_string_len line.old + length text.now ≤ LINE }
    ensures bytes { line.new.bytes ≡ line.old.bytes ++ text.now }
    ensures long { array_string_len line.new ≡ array_string_len line.old + length text.now }
{
    if line.try_push_str(text).is_err() {
        unreachable!();
    }
}

// The line of a refusal.
fn refusal(fault: Fault) -> ArrayString<LINE>
    ensures { result.bytes ≡ refusal_line fault }
{
    let mut line = ArrayString::new();
    let mut digits = Buffer::new();
    push_text(&mut line, "error: ");
    push_text(&mut line, fault.rule.text());
    push_text(&mut line, " at ");
    push_text(&mut line, digits.format(fault.at));
    push_text(&mut line, "\n");
    line
}

/// Writes bytes, and lets a fault be. It takes no memory.
pub(crate) fn write_line<E: Sink>(err: &mut E, bytes: &[u8])
    ensures { Writes (E.faults err.old) (E.faults err.new) (E.written err.old) (E.written err.new) bytes.now }
{
    match write_all(err, bytes) {
        Ok(()) => {}
        Err(_) => {}
    }
}

/// Writes the line of a status. It takes no memory, and a fault changes nothing else.
pub(crate) fn report<E: Sink>(err: &mut E, status: Status)
    ensures { Writes (E.faults err.old) (E.faults err.new) (E.written err.old) (E.written err.new) (status_line status) }
{
    match status {
        Status::Ok => {}
        Status::Refused(fault) => write_line(err, refusal(fault).as_bytes()),
        Status::Usage => write_line(err, b"error: usage\n"),
        Status::ReadFault => write_line(err, b"error: read\n"),
        Status::WriteFault => write_line(err, b"error: write\n"),
        Status::OutOfMemory => write_line(err, b"error: memory\n"),
    }
}
