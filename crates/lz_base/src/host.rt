ghost use Rattle.std.specs.Prelude.{◌≡◌, ◌≤◌, ◌<◌, length, true, false, is_some, IfOk, IfSome, OnOk, OnErr, IsErr};
ghost use Rattle.std.specs.Io.{ReadsAtMost, WritesAtMost};
ghost use Rattle.std.specs.Io.KnownBytes.{ReadConsumes, WriteAppends};
ghost use Rattle.lz_base.specs.Causes.{HasCause, raised};
ghost use Rattle.lz_base.specs.Host.{untold, unknown};
ghost use Rattle.lz_base.specs.Outside.{Opened};

use crate::{Failed, Files, Sink};
use std::io::{ErrorKind, Read, Write};
use std::marker::Model;
use std::{fs, io};

/// How often a call is made at most: once, and again up to 1000 times while it is interrupted.
const ATTEMPTS: u32 = 1001;

/// The files of the system. They tell no bytes. A call that fails, or is interrupted once too often, is counted.
#[derive(Drop)]
pub struct HostFiles<'a, R: std::rt::Files> {
    rt: &'a R,
    file: Option<R::File>,
    faults: u64,
}

impl<'a, R: std::rt::Files> Model for HostFiles<'a, R> {
    ghost use Rattle.std.specs.Prelude.{is_some};
    ghost use Rattle.lz_base.specs.Host.{HostFilesValue};

    ghost Value = { HostFilesValue };

    ghost view = { λ h. record { is_open = is_some h.file; faults = h.faults } };
}

impl<'a, R: std::rt::Files> HostFiles<'a, R> {
    /// The files that this runtime reaches. None is open, and no call has failed.
    pub fn new(rt: &'a R) -> HostFiles<'a, R>
        ensures { result ≡ record { is_open = false; faults = 0 } }
    {
        HostFiles {
            rt,
            file: None,
            faults: 0,
        }
    }
}

impl<'a, R: std::rt::Files> Files for HostFiles<'a, R> {
    ghost use Rattle.lz_base.specs.Host.{untold, unknown};

    ghost told = { λ _. untold };

    ghost rest = { λ _. unknown };

    ghost faults = { λ s. s.faults };

    /// After a failure nothing is open.
    fn open(&mut self, name: &str) -> Result<(), Failed>
        ensures opened { OnOk result (Opened untold name.now unknown) }
        ensures kept { untold ≡ untold }
        ensures cause { HasCause self.old.faults self.new.faults result }

        // The whole object after either answer.
        ensures ok { OnOk result (self.new ≡ record self.old { is_open = true }) }
        ensures err { OnErr result (self.new ≡ record { is_open = false; faults = raised self.old.faults }) }
    {
        self.file = open_again(self.rt, name);
        if self.file.is_some() {
            return Ok(());
        }
        self.faults = self.faults.saturating_add(1);
        Err(Failed)
    }

    /// It fails where nothing is open.
    fn read(&mut self, buf: &mut [u8]) -> Result<usize, Failed>
        ensures bound { ReadsAtMost result buf.new }
        ensures bytes { ReadConsumes unknown unknown result buf.new }
        ensures tells { is_some unknown ≡ is_some unknown }
        ensures kept { untold ≡ untold }
        ensures cause { HasCause self.old.faults self.new.faults result }

        // The whole object after either answer.
        ensures closed { self.old.is_open ≡ false → IsErr result }
        ensures ok { OnOk result (self.new ≡ self.old) }
        ensures err { OnErr result (self.new ≡ record self.old { faults = raised self.old.faults }) }
    {
        let read = match &mut self.file {
            Some(file) => read_again(file, buf),
            None => None,
        };
        match read {
            Some(count) => Ok(count),
            None => {
                self.faults = self.faults.saturating_add(1);
                Err(Failed)
            }
        }
    }
}

// Opens a file, and tries again while the call is interrupted.
fn open_again<R: std::rt::Files>(rt: &R, name: &str) -> Option<R::File> {
    for _ in 0..ATTEMPTS {
        match fs::open(rt, name) {
            Ok(file) => return Some(file),
            Err(e) if e.kind() == ErrorKind::Interrupted => {}
            Err(_) => return None,
        }
    }
    None
}

// Reads once, and tries again while the call is interrupted.
fn read_again<R: Read>(reader: &mut R, buf: &mut [u8]) -> Option<usize>
    ensures { IfSome result (λ n. n ≤ length buf.new) }
{
    for _ in 0..ATTEMPTS {
        match reader.read(buf) {
            Ok(count) => return Some(count),
            Err(e) if e.kind() == ErrorKind::Interrupted => {}
            Err(_) => return None,
        }
    }
    None
}

/// A writer of the system, as standard output and standard error are. It tells no bytes, and is flushed after each
/// write. A call that fails, is interrupted once too often or takes no byte of a piece that is not empty is counted.
#[derive(Drop)]
pub struct HostSink<W: Write + Drop> {
    writer: W,
    faults: u64,
}

impl<W: Write + Drop> Model for HostSink<W> {
    ghost use Rattle.lz_base.specs.Host.{HostSinkValue};

    ghost Value = { HostSinkValue };

    ghost view = { λ h. record { faults = h.faults } };
}

impl<W: Write + Drop> HostSink<W> {
    /// A sink that writes to this writer. No call has failed.
    pub fn new(writer: W) -> HostSink<W>
        ensures { result ≡ record { faults = 0 } }
    {
        HostSink { writer, faults: 0 }
    }
}

impl<W: Write + Drop> Sink for HostSink<W> {
    ghost use Rattle.lz_base.specs.Host.{unknown};

    ghost written = { λ _. unknown };

    ghost faults = { λ s. s.faults };

    fn write(&mut self, piece: &[u8]) -> Result<usize, Failed>
        ensures bound { WritesAtMost result piece.now }
        ensures progress { IfOk result (λ n. 0 < length piece.now → 0 < n) }
        ensures bytes { WriteAppends unknown unknown result piece.now }
        ensures tells { is_some unknown ≡ is_some unknown }
        ensures cause { HasCause self.old.faults self.new.faults result }

        // A failure is counted, also where the count stands at its last number.
        ensures err { OnErr result (self.new ≡ record { faults = raised self.old.faults }) }
    {
        match write_again(&mut self.writer, piece) {
            Some(count) if flush_again(&mut self.writer) => Ok(count),
            _ => {
                self.faults = self.faults.saturating_add(1);
                Err(Failed)
            }
        }
    }
}

// Writes once, and tries again while the call is interrupted. No byte of a piece that is not empty is a failure.
fn write_again<W: Write>(writer: &mut W, piece: &[u8]) -> Option<usize>
    ensures { IfSome result (λ n. (n ≤ length piece.now) × (0 < length piece.now → 0 < n)) }
{
    for _ in 0..ATTEMPTS {
        match writer.write(piece) {
            Ok(0) if !piece.is_empty() => return None,
            Ok(count) => return Some(count),
            Err(e) if e.kind() == ErrorKind::Interrupted => {}
            Err(_) => return None,
        }
    }
    None
}

// Flushes, and tries again while the call is interrupted. It says whether that was done.
fn flush_again<W: Write>(writer: &mut W) -> bool {
    for _ in 0..ATTEMPTS {
        match writer.flush() {
            Ok(()) => return true,
            Err(e) if e.kind() == ErrorKind::Interrupted => {}
            Err(_) => return false,
        }
    }
    false
}
