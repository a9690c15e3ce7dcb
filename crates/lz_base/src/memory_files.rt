ghost use Rattle.std.specs.Prelude.{◌≡◌, ◌<◌, ◌≤◌, ◌+◌, ◌-◌, ◌^◌, ◌↔◌, ◌⊎◌, IsTrue, length, take, drop, min, Some, None, MatchOption, IfSome, OnOk, OnErr, IfOk, IsErr, is_some};
ghost use Rattle.std.specs.Io.{ReadsAtMost};
ghost use Rattle.std.specs.Io.KnownBytes.{ReadConsumes};
ghost use Rattle.lz_base.specs.Causes.{HasCause, raised};
ghost use Rattle.lz_base.specs.MemoryFiles.{content_of, files_of, names_of, bytes_at, is_listed};
ghost use Rattle.lz_base.specs.Names.{AreDistinct};
ghost use Rattle.lz_base.specs.Outside.{Opened};

use crate::{Failed, Files};
use std::marker::Model;

/// Named files in memory, which tell their bytes. Calls of `open` and `read` are numbered from 0, and those whose
/// numbers are listed fail.
#[derive(Drop)]
pub struct MemFiles {
    files: Vec<(String, Vec<u8>)>,
    fail: Vec<u64>,
    at: Option<(usize, usize)>,
    next: u64,
    faults: u64,
}

impl Model for MemFiles {
    ghost use Rattle.std.specs.Prelude.{◌≡◌};
    ghost use Rattle.lz_base.specs.MemoryFiles.{FilesValue, files_of, rest_of, IsPlace};

    ghost Value = { FilesValue };

    ghost view = { λ m. record { files = files_of m.files.items; rest = rest_of (files_of m.files.items) m.at; fail = m.fail.items; next = m.next; faults = m.faults } };

    ghost invariant = { λ m. IsPlace (files_of m.files.items) m.at };
}

impl MemFiles {
    /// Files of these names and bytes, none of which is open. The calls whose numbers stand in `fail` will fail.
    pub fn new(files: Vec<(String, Vec<u8>)>, fail: Vec<u64>) -> MemFiles
        requires { AreDistinct (names_of (files_of files.items)) }
        ensures { result ≡ record { files = files_of files.items; rest = None; fail = fail.items; next = 0; faults = 0 } }
    {
        MemFiles {
            files,
            fail,
            at: None,
            next: 0,
            faults: 0,
        }
    }
}

// The index of the first file of this name.
fn find(files: &[(String, Vec<u8>)], name: &str) -> Option<usize>
    ensures { MatchOption result (content_of (files_of files.now) name.now ≡ None)
        (λ i. (i < length (files_of files.now)) × (content_of (files_of files.now) name.now ≡ Some (bytes_at (files_of files.now) i))) }
{
    for (i, file) in files.iter().enumerate() {
        if file.0.as_str() == name {
            return Some(i);
        }
    }
    None
}

// What is left of a file from a byte on.
#[tactic(auto, using(crate::proofs::Contents::bytes_at_is, crate::proofs::Contents::length_files_of, crate::proofs::Pieces::take_to_end))]
fn left_at(files: &[(String, Vec<u8>)], file: usize, byte: usize) -> &[u8]
    requires file { file < length (files_of files.now) }
    requires byte { byte ≤ length (bytes_at (files_of files.now) file) }
    ensures left { result.now ≡ drop byte (bytes_at (files_of files.now) file) }
    ensures fits { byte + length result.now < 2 ^ 64 }
{
    let bytes = files[file].1.as_slice();
    &bytes[byte..]
}

// Copies as much as there is room for, and says how many bytes.
fn copy_front(from: &[u8], to: &mut [u8]) -> usize
    ensures count { result ≡ min (length from.now) (length to.old) }
    ensures copied { take result to.new ≡ take result from.now }
{
    let count = from.len().min(to.len());
    to[..count].copy_from_slice(&from[..count]);
    count
}

impl Files for MemFiles {
    ghost use Rattle.std.specs.Prelude.{Some};
    ghost use Rattle.lz_base.specs.MemoryFiles.{content_of};

    ghost told = { λ m. Some (content_of m.files) };

    ghost rest = { λ m. m.rest };

    ghost faults = { λ m. m.faults };

    /// It fails exactly where the call is listed or there is no file of this name, and then nothing is open.
    fn open(&mut self, name: &str) -> Result<(), Failed>
        ensures opened { OnOk result (Opened (Some (content_of self.old.files)) name.now self.new.rest) }
        ensures kept { Some (content_of self.new.files) ≡ Some (content_of self.old.files) }
        ensures cause { HasCause self.old.faults self.new.faults result }

        // The answer, and the whole object after either.
        ensures fails { IsErr result ↔ (IsTrue (is_listed self.old.next self.old.fail) ⊎ (content_of self.old.files name.now ≡ None)) }
        ensures ok { OnOk result (self.new ≡ record self.old { rest = content_of self.old.files name.now; next = raised self.old.next }) }
        ensures err { OnErr result (self.new ≡ record self.old { rest = None; next = raised self.old.next; faults = raised self.old.faults }) }
    {
        let call = self.next;
        self.next = call.saturating_add(1);
        self.at = None;
        if self.fail.contains(&call) {
            self.faults = self.faults.saturating_add(1);
            return Err(Failed);
        }
        match find(&self.files, name) {
            Some(file) => {
                self.at = Some((file, 0));
                Ok(())
            }
            None => {
                self.faults = self.faults.saturating_add(1);
                Err(Failed)
            }
        }
    }

    /// It fails exactly where the call is listed or nothing is open, and then the open file stays where it was.
    fn read(&mut self, buf: &mut [u8]) -> Result<usize, Failed>
        ensures bound { ReadsAtMost result buf.new }
        ensures bytes { ReadConsumes self.old.rest self.new.rest result buf.new }
        ensures tells { is_some self.new.rest ≡ is_some self.old.rest }
        ensures kept { Some (content_of self.new.files) ≡ Some (content_of self.old.files) }
        ensures cause { HasCause self.old.faults self.new.faults result }

        // The answer, what was read, and the whole object after either.
        ensures fails { IsErr result ↔ (IsTrue (is_listed self.old.next self.old.fail) ⊎ (self.old.rest ≡ None)) }
        ensures ok { IfOk result (λ n. IfSome self.old.rest (λ left. (n ≡ min (length left) (length buf.old)) × (take n buf.new ≡ take n left) × (self.new ≡ record self.old { rest = Some (drop n left); next = raised self.old.next }))) }
        ensures err { OnErr result (self.new ≡ record self.old { next = raised self.old.next; faults = raised self.old.faults }) }
    {
        let call = self.next;
        self.next = call.saturating_add(1);
        match self.at {
            Some((file, byte)) if !self.fail.contains(&call) => {
                let count = copy_front(left_at(&self.files, file, byte), buf);
                self.at = Some((file, byte + count));
                Ok(count)
            }
            _ => {
                self.faults = self.faults.saturating_add(1);
                Err(Failed)
            }
        }
    }
}
