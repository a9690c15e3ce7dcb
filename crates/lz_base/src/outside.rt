ghost use Rattle.std.specs.Prelude.{◌≡◌, ◌<◌, ℕ, List, Option, length, is_some, IfOk, OnOk};
ghost use Rattle.std.specs.Io.{ReadsAtMost, WritesAtMost};
ghost use Rattle.std.specs.Io.KnownBytes.{ReadConsumes, WriteAppends};
ghost use Rattle.lz_base.specs.Causes.{HasCause};
ghost use Rattle.lz_base.specs.Outside.{Told, Opened};

use crate::Failed;

/// Named files, of which one is open at a time. An object may tell its bytes or not, and no call changes that, nor
/// the bytes under a name. It counts the calls that fail: `Failed` comes only where the count rose, and an Ok leaves
/// the count as it was.
pub trait Files {
    // the bytes under each name, where the object tells them
    ghost told: { Self → Told };
    // what is left of the open file, where one is open and the object tells it
    ghost rest: { Self → Option (List ℕ) };
    // how many calls have failed
    ghost faults: { Self → ℕ };

    /// Opens the named file, from its start. A file that is missing is a fault.
    fn open(&mut self, name: &str) -> Result<(), Failed>
        ensures opened { OnOk result (Opened (told self.old) name.now (rest self.new)) }
        ensures kept { told self.new ≡ told self.old }
        ensures cause { HasCause (faults self.old) (faults self.new) result };

    /// Reads the next bytes of the open file into the front of the buffer, and says how many: at most the buffer's
    /// length, and at least one into a buffer that is not empty, or none exactly at the end. After `Failed` the open
    /// file is where it was.
    fn read(&mut self, buf: &mut [u8]) -> Result<usize, Failed>
        ensures bound { ReadsAtMost result buf.new }
        ensures bytes { ReadConsumes (rest self.old) (rest self.new) result buf.new }
        ensures tells { is_some (rest self.new) ≡ is_some (rest self.old) }
        ensures kept { told self.new ≡ told self.old }
        ensures cause { HasCause (faults self.old) (faults self.new) result };
}

/// What takes bytes. An object may tell the bytes so far or not, and no call changes that. It counts the calls that
/// fail: `Failed` comes only where the count rose, and an Ok leaves the count as it was.
pub trait Sink {
    // the bytes so far, where the object tells them
    ghost written: { Self → Option (List ℕ) };
    // how many calls have failed
    ghost faults: { Self → ℕ };

    /// Appends the front of the piece, and says how many bytes: at most the piece, and at least one of a piece that
    /// is not empty. After `Failed` nothing was appended.
    fn write(&mut self, piece: &[u8]) -> Result<usize, Failed>
        ensures bound { WritesAtMost result piece.now }
        ensures progress { IfOk result (λ n. 0 < length piece.now → 0 < n) }
        ensures bytes { WriteAppends (written self.old) (written self.new) result piece.now }
        ensures tells { is_some (written self.new) ≡ is_some (written self.old) }
        ensures cause { HasCause (faults self.old) (faults self.new) result };
}
