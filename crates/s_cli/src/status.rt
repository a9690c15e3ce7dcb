ghost use Rattle.std.specs.Prelude.{◌≡◌};
ghost use Rattle.s_cli.specs.declared.status.Status.TheVariants as status;
ghost use Rattle.s_cli.specs.Status.{status_by};

use lz_base::{Fault, OutOfMemory, Stop};
use std::alloc::AllocFailed;

/// What a run ends with.
#[derive(Clone, Copy, Debug, PartialEq, Eq)]
pub enum Status {
    /// The whole output was written.
    Ok,
    /// A file breaks this rule at this byte.
    Refused(Fault),
    /// The words are of no form.
    Usage,
    /// A call on the files failed.
    ReadFault,
    /// A call on the output failed.
    WriteFault,
    /// Memory was wanting.
    OutOfMemory,
}

impl Status {
    ghost use Rattle.s_cli.specs.Status.{status_code};

    /// The number with which the program ends.
    pub fn code(&self) -> u8
        ensures { result ≡ status_code self.now }
    {
        match self {
            Status::Ok => 0,
            Status::Refused(_) => 1,
            Status::Usage => 2,
            Status::ReadFault => 3,
            Status::WriteFault => 4,
            Status::OutOfMemory => 5,
        }
    }
}

impl From<Stop> for Status {
    ghost from_gives = { λ stop s. s ≡ status_by stop };

    fn from(stop: Stop) -> Status {
        match stop {
            Stop::Fault(fault) => Status::Refused(fault),
            Stop::OutOfMemory => Status::OutOfMemory,
        }
    }
}

impl From<OutOfMemory> for Status {
    ghost from_gives = { λ _ s. s ≡ status.OutOfMemory };

    fn from(_e: OutOfMemory) -> Status {
        Status::OutOfMemory
    }
}

impl<T: Drop> From<AllocFailed<T>> for Status {
    ghost from_gives = { λ _ s. s ≡ status.OutOfMemory };

    fn from(_e: AllocFailed<T>) -> Status {
        Status::OutOfMemory
    }
}
