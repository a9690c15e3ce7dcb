ghost use Rattle.std.specs.Prelude.{◌≡◌};
ghost use Rattle.v_constants.specs.declared.miss.Miss.TheVariants as miss;

use lz_base::OutOfMemory;
use std::alloc::{AllocError, AllocFailed};

/// Why there is no value.
#[derive(Clone, Copy, Debug, PartialEq, Eq)]
pub enum Miss {
    /// The expression is no constant one with a proper value.
    Improper,
    /// No memory was found.
    OutOfMemory,
}

impl From<OutOfMemory> for Miss {
    ghost from_gives = { λ _ e. e ≡ miss.OutOfMemory };

    fn from(_e: OutOfMemory) -> Miss {
        Miss::OutOfMemory
    }
}
