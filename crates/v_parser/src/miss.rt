ghost use Rattle.std.specs.Prelude.{◌≡◌};
ghost use Rattle.v_parser.specs.declared.miss.Miss.TheVariants as misses;

use lz_base::OutOfMemory;
use std::alloc::{AllocError, AllocFailed};
use v_syntax::Token;

// Why a reading ended: at the first of these tokens, or for want of memory.
pub(crate) enum Miss<'t> {
    At(&'t [Token]),
    OutOfMemory,
}

// What was read, and the tokens behind it.
pub(crate) type Read<'t, T> = Result<(T, &'t [Token]), Miss<'t>>;

impl<'t> From<OutOfMemory> for Miss<'t> {
    ghost from_gives = { λ _ e. e ≡ misses.OutOfMemory };

    fn from(_e: OutOfMemory) -> Miss<'t> {
        Miss::OutOfMemory
    }
}

impl<'t> From<AllocError> for Miss<'t> {
    ghost from_gives = { λ _ e. e ≡ misses.OutOfMemory };

    fn from(_e: AllocError) -> Miss<'t> {
        Miss::OutOfMemory
    }
}

impl<'t, T: Drop> From<AllocFailed<T>> for Miss<'t> {
    ghost from_gives = { λ _ e. e ≡ misses.OutOfMemory };

    fn from(_e: AllocFailed<T>) -> Miss<'t> {
        Miss::OutOfMemory
    }
}
