ghost use Rattle.std.specs.Prelude.{◌≡◌, ◌≤◌, ◌<◌, [], ◌∷◌, Ok, Err, IfOk, length};
ghost use Rattle.v_parser.specs.Reading.{Reader, more_at, listed_at};
ghost use Rattle.v_parser.specs.Gives.{Gives};

use crate::miss::{Miss, Read};
use crate::tokens::{mark, next_is};
use lz_base::Items;
use std::alloc::Global;
use v_syntax::{Mark, Token};

// What stands in lists with commas between.
pub(crate) trait Part: Drop {
    // how one is read
    ghost reading: { Reader Self };

    fn read<'t>(alloc: Global, tokens: &'t [Token]) -> Read<'t, Self>
        ensures gives { Gives (λ x. (x.0, x.1.now)) result (reading tokens.now) }
        ensures shorter { IfOk result (λ x. length x.1.now < length tokens.now) };
}

// More parts behind commas.
#[tactic(auto, using(crate::proofs::Loop::more_stop, crate::proofs::Loop::more_step, crate::proofs::Loop::more_miss_in, crate::proofs::Loop::more_err_in))]
fn more<'t, P: Part>(alloc: Global, tokens: &'t [Token], first: P) -> Read<'t, Items<P>>
    ensures gives { Gives (λ x. (x.0, x.1.now)) result (more_at P.reading (first ∷ []) tokens.now) }
    ensures shorter { IfOk result (λ x. length x.1.now ≤ length tokens.now) }
{
    let mut parts = Items::new(alloc);
    parts.push(first)?;
    let mut left = tokens;
    while next_is(left, Mark::Comma) {
        let (_, rest) = mark(left, Mark::Comma)?;
        let (part, after) = P::read(alloc, rest)?;
        parts.push(part)?;
        left = after;
    }
    Ok((parts, left))
}

// Parts with commas between, at least one.
pub(crate) fn listed<'t, P: Part>(alloc: Global, tokens: &'t [Token]) -> Read<'t, Items<P>>
    ensures gives { Gives (λ x. (x.0, x.1.now)) result (listed_at P.reading tokens.now) }
    ensures shorter { IfOk result (λ x. length x.1.now < length tokens.now) }
{
    let (first, rest) = P::read(alloc, tokens)?;
    more(alloc, rest, first)
}
