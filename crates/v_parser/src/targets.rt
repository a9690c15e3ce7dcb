ghost use Rattle.std.specs.Prelude.{◌≡◌, ◌≤◌, ◌<◌, [], ◌∷◌, Ok, Err, IfOk, length};
ghost use Rattle.v_parser.specs.Reading.{more_at};
ghost use Rattle.v_parser.specs.Stmts.{target_part_at, target_index_at, place_at, braced_at, target_at};
ghost use Rattle.v_parser.specs.Gives.{Gives};

use crate::exprs::{bound, opened};
use crate::miss::{Miss, Read};
use crate::tokens::{before, beside, ident, mark, next_is};
use lz_base::Items;
use std::alloc::Global;
use v_syntax::{INNER_LEVELS, Ident, Mark, Placed, Range, Target, Token};

#[tactic(auto, unfolding(crate::specs::Stmts::target_part_at))]
fn target_part<'t>(
    alloc: Global,
    tokens: &'t [Token],
    name: Ident,
    bracket: u64,
    msb: Placed,
) -> Read<'t, Target>
    ensures gives { Gives (λ x. (x.0, x.1.now)) result (target_part_at name bracket msb tokens.now) }
    ensures shorter { IfOk result (λ x. length x.1.now < length tokens.now) }
{
    let ((name, msb), (lsb, rest)) = beside((name, msb), bound(alloc, tokens, INNER_LEVELS))?;
    let range = Range { bracket, msb, lsb };
    Ok((Target::Part { name, range }, rest))
}

#[tactic(auto, unfolding(crate::specs::Stmts::target_index_at))]
fn target_index<'t>(alloc: Global, tokens: &'t [Token], name: Ident) -> Read<'t, Target>
    ensures gives { Gives (λ x. (x.0, x.1.now)) result (target_index_at name tokens.now) }
    ensures shorter { IfOk result (λ x. length x.1.now < length tokens.now) }
{
    let (inner, rest) = opened(alloc, tokens, INNER_LEVELS)?;
    let (bracket, first) = inner;
    if next_is(rest, Mark::Colon) {
        target_part(alloc, rest, name, bracket, first)
    } else {
        let select = Target::Select {
            name,
            bracket,
            index: first.expr,
        };
        before(select, rest, Mark::CloseBracket)
    }
}

#[tactic(auto, unfolding(crate::specs::Stmts::place_at))]
fn place<'t>(alloc: Global, tokens: &'t [Token]) -> Read<'t, Target>
    ensures gives { Gives (λ x. (x.0, x.1.now)) result (place_at tokens.now) }
    ensures shorter { IfOk result (λ x. length x.1.now < length tokens.now) }
{
    let (name, rest) = ident(alloc, tokens)?;
    if next_is(rest, Mark::OpenBracket) {
        target_index(alloc, rest, name)
    } else {
        Ok((Target::Name(name), rest))
    }
}

// More targets behind commas.
#[cycle(targets)]
#[tactic(auto, using(crate::proofs::Loop::more_stop, crate::proofs::Loop::more_step))]
fn more_targets<'t>(
    alloc: Global,
    tokens: &'t [Token],
    depth: u32,
    first: Target,
) -> Read<'t, Items<Target>>
    ensures gives { Gives (λ x. (x.0, x.1.now)) result (more_at (target_at depth) (first ∷ []) tokens.now) }
    ensures shorter { IfOk result (λ x. length x.1.now ≤ length tokens.now) }
{
    let mut parts = Items::new(alloc);
    parts.push(first)?;
    let mut left = tokens;
    while next_is(left, Mark::Comma) {
        let (_, rest) = mark(left, Mark::Comma)?;
        let (part, after) = target(alloc, rest, depth)?;
        parts.push(part)?;
        left = after;
    }
    Ok((parts, left))
}

#[cycle(targets)]
#[tactic(auto, unfolding(crate::specs::Stmts::braced_at))]
fn braced<'t>(alloc: Global, tokens: &'t [Token], depth: u32) -> Read<'t, Target>
    ensures gives { Gives (λ x. (x.0, x.1.now)) result (braced_at (target_at depth) tokens.now) }
    ensures shorter { IfOk result (λ x. length x.1.now < length tokens.now) }
{
    let (brace, rest) = mark(tokens, Mark::OpenBrace)?;
    let (first, rest) = target(alloc, rest, depth)?;
    let (parts, rest) = more_targets(alloc, rest, depth, first)?;
    before(Target::Concat { brace, parts }, rest, Mark::CloseBrace)
}

#[cycle(targets)]
#[tactic(auto, using(crate::proofs::Depth::target_plain, crate::proofs::Depth::target_deep))]
pub(crate) fn target<'t>(alloc: Global, tokens: &'t [Token], depth: u32) -> Read<'t, Target>
    ensures gives { Gives (λ x. (x.0, x.1.now)) result (target_at depth tokens.now) }
    ensures shorter { IfOk result (λ x. length x.1.now < length tokens.now) }
{
    if 0 < depth && next_is(tokens, Mark::OpenBrace) {
        braced(alloc, tokens, depth - 1)
    } else {
        place(alloc, tokens)
    }
}
