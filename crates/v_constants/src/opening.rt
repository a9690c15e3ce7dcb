ghost use Rattle.std.specs.Prelude.{◌≡◌, ◌≤◌, ◌<◌, ◌^◌, ◌*◌, ◌&&◌, Some, false};
ghost use Rattle.v_meaning.specs.Senses.{constant, chained, joined, leaf, replicated};
ghost use Rattle.v_meaning.specs.Proper.{is_proper, is_between_1_and_128};
ghost use Rattle.v_constants.specs.Bodies.{sense_in, IsOpen};
ghost use Rattle.v_constants.specs.Constants.{constant_sense};
ghost use Rattle.v_constants.specs.Verdicts.{Opens, Counts, Joins, senses, link_senses, are_links_proper, are_parts};

use crate::body::Open;
use crate::known::number_of;
use crate::leaves::{is_unsized, name, number};
use crate::miss::Miss;
use crate::operators::{chosen, leaf, operated, own, prefixed, recast};
use lz_base::Word;
use std::alloc::Global;
use v_names::Names;
use v_syntax::{BinaryOperator, Expr};
use v_words::{beside, copies};

/// The constant of a constant expression with a proper value, at any final width and sign; a miss where it is no such
/// expression (IEEE Std 1364-2005, 4.10.1 and 5). Each node is visited once.
#[cycle(opening)]
pub fn opened(alloc: Global, names: &Names, x: &Expr) -> Result<Open, Miss>
    ensures { Opens (is_proper names.now x.now) (constant_sense names.now x.now) result }
{
    match x {
        Expr::Number(n) => number(n),
        Expr::Name(ident) => name(names, ident),
        Expr::Select { .. } => Err(Miss::Improper),
        Expr::Part { .. } => Err(Miss::Improper),
        Expr::Unary(operator, x) => {
            let x = opened(alloc, names, x.get())?;
            let o = prefixed(alloc, *operator, x)?;
            Ok(o)
        }
        Expr::Chain(first, links) => {
            let first = opened(alloc, names, first.get())?;
            let o = chained(alloc, names, first, links.as_slice())?;
            Ok(o)
        }
        Expr::Conditional(c, x, y) => {
            let c = opened(alloc, names, c.get())?;
            let x = opened(alloc, names, x.get())?;
            let y = opened(alloc, names, y.get())?;
            Ok(chosen(&c, x, y))
        }
        Expr::Concat { parts, .. } => {
            let word = joined(alloc, names, 1, parts.as_slice())?;
            Ok(unsigned(word))
        }
        Expr::Replicate { count, parts, .. } => {
            let count = opened(alloc, names, count.get())?;
            let count = count_of(&count)?;
            let word = joined(alloc, names, count, parts.as_slice())?;
            Ok(replicated(count, word))
        }
        Expr::Cast(sign, x) => {
            let x = opened(alloc, names, x.get())?;
            Ok(recast(*sign, &x))
        }
    }
}

// A chain behind its first operand, from the left.
#[cycle(opening)]
fn chained(
    alloc: Global,
    names: &Names,
    first: Open,
    links: &[(BinaryOperator, Expr)],
) -> Result<Open, Miss>
    requires kept { IsOpen first }
    ensures { Opens (are_links_proper names.now links.now) (chained (sense_in first) (link_senses names.now links.now)) result }
{
    let mut all = first;
    for (operator, x) in links {
        let y = opened(alloc, names, x)?;
        all = operated(alloc, *operator, all, y)?;
    }
    Ok(all)
}

// Operands side by side, of which there is room for so many copies.
#[cycle(opening)]
fn joined(alloc: Global, names: &Names, count: u32, parts: &[Expr]) -> Result<Word, Miss>
    requires has_one { 1 ≤ count }
    requires within { count ≤ 128 }
    ensures { Joins count (are_parts names.now count parts.now) (joined (senses names.now parts.now)) result }
{
    let mut width = 0u32;
    let mut value = 0u128;
    for x in parts {
        if is_unsized(x) {
            return Err(Miss::Improper);
        }
        let part = opened(alloc, names, x)?;
        if width + part.width > 128 {
            return Err(Miss::Improper);
        }
        value = beside(width, value, part.width, own(&part));
        width += part.width;
    }
    whole(count, width, value)
}

// A word, of which there is room for so many copies.
fn whole(count: u32, width: u32, value: u128) -> Result<Word, Miss>
    requires has_one { 1 ≤ count }
    requires count_within { count ≤ 128 }
    requires within { width ≤ 128 }
    requires fits { value < 2 ^ width }
    ensures { Joins count (is_between_1_and_128 (Some (count * width))) (leaf width false (λ v. value)) result }
{
    if width == 0 || count * width > 128 {
        return Err(Miss::Improper);
    }
    Ok(Word { width, value })
}

// The count of a replication.
fn count_of(x: &Open) -> Result<u32, Miss>
    requires { IsOpen x.now }
    ensures { Counts (constant (sense_in x.now)) result }
{
    match number_of(x) {
        Some(n) if 1 <= n && n <= 128 => Ok(n as u32),
        _ => Err(Miss::Improper),
    }
}

// A word as a constant, which is unsigned.
fn unsigned(word: Word) -> Open
    ensures sense { sense_in result ≡ leaf word.width false (λ v. word.value) }
    ensures kept { IsOpen result }
{
    leaf(word.width, false, word.value)
}

// So many copies of a word.
fn replicated(count: u32, word: Word) -> Open
    requires has_one { 1 ≤ count }
    requires narrow { count * word.width ≤ 128 }
    ensures sense { sense_in result ≡ replicated count (leaf word.width false (λ v. word.value)) }
    ensures kept { IsOpen result }
{
    leaf(
        count * word.width,
        false,
        copies(count, word.width, word.value),
    )
}
