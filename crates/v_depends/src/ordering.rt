ghost use Rattle.std.specs.Prelude.{◌≡◌, ◌++◌, ◌∷◌, [], List, ℕ, map, IfOk, OnOk};
ghost use Rattle.v_meaning.specs.Uses as m;
ghost use Rattle.v_meaning.specs.ProcessRules.{assign_targets, assigned_again, circular, combinational_of};
ghost use Rattle.v_uses.specs.Seen.{assign_seen, seen_of};
ghost use Rattle.v_uses.specs.Gathered.{assign_in, uses_in};
ghost use Rattle.v_depends.specs.Graphs.{Numbers, place};
ghost use Rattle.v_depends.specs.Orders.{IsOrder, if_some, names_from, numbers_of, row_of};

use crate::graph::number;
use crate::turns::all_turns;
use lz_base::{Items, OutOfMemory};
use std::alloc::Global;
use std::collections::BTreeMap;
use v_syntax::Ident;
use v_uses::{AssignUses, Uses};

// The targets of assigns, numbered as the assigns are where each is the target of one.
fn target_numbers<'a>(
    alloc: Global,
    assigns: &[AssignUses<'a>],
) -> Result<BTreeMap<&'a [u8], usize>, OutOfMemory>
    ensures { IfOk result (λ numbers. Numbers numbers (names_from [] (map assign_in assigns.now))) }
{
    let mut numbers = BTreeMap::new(alloc);
    for assign in assigns {
        number(&mut numbers, assign.target.name.bytes())?;
    }
    Ok(numbers)
}

// Appends the number of a name, if it has one.
fn add_number(
    numbers: &BTreeMap<&[u8], usize>,
    name: &Ident,
    row: &mut Items<usize>,
) -> Result<(), OutOfMemory>
    ensures { OnOk result ((names : List (List ℕ)) → Numbers numbers.now names → row.new ≡ row.old ++ if_some (place names name.now.name)) }
{
    match numbers.get(name.name.bytes()) {
        Some(number) => Ok(row.push(*number)?),
        None => Ok(()),
    }
}

// The numbers of names, of those that have one.
fn numbers_among(
    alloc: Global,
    numbers: &BTreeMap<&[u8], usize>,
    reads: &[&Ident],
) -> Result<Items<usize>, OutOfMemory>
    ensures { IfOk result (λ row. (names : List (List ℕ)) → Numbers numbers.now names → row ≡ numbers_of names (map (λ n. n.now) reads.now)) }
{
    let mut row = Items::new(alloc);
    for read in reads {
        add_number(numbers, read, &mut row)?;
    }
    Ok(row)
}

// For each assign, the numbers of the names that it reads.
fn rows_among(
    alloc: Global,
    numbers: &BTreeMap<&[u8], usize>,
    assigns: &[AssignUses<'_>],
) -> Result<Vec<Items<usize>>, OutOfMemory>
    ensures { IfOk result (λ rows. (names : List (List ℕ)) → Numbers numbers.now names → rows.items ≡ map (row_of names) (map assign_in assigns.now)) }
{
    let mut rows = Vec::new(alloc);
    for assign in assigns {
        rows.push(numbers_among(alloc, numbers, assign.reads.as_slice())?)?;
    }
    Ok(rows)
}

/// The assigns, by their numbers in text order, in an order in which each stands behind all those whose targets it reads, so
/// that nets which are computed in this order have settled (IEEE Std 1364-2005, 6.1.2). It is promised of a module whose
/// processes are all clocked, which assigns no net twice (P6) and none that depends on itself (P7). `OutOfMemory` is the
/// only other answer. The work is n log n in the assigns and their reads.
pub fn order(alloc: Global, uses: &Uses<'_>) -> Result<Vec<usize>, OutOfMemory>
    ensures { IfOk result (λ order. (u : m.Uses) → uses_in uses.now ≡ seen_of u → combinational_of u ≡ [] → assigned_again [] (assign_targets u) ≡ [] → circular u ≡ [] → IsOrder (map assign_seen u.assigns) order.items) }
{
    let assigns = uses.assigns.as_slice();
    let numbers = target_numbers(alloc, assigns)?;
    let rows = rows_among(alloc, &numbers, assigns)?;
    all_turns(alloc, rows.as_slice())
}
