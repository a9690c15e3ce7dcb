ghost use Rattle.std.specs.Prelude.{◌≡◌, ◌≤◌, ◌<◌, ◌∷◌, [], List, ℕ, false, true, length, slice_index, slice_set, IfOk, OnOk};
ghost use Rattle.v_depends.specs.Nodes.{is_in, is_marked, row};
ghost use Rattle.v_depends.specs.Turning.{Advances, AreAllTurns, AreTurns, AreWaiting, AreWithin, Lacks};

use crate::marking::Marks;
use crate::rows::{add_source, empty_rows, row_of};
use crate::walking::{Reached, reach};
use lz_base::{Items, OutOfMemory};
use std::alloc::Global;

/// The nodes that have come, and for each node how many of its row have come for sure.
#[derive(Drop)]
pub struct Turns {
    pub reached: Reached,
    pub passed: Vec<usize>,
}

// Where in a row, from a place on, the first node stands that has not come; else the row's end.
fn next_missing(row: &[usize], marks: &Marks, from: usize) -> usize
    ensures passes { (k : ℕ) → from ≤ k → k < result → is_marked marks.now (slice_index row.now k) ≡ true }
    ensures stops { result < length row.now → is_marked marks.now (slice_index row.now result) ≡ false }
{
    let mut at = from;
    while at < row.len() {
        if !marks.has(row[at]) {
            return at;
        }
        at += 1;
    }
    at
}

// How many of a node's row have come for sure.
fn passed_of(passed: &[usize], node: usize) -> usize
    ensures { result ≡ slice_index passed.now node }
{
    match passed.get(node) {
        Some(count) => *count,
        None => 0,
    }
}

// So many of a node's row have come.
fn set_passed(passed: &mut Vec<usize>, node: usize, count: usize)
    ensures { passed.new.items ≡ slice_set passed.old.items node count }
{
    if node < passed.len() {
        passed[node] = count;
    }
}

// Whether all of a node's row have come. It is looked at from the first on that had not come before.
fn has_passed(turns: &mut Turns, needed: &[usize], node: usize) -> bool
    ensures same { turns.new.reached ≡ turns.old.reached }
    ensures turns { (rows : List (List ℕ)) → needed.now ≡ row rows node → AreTurns rows turns.old → AreTurns rows turns.new }
    ensures all { (rows : List (List ℕ)) → needed.now ≡ row rows node → AreTurns rows turns.old → result ≡ true → AreWithin needed.now turns.old.reached.order.items }
    ensures some { (rows : List (List ℕ)) → needed.now ≡ row rows node → AreTurns rows turns.old → result ≡ false → Lacks needed.now turns.old.reached.order.items }
{
    let from = passed_of(turns.passed.as_slice(), node);
    let at = next_missing(needed, &turns.reached.marks, from);
    set_passed(&mut turns.passed, node, at);
    needed.len() <= at
}

// A node has its turn: it comes, if all of its row have come.
fn advance(turns: &mut Turns, rows: &[Items<usize>], node: usize) -> Result<(), OutOfMemory>
    ensures { OnOk result (AreTurns rows.now turns.old → Advances rows.now turns.old.reached.order.items (node ∷ []) turns.new) }
{
    if has_passed(turns, row_of(rows, node), node) {
        reach(&mut turns.reached, node)?;
    }
    Ok(())
}

// Each of these nodes has its turn.
fn advance_all(turns: &mut Turns, rows: &[Items<usize>], nodes: &[usize]) -> Result<(), OutOfMemory>
    ensures { OnOk result (AreTurns rows.now turns.old → Advances rows.now turns.old.reached.order.items nodes.now turns.new) }
{
    for node in nodes {
        advance(turns, rows, *node)?;
    }
    Ok(())
}

// ---- who waits for whom

// A node waits for each of these.
fn wait_for(
    waiting: &mut Vec<Items<usize>>,
    node: usize,
    needed: &[usize],
) -> Result<(), OutOfMemory>
    ensures long { OnOk result (length waiting.new.items ≡ length waiting.old.items) }
    ensures keeps { OnOk result ((other on : ℕ) → is_in other (row waiting.old.items on) ≡ true → is_in other (row waiting.new.items on) ≡ true) }
    ensures adds { OnOk result ((on : ℕ) → is_in on needed.now ≡ true → on < length waiting.old.items → is_in node (row waiting.new.items on) ≡ true) }
{
    for on in needed {
        add_source(waiting, (node, *on))?;
    }
    Ok(())
}

// For each node, those in whose rows it is.
fn waiting(alloc: Global, rows: &[Items<usize>]) -> Result<Vec<Items<usize>>, OutOfMemory>
    ensures { IfOk result (λ waiting. AreWaiting rows.now waiting.items) }
{
    let mut waiting = empty_rows(alloc, rows.len())?;
    for node in 0..rows.len() {
        wait_for(&mut waiting, node, row_of(rows, node))?;
    }
    Ok(waiting)
}

// ---- all turns

// All of so many nodes.
fn all_nodes(alloc: Global, count: usize) -> Result<Vec<usize>, OutOfMemory>
    ensures { IfOk result (λ nodes. (node : ℕ) → node < count → is_in node nodes.items ≡ true) }
{
    let mut nodes = Vec::new(alloc);
    for node in 0..count {
        nodes.push(node)?;
    }
    Ok(nodes)
}

// None of so many nodes has come.
fn no_turns(alloc: Global, rows: &[Items<usize>]) -> Result<Turns, OutOfMemory>
    ensures turns { IfOk result (λ t. AreTurns rows.now t) }
    ensures none { IfOk result (λ t. t.reached.order.items ≡ []) }
{
    Ok(Turns {
        reached: Reached {
            marks: Marks::none(alloc, rows.len())?,
            order: Vec::new(alloc),
        },
        passed: vec![in alloc; 0; rows.len()]?,
    })
}

/// The nodes in an order in which each comes behind its row. A node is left out where one of its row is: where it lies on a
/// cycle, or leads to one, or to a node that there is not. Each row is looked at once, and a node once more for each of its
/// row.
pub(crate) fn all_turns(alloc: Global, rows: &[Items<usize>]) -> Result<Vec<usize>, OutOfMemory>
    ensures { IfOk result (λ order. AreAllTurns rows.now order.items) }
{
    let waiting = waiting(alloc, rows)?;
    let nodes = all_nodes(alloc, rows.len())?;
    let mut turns = no_turns(alloc, rows)?;
    advance_all(&mut turns, rows, nodes.as_slice())?;
    let mut next = 0;
    while next < turns.reached.order.len() {
        let node = turns.reached.order[next];
        advance_all(&mut turns, rows, row_of(waiting.as_slice(), node))?;
        next += 1;
    }
    Ok(turns.reached.order)
}
