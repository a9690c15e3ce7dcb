ghost use Rattle.std.specs.Prelude.{◌≡◌, ◌<◌, ◌++◌, ◌∷◌, [], ℕ, length, IfOk, OnOk};
ghost use Rattle.v_depends.specs.Nodes.{row, sources};

use lz_base::{Items, OutOfMemory};
use std::alloc::Global;

/// The row of a node, which is empty where the node is none.
pub(crate) fn row_of(rows: &[Items<usize>], node: usize) -> &[usize]
    ensures { result.now ≡ row rows.now node }
{
    match rows.get(node) {
        Some(row) => row.as_slice(),
        None => &[],
    }
}

/// So many empty rows.
pub(crate) fn empty_rows(alloc: Global, count: usize) -> Result<Vec<Items<usize>>, OutOfMemory>
    ensures long { IfOk result (λ rows. length rows.items ≡ count) }
    ensures empty { IfOk result (λ rows. (node : ℕ) → row rows.items node ≡ []) }
{
    let mut rows = Vec::new(alloc);
    while rows.len() < count {
        rows.push(Items::new(alloc))?;
    }
    Ok(rows)
}

/// From where an edge comes, behind what is in the row of the node to which it leads.
pub(crate) fn add_source(
    rows: &mut Vec<Items<usize>>,
    edge: (usize, usize),
) -> Result<(), OutOfMemory>
    ensures long { OnOk result (length rows.new.items ≡ length rows.old.items) }
    ensures each { OnOk result ((node : ℕ) → node < length rows.old.items → row rows.new.items node ≡ row rows.old.items node ++ sources (edge ∷ []) node) }
{
    if edge.1 < rows.len() {
        rows[edge.1].push(edge.0)?;
    }
    Ok(())
}

/// For each of so many nodes, from where the edges to it come.
pub(crate) fn rows_of(
    alloc: Global,
    count: usize,
    edges: &[(usize, usize)],
) -> Result<Vec<Items<usize>>, OutOfMemory>
    ensures long { IfOk result (λ rows. length rows.items ≡ count) }
    ensures each { IfOk result (λ rows. (node : ℕ) → node < count → row rows.items node ≡ sources edges.now node) }
{
    let mut rows = empty_rows(alloc, count)?;
    for edge in edges {
        add_source(&mut rows, *edge)?;
    }
    Ok(rows)
}
