ghost use Rattle.std.specs.Prelude.{◌≡◌, ◌++◌, ◌∷◌, [], List, ℕ, IfOk, OnOk};
ghost use Rattle.v_meaning.specs.ProcessRules.{Dependence};
ghost use Rattle.v_depends.specs.Pairs.{is_circular_by, pairs_of};
ghost use Rattle.v_depends.specs.Graphs.{AreMarked, Followers, IsGraph, Numbers, Suspected};
ghost use Rattle.v_depends.specs.Nodes.{starts_of};

use crate::graph::Graph;
use crate::levels::suspects;
use crate::marking::Marks;
use crate::rows::rows_of;
use crate::walking::reached_from;
use lz_base::OutOfMemory;
use std::alloc::Global;

// From where an edge comes, if it leads to a marked node.
fn add_start(nodes: &mut Vec<usize>, edge: (usize, usize), on: &Marks) -> Result<(), OutOfMemory>
    ensures { OnOk result (nodes.new.items ≡ nodes.old.items ++ starts_of on.now (edge ∷ [])) }
{
    if on.has(edge.1) {
        nodes.push(edge.0)?;
    }
    Ok(())
}

// From where the edges to marked nodes come.
fn starts(alloc: Global, edges: &[(usize, usize)], on: &Marks) -> Result<Vec<usize>, OutOfMemory>
    ensures { IfOk result (λ nodes. nodes.items ≡ starts_of on.now edges.now) }
{
    let mut nodes = Vec::new(alloc);
    for edge in edges {
        add_start(&mut nodes, *edge, on)?;
    }
    Ok(nodes)
}

/// No marks, one for each name of a graph.
pub(crate) fn no_marks(alloc: Global, graph: &Graph<'_>) -> Result<Marks, OutOfMemory>
    ensures { IfOk result (λ marks. (names : List (List ℕ)) → Numbers graph.now.numbers names → AreMarked names marks []) }
{
    Marks::none(alloc, graph.numbers.len())
}

/// Marks a name, if it has a number.
pub(crate) fn mark_name(graph: &Graph<'_>, marks: &mut Marks, name: &[u8])
    ensures { (names ons : List (List ℕ)) → Numbers graph.now.numbers names → AreMarked names marks.old ons → AreMarked names marks.new (ons ++ name.now ∷ []) }
{
    match graph.numbers.get(name) {
        Some(number) => marks.mark(*number),
        None => {}
    }
}

/// Marks the names that depend on marked ones.
pub(crate) fn dependents(alloc: Global, graph: &Graph<'_>, on: &Marks) -> Result<Marks, OutOfMemory>
    ensures { IfOk result (λ marks. (names ons : List (List ℕ)) (ds : List Dependence) → IsGraph graph.now names (pairs_of ds) → AreMarked names on.now ons → Followers names ds ons marks) }
{
    let edges = graph.edges.as_slice();
    let rows = rows_of(alloc, graph.numbers.len(), edges)?;
    let nodes = starts(alloc, edges, on)?;
    reached_from(alloc, rows.as_slice(), nodes.as_slice())
}

/// Whether a name depends on itself.
pub(crate) fn is_circular(
    alloc: Global,
    graph: &Graph<'_>,
    name: &[u8],
) -> Result<bool, OutOfMemory>
    ensures { IfOk result (λ circular. (names : List (List ℕ)) (ds : List Dependence) → IsGraph graph.now names (pairs_of ds) → circular ≡ is_circular_by ds name.now) }
{
    let mut on = no_marks(alloc, graph)?;
    mark_name(graph, &mut on, name);
    let marks = dependents(alloc, graph, &on)?;
    Ok(graph.is_marked(&marks, name))
}

/// Marks the names that may depend on themselves: each that does is marked.
pub(crate) fn suspected(alloc: Global, graph: &Graph<'_>) -> Result<Marks, OutOfMemory>
    ensures { IfOk result (λ marks. (names : List (List ℕ)) (ds : List Dependence) → IsGraph graph.now names (pairs_of ds) → Suspected names ds marks) }
{
    suspects(alloc, graph.numbers.len(), graph.edges.as_slice())
}
