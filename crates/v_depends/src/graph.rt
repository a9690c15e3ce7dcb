ghost use Rattle.std.specs.Prelude.{◌≡◌, ◌++◌, ◌∷◌, [], List, ℕ, Some, map, IfOk, OnOk};
ghost use Rattle.v_uses.specs.Gathered.{assign_in};
ghost use Rattle.v_depends.specs.Graphs.{IsGraph, IsSomeGraph, Numbers, at_place, marked_name, name_added, place};
ghost use Rattle.v_depends.specs.Pairs.{dependence_of, dependences_of, pairs_of};

use crate::marking::Marks;
use lz_base::OutOfMemory;
use std::alloc::Global;
use std::collections::BTreeMap;
use v_syntax::Ident;
use v_uses::AssignUses;

/// The names of assigns, numbered from 0, and for each name that an assign reads the numbers of the target and of that name.
#[derive(Drop)]
pub struct Graph<'a> {
    pub numbers: BTreeMap<&'a [u8], usize>,
    pub edges: Vec<(usize, usize)>,
}

/// The number of a name, which is a new one where the name has none.
pub(crate) fn number<'a>(
    numbers: &mut BTreeMap<&'a [u8], usize>,
    name: &'a [u8],
) -> Result<usize, OutOfMemory>
    ensures { IfOk result (λ i. (names : List (List ℕ)) → Numbers numbers.old names → Numbers numbers.new (name_added names name.now) × (place (name_added names name.now) name.now ≡ Some i)) }
{
    match numbers.get(name) {
        Some(number) => Ok(*number),
        None => {
            let number = numbers.len();
            numbers.insert(name, number)?;
            Ok(number)
        }
    }
}

// One read more of an assign.
fn add_read<'a>(
    graph: &mut Graph<'a>,
    target: &'a Ident,
    read: &'a Ident,
) -> Result<(), OutOfMemory>
    ensures { OnOk result ((names : List (List ℕ)) (pairs : List (List ℕ × List ℕ)) → IsGraph graph.old names pairs → IsGraph graph.new (name_added (name_added names target.now.name) read.now.name) (pairs ++ (target.now.name, read.now.name) ∷ [])) }
{
    let from = number(&mut graph.numbers, target.name.bytes())?;
    let to = number(&mut graph.numbers, read.name.bytes())?;
    graph.edges.push((from, to))?;
    Ok(())
}

// One assign more.
fn add_assign<'a>(graph: &mut Graph<'a>, assign: &AssignUses<'a>) -> Result<(), OutOfMemory>
    ensures { OnOk result ((pairs : List (List ℕ × List ℕ)) → IsSomeGraph graph.old pairs → IsSomeGraph graph.new (pairs ++ pairs_of (dependence_of (assign_in assign.now) ∷ []))) }
{
    for read in assign.reads.as_slice() {
        add_read(graph, assign.target, read)?;
    }
    Ok(())
}

/// The graph of assigns.
pub(crate) fn graph_of<'a>(
    alloc: Global,
    assigns: &[AssignUses<'a>],
) -> Result<Graph<'a>, OutOfMemory>
    ensures { IfOk result (λ g. IsSomeGraph g (pairs_of (dependences_of (map assign_in assigns.now)))) }
{
    let mut graph = Graph {
        numbers: BTreeMap::new(alloc),
        edges: Vec::new(alloc),
    };
    for assign in assigns {
        add_assign(&mut graph, assign)?;
    }
    Ok(graph)
}

impl<'a> Graph<'a> {
    /// Whether a name has a number that is marked.
    pub(crate) fn is_marked(&self, marks: &Marks, name: &[u8]) -> bool
        ensures { (names : List (List ℕ)) → Numbers self.now.numbers names → result ≡ marked_name names marks.now name.now }
    {
        match self.numbers.get(name) {
            Some(number) => marks.has(*number),
            None => false,
        }
    }
}
