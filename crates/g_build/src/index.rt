ghost use Rattle.std.specs.Prelude.{◌≡◌, ◌+◌, ◌<◌, ◌≤◌, ◌++◌, [], ◌∷◌, None, Some, List, length, take, slice_get, slice_index_or, IfOk, OnOk};
ghost use Rattle.indexmap.specs.IndexMap.{get, spare};
ghost use Rattle.std.specs.Vec.{vec_capacity};
ghost use Rattle.g_net.specs.declared.network.Gate.{Gate};
ghost use Rattle.g_build.specs.Indexing.{Indexes, gate_of, is_same, owned, shape_of, shapes_of};

use g_net::Gate;
use g_rules::Shape;
use indexmap::IndexMap;
use lz_base::{Num, OutOfMemory};
use std::alloc::Global;

/// Where gates stand. Each node of a gate has a place, counted from the first node of all gates.
#[derive(Drop)]
pub struct Index {
    /// The place of the first node of each gate, for equal gates of the first.
    pub places: IndexMap<Gate, usize>,
    /// The index of the gate at each place.
    pub owners: Vec<usize>,
}

// The gate as an `and` or an `xor`.
fn shape_of(gate: Gate) -> Option<Shape>
    ensures { result ≡ shape_of gate }
{
    match gate {
        Gate::And(a, b) => Some(Shape::And(a, b)),
        Gate::Xor(a, b) => Some(Shape::Xor(a, b)),
        Gate::Carry(_, _, _) => None,
    }
}

/// The gate that an `and` or an `xor` is.
pub fn gate_of(shape: Shape) -> Gate
    ensures { result ≡ gate_of shape }
{
    match shape {
        Shape::And(a, b) => Gate::And(a, b),
        Shape::Xor(a, b) => Gate::Xor(a, b),
    }
}

// The gate of an index.
fn gate_at(gates: &[Gate], index: usize) -> Gate
    requires { index < length gates.now }
    ensures { slice_get gates.now index ≡ Some result }
{
    gates[index]
}

// Appends items for which there is room.
fn append(items: &mut Vec<usize>, more: &[usize])
    requires room { length items.old.items + length more.now ≤ vec_capacity items.old }
    ensures { items.new.items ≡ items.old.items ++ more.now }
{
    if items.extend_from_slice(more).is_err() {
        unreachable!();
    }
}

// Appends the index of a gate for each of its places, for which there is room.
fn own(owners: &mut Vec<usize>, index: usize, gate: Gate)
    requires room { length owners.old.items + 2 ≤ vec_capacity owners.old }
    ensures { owners.new.items ≡ owners.old.items ++ owned index gate }
{
    match gate {
        Gate::And(_, _) => append(owners, &[index]),
        Gate::Xor(_, _) => append(owners, &[index]),
        Gate::Carry(_, _, _) => append(owners, &[index, index]),
    }
}

impl Index {
    /// No gates.
    pub fn new(alloc: Global) -> Index
        ensures { Indexes result [] }
    {
        Index {
            places: IndexMap::new(alloc),
            owners: Vec::new(alloc),
        }
    }

    /// Makes room for one gate more.
    pub fn reserve(&mut self) -> Result<(), OutOfMemory>
        ensures gates { (gates : List Gate) → Indexes self.old gates → Indexes self.new gates }
        ensures place { OnOk result (0 < spare self.new.places) }
        ensures owner { OnOk result (length self.new.owners.items + 2 ≤ vec_capacity self.new.owners) }
    {
        self.places.reserve(1)?;
        self.owners.reserve(2)?;
        Ok(())
    }

    /// One gate more, for which there is room, behind so many.
    pub fn push(&mut self, gate: Gate, index: usize)
        requires place { 0 < spare self.old.places }
        requires owner { length self.old.owners.items + 2 ≤ vec_capacity self.old.owners }
        ensures { (gates : List Gate) → Indexes self.old gates → length gates ≡ index → Indexes self.new (gates ++ gate ∷ []) }
    {
        let place = self.owners.len();
        own(&mut self.owners, index, gate);
        if !self.places.contains_key(&gate) {
            self.places.insert(gate, place).unwrap();
        }
    }

    /// The gates of a network.
    pub fn of(alloc: Global, gates: &[Gate]) -> Result<Index, OutOfMemory>
        ensures { IfOk result (λ index. Indexes index gates.now) }
    {
        let mut index = Index::new(alloc);
        for i in 0..gates.len() {
            index.reserve()?;
            index.push(gates[i], i);
        }
        Ok(index)
    }

    /// The place of the first node of the first gate that is equal.
    pub fn find(&self, gate: Gate) -> Option<usize>
        ensures { result ≡ get is_same self.now.places gate }
    {
        self.places.get(&gate).copied()
    }

    /// The `and` or `xor` gate at a place of these gates.
    pub fn shape(&self, gates: &[Gate], place: Num) -> Option<Shape>
        requires { Indexes self.now gates.now }
        ensures { result ≡ slice_index_or (shapes_of gates.now) place None }
    {
        let owners = self.owners.as_slice();
        if owners.len() as Num <= place {
            return None;
        }
        shape_of(gate_at(gates, owners[place as usize]))
    }
}
