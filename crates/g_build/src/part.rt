ghost use Rattle.std.specs.Prelude.{◌≡◌, ◌<◌, ◌≤◌, ◌+◌, ◌++◌, [], ◌∷◌, IfOk, OnOk, OnErr};
ghost use Rattle.g_net.specs.Grown.{Grows, StandsAt};
ghost use Rattle.g_net.specs.Network as network;
ghost use Rattle.g_net.specs.Network.{IsWellFormed, ReadsBelow, first_gate, most_nodes};
ghost use Rattle.g_build.specs.Building.{AllDiffer};
ghost use Rattle.g_build.specs.Parts.{Finds, IsLeft};

use crate::index::Index;
use g_net::{Gate, Network, gates_stand, sources_first, values_stay};
use g_rules::{Gates, Outcome, RuleBook, Shape, apply};
use lz_base::{Num, OutOfMemory};
use std::alloc::Global;
use std::marker::Model;

/// A network and where its gates stand. Contracts see it as the network.
#[derive(Drop)]
pub struct Part {
    network: Network,
    index: Index,
}

impl Model for Part {
    ghost use Rattle.g_net.specs.Network.{NetworkValue};

    ghost Value = { NetworkValue };

    ghost use Rattle.g_build.specs.Parts.{IsIndexed};

    ghost view = { λ p. p.network };

    ghost invariant = { IsIndexed };
}

impl Gates for Part {
    ghost use Rattle.g_build.specs.Indexing.{shape_at};

    ghost gate_at = { shape_at };

    fn gate(&self, node: Num) -> Option<Shape> {
        let first = self.first();
        if node < first {
            return None;
        }
        self.index.shape(self.network.gates(), node - first)
    }
}

impl Part {
    /// The network, whose gates may be equal to each other.
    pub fn new(alloc: Global, network: Network) -> Result<Part, OutOfMemory>
        ensures { IfOk result (λ part. part ≡ network) }
    {
        let index = Index::of(alloc, network.gates())?;
        Ok(Part { network, index })
    }

    /// The network alone.
    pub fn into_network(self) -> Network
        ensures { result ≡ self }
    {
        self.network
    }

    // The number of the first gate's first node.
    #[tactic(auto, using(crate::proofs::Indexing::places_there))]
    fn first(&self) -> Num
        ensures number { result ≡ first_gate self.now }
        ensures few { result ≤ most_nodes }
    {
        self.network.node_count() - self.index.owners.as_slice().len() as Num
    }

    // The first node of the first gate that is equal.
    fn find(&self, gate: Gate) -> Option<Num>
        ensures { Finds self.now gate result }
    {
        let first = self.first();
        match self.index.find(gate) {
            Some(place) => Some(first + place as Num),
            None => None,
        }
    }

    // Appends a gate, and gives its first node.
    fn append(&mut self, gate: Gate) -> Result<Num, OutOfMemory>
        requires no_output { self.old.outputs ≡ [] }
        requires there { ReadsBelow (network.node_count self.old) gate }
        ensures ok { OnOk result (self.new ≡ record self.old { gates = self.old.gates ++ gate ∷ [] }) }
        ensures stands { IfOk result (λ node. StandsAt self.new node gate) }
        ensures count { IfOk result (λ node. network.node_count self.new ≡ node + network.nodes_of gate) }
        ensures few { OnOk result (network.node_count self.new ≤ most_nodes) }
        ensures formed { OnOk result (IsWellFormed self.new) }
        ensures err { OnErr result (self.new ≡ self.old) }
    {
        self.index.reserve()?;
        let count = self.network.gates().len();
        let node = self.network.add(gate)?;
        self.index.push(gate, count);
        Ok(node)
    }

    /// The first node of a gate over literals that are there, which is found or else made. Where no memory is found, the
    /// network is as before.
    pub fn place(&mut self, gate: Gate) -> Result<Num, OutOfMemory>
        requires no_output { self.old.outputs ≡ [] }
        requires there { ReadsBelow (network.node_count self.old) gate }
        ensures stands { IfOk result (λ node. StandsAt self.new node gate) }
        ensures within { IfOk result (λ node. node + network.nodes_of gate ≤ network.node_count self.new) }
        ensures few { OnOk result (network.node_count self.new ≤ most_nodes) }
        ensures grows { OnOk result (Grows self.old self.new) }
        ensures formed { OnOk result (IsWellFormed self.new) }
        ensures differ { OnOk result (AllDiffer self.old.gates → AllDiffer self.new.gates) }
        ensures err { OnErr result (self.new ≡ self.old) }
    {
        let _count = self.network.node_count();
        gates_stand();
        values_stay();
        match self.find(gate) {
            Some(node) => Ok(node),
            None => {
                let node = self.append(gate)?;
                Ok(node)
            }
        }
    }

    /// What the rules of a book leave of a shape.
    pub fn left(&self, book: &RuleBook, shape: Shape) -> Outcome
        ensures left { IsLeft self.now shape result }
        ensures formed { IsWellFormed self.now }
    {
        let _ = &self.network;
        gates_stand();
        values_stay();
        sources_first();
        apply(book, self, shape)
    }
}
