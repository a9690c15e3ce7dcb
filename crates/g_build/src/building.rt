ghost use Rattle.std.specs.Prelude.{◌≡◌, ◌<◌, ◌/◌, [], IfOk, OnOk, OnErr};
ghost use Rattle.std.specs.Bool.{xor};
ghost use Rattle.g_net.specs.Network.{LiteralsBelow, node_count};
ghost use Rattle.g_net.specs.Run.{literal_value};
ghost use Rattle.lz_circuit.specs.Values.{majority};
ghost use Rattle.g_rules.specs.Shapes.{shape_literals, shape_value};
ghost use Rattle.g_build.specs.Building.{AllDiffer, Builds, HasValue};

use crate::index::gate_of;
use crate::part::Part;
use crate::sum::{in_order, literal_of, without_gate};
use g_net::{Gate, Network, two_literals, values_stay};
use g_rules::{Outcome, RuleBook, Shape};
use lz_base::{Num, OutOfMemory};
use std::alloc::Global;

/// A network that grows by gates, and the rule book that each shape goes through.
#[derive(Drop)]
pub struct Builder<'a> {
    pub part: Part,
    pub book: &'a RuleBook,
}

impl<'a> Builder<'a> {
    /// A builder of a network that has no output yet. Gates that it holds are found again, but equal ones stay as they
    /// are. `OutOfMemory` is the only other answer.
    pub fn new(
        alloc: Global,
        network: Network,
        book: &'a RuleBook,
    ) -> Result<Builder<'a>, OutOfMemory>
        requires no_output { network.outputs ≡ [] }
        ensures part { IfOk result (λ b. b.part ≡ network) }
        ensures book { IfOk result (λ b. b.book.now ≡ book.now) }
    {
        let part = Part::new(alloc, network)?;
        Ok(Builder { part, book })
    }

    /// A literal of the shape's value, over literals that are there. Where no memory is found, the builder is as before.
    pub fn gate(&mut self, shape: Shape) -> Result<Num, OutOfMemory>
        requires no_output { self.old.part.outputs ≡ [] }
        requires there { LiteralsBelow (node_count self.old.part) (shape_literals shape) }
        ensures value { IfOk result (λ literal. HasValue self.new.part literal (λ values. shape_value values shape)) }
        ensures builds { OnOk result (Builds self.old.part self.new.part) }
        ensures differ { OnOk result (AllDiffer self.old.part.gates → AllDiffer self.new.part.gates) }
        ensures book { self.new.book ≡ self.old.book }
        ensures err { OnErr result (self.new.part ≡ self.old.part) }
    {
        values_stay();
        match self.part.left(self.book, shape) {
            Outcome::Literal(literal) => Ok(literal),
            Outcome::Gate {
                shape: left,
                invert,
            } => {
                let node = self.part.place(gate_of(left))?;
                Ok(literal_of(node, invert))
            }
        }
    }

    /// The sum of three literals that are there: literals of their exclusive or and of their majority. Where no memory is
    /// found, the builder is as before.
    pub fn carry(&mut self, a: Num, b: Num, c: Num) -> Result<(Num, Num), OutOfMemory>
        requires no_output { self.old.part.outputs ≡ [] }
        requires first { a / 2 < node_count self.old.part }
        requires second { b / 2 < node_count self.old.part }
        requires third { c / 2 < node_count self.old.part }
        ensures sum { IfOk result (λ r. HasValue self.new.part r.0 (λ values. xor (literal_value values a) (xor (literal_value values b) (literal_value values c)))) }
        ensures majority { IfOk result (λ r. HasValue self.new.part r.1 (λ values. majority (literal_value values a) (literal_value values b) (literal_value values c))) }
        ensures builds { OnOk result (Builds self.old.part self.new.part) }
        ensures differ { OnOk result (AllDiffer self.old.part.gates → AllDiffer self.new.part.gates) }
        ensures book { self.new.book ≡ self.old.book }
        ensures err { OnErr result (self.new.part ≡ self.old.part) }
    {
        values_stay();
        two_literals();
        let trio = in_order((a, b, c));
        match without_gate(trio) {
            Some(sum) => Ok(sum),
            None => {
                let node = self.part.place(Gate::Carry(trio.0, trio.1, trio.2))?;
                Ok((2 * node, 2 * node + 2))
            }
        }
    }

    /// The network.
    pub fn finish(self) -> Network
        ensures { result ≡ self.entry.part }
    {
        self.part.into_network()
    }
}
