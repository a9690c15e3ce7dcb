use crate::choosing::Counter;
use crate::cost::Order;
use crate::cover::Cover;
use crate::enumeration::{Round, Sets, choose_all};
use crate::graph::Graph;
use crate::lines::lines_of;
use crate::timing::Timing;
use g_net::{Line, Network, Proposal};
use lz_base::{Items, OutOfMemory};
use m_mapper::Mapper;
use std::alloc::Global;

/// Looks for a cover of least depth among a few cuts of each gate, and then for one of few tables that is no deeper. It may
/// answer anything.
#[derive(Drop)]
pub struct CutMapper {
    alloc: Global,
}

// How often it looks for cuts of less flow.
const FLOW_ROUNDS: u32 = 2;

// A cover under way: the cuts of all nodes, their timing and the choice among them.
#[derive(Drop)]
struct Search {
    sets: Sets,
    timing: Timing,
    cover: Cover,
    counter: Counter,
    most: u32,
}

impl Search {
    // Nothing found yet.
    fn new(alloc: Global, graph: &Graph, most: u32) -> Result<Search, OutOfMemory> {
        Ok(Search {
            sets: Sets::new(alloc, &graph.nodes)?,
            timing: Timing::new(alloc, graph.nodes.len())?,
            cover: Cover::new(alloc, graph.uses(alloc)?)?,
            counter: Counter::new(alloc),
            most,
        })
    }

    // Finds cuts that are good in an order and chooses among them, and then again so that there are fewer tables.
    fn round(&mut self, graph: &Graph, order: Order) -> Result<(), OutOfMemory> {
        let round = Round {
            most: self.most,
            order,
        };
        choose_all(
            &mut self.sets,
            &mut self.timing,
            &mut self.cover,
            &graph.nodes,
            round,
        )?;
        self.cover.settle(graph, &self.timing);
        self.counter
            .choose_all(graph, &self.sets, &mut self.timing, &mut self.cover)?;
        self.cover.settle(graph, &self.timing);
        Ok(())
    }

    // Finds a cover of least depth, and then of few tables.
    fn rounds(&mut self, graph: &Graph) -> Result<(), OutOfMemory> {
        self.round(graph, Order::Depth)?;
        for _round in 0..FLOW_ROUNDS {
            self.round(graph, Order::Flow)?;
        }
        Ok(())
    }
}

// The lines of a cover of a graph by tables of at most so many leaves.
fn cover_lines(alloc: Global, graph: &Graph, most: u32) -> Result<Items<Line>, OutOfMemory> {
    let mut search = Search::new(alloc, graph, most)?;
    search.rounds(graph)?;
    lines_of(alloc, graph, &search.cover)
}

impl CutMapper {
    /// A mapper that may answer anything.
    pub fn new(alloc: Global) -> CutMapper {
        CutMapper { alloc }
    }
}

impl Mapper for CutMapper {
    ghost use Rattle.std.specs.Prelude.{⊤};

    ghost may_answer = { λ _ _ _ _. ⊤ };

    fn propose(&self, network: &Network, k: u32) -> Result<Proposal, OutOfMemory> {
        let lines = match Graph::of(self.alloc, network)? {
            Some(graph) => cover_lines(self.alloc, &graph, k.min(6))?,
            None => Items::new(self.alloc),
        };
        Ok(Proposal { lines })
    }
}
