use crate::cost::is_smaller;
use crate::cover::Cover;
use crate::cut::{Cut, same_leaves};
use crate::enumeration::Sets;
use crate::graph::{Graph, Node, is_gate};
use crate::timing::Timing;
use crate::trail::Trail;
use lz_base::OutOfMemory;
use std::alloc::Global;

// The most steps of a walk that counts tables, so that no gate costs more than a few of them. Tables are counted from here
// where they may be fewer than before.
const STEPS: u32 = 16;

// A cut, and how many tables more there would be with it in place of the one that is chosen, counted from `STEPS`.
#[derive(Clone, Copy)]
struct Choice {
    cut: Cut,
    tables: u32,
}

/// Counts tables exactly.
#[derive(Drop)]
pub struct Counter {
    taken: Trail,
    given: Trail,
}

// Whether the first choice is better.
fn is_better(a: &Choice, b: &Choice) -> bool {
    a.tables < b.tables || a.tables == b.tables && is_smaller(a.cut.cost, b.cut.cost)
}

impl Counter {
    /// A counter.
    pub fn new(alloc: Global) -> Counter {
        Counter {
            taken: Trail::new(alloc),
            given: Trail::new(alloc),
        }
    }

    // The tables of a choice of a cut in place of an old one, and none where they are too many to count.
    fn tables(
        &mut self,
        nodes: &[Node],
        cover: &mut Cover,
        old: &Cut,
        cut: &Cut,
    ) -> Result<Option<u32>, OutOfMemory> {
        let more = self.taken.take(nodes, cover, cut, STEPS)?;
        if !more.complete {
            self.taken.undo_take(cover);
            return Ok(None);
        }
        let less = self.given.give(nodes, cover, old, STEPS)?;
        self.given.undo_give(cover);
        self.taken.undo_take(cover);
        let tables = more.tables.saturating_add(STEPS);
        Ok(Some(tables.saturating_sub(less.tables)))
    }

    // The better one of a choice and a cut.
    fn better(
        &mut self,
        nodes: &[Node],
        cover: &mut Cover,
        latest: u32,
        old: &Cut,
        choice: Choice,
        cut: Cut,
    ) -> Result<Choice, OutOfMemory> {
        if cut.cost.depth > latest || same_leaves(&cut, old) {
            return Ok(choice);
        }
        match self.tables(nodes, cover, old, &cut)? {
            None => Ok(choice),
            Some(tables) => {
                let other = Choice { cut, tables };
                Ok(if is_better(&other, &choice) {
                    other
                } else {
                    choice
                })
            }
        }
    }

    // The best one of the cuts of a gate, of which the last is the gate itself.
    fn best(
        &mut self,
        graph: &Graph,
        timing: &Timing,
        cover: &mut Cover,
        number: u32,
        old: &Cut,
        cuts: &[Cut],
    ) -> Result<Cut, OutOfMemory> {
        let latest = cover.latest(number);
        let mut choice = Choice {
            cut: *old,
            tables: STEPS,
        };
        for cut in cuts.iter().take(cuts.len().saturating_sub(1)) {
            let mut cut = *cut;
            timing.measure(&mut cut);
            choice = self.better(&graph.nodes, cover, latest, old, choice, cut)?;
        }
        Ok(choice.cut)
    }

    // Chooses a cut in place of another one.
    fn exchange(
        &mut self,
        nodes: &[Node],
        cover: &mut Cover,
        old: &Cut,
        new: &Cut,
    ) -> Result<(), OutOfMemory> {
        if !same_leaves(old, new) {
            self.taken.take(nodes, cover, new, u32::MAX)?;
            self.given.give(nodes, cover, old, u32::MAX)?;
        }
        Ok(())
    }

    // Chooses the best one of the cuts of a gate that is needed. One that is not keeps its cut.
    fn choose_gate(
        &mut self,
        graph: &Graph,
        sets: &Sets,
        timing: &mut Timing,
        cover: &mut Cover,
        number: u32,
    ) -> Result<(), OutOfMemory> {
        let mut old = cover.chosen(number);
        timing.measure(&mut old);
        let mut best = old;
        if cover.is_needed(number) {
            best = self.best(graph, timing, cover, number, &old, sets.of(number))?;
            self.exchange(&graph.nodes, cover, &old, &best)?;
        }
        cover.choose(number, best);
        timing.note(number, &best, cover.references(number));
        Ok(())
    }

    /// Chooses for each gate that is needed, in order, that of its cuts with which there are the fewest tables, among those
    /// that are no deeper than they may be.
    pub fn choose_all(
        &mut self,
        graph: &Graph,
        sets: &Sets,
        timing: &mut Timing,
        cover: &mut Cover,
    ) -> Result<(), OutOfMemory> {
        let mut number = 0u32;
        for _node in &graph.nodes {
            if is_gate(&graph.nodes, number) {
                self.choose_gate(graph, sets, timing, cover, number)?;
            }
            number = number.wrapping_add(1);
        }
        Ok(())
    }
}
