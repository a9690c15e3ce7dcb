use crate::cost::{Cost, Order, is_better};
use crate::cut::{Cut, EMPTY, is_within};

/// The most cuts that are kept of a node.
pub const MOST_CUTS: usize = 8;

/// The best cuts of a node, the best one first. None has all leaves of another one.
#[derive(Drop)]
pub struct Kept {
    cuts: [Cut; 8],
    count: usize,
}

impl Kept {
    /// No cuts.
    pub fn new() -> Kept {
        Kept {
            cuts: [EMPTY; 8],
            count: 0,
        }
    }

    /// The cuts, the best one first.
    pub fn as_slice(&self) -> &[Cut] {
        let count = self.count.min(MOST_CUTS);
        &self.cuts[..count]
    }

    /// The best cut that is no deeper than this, or another where there is none.
    pub fn best(&self, latest: u32, other: Cut) -> Cut {
        for cut in self.as_slice() {
            if cut.cost.depth <= latest {
                return *cut;
            }
        }
        other
    }

    /// Whether there is no room for a cut that costs at least so much.
    pub fn is_closed(&self, least: Cost, order: Order) -> bool {
        match self.cuts.last() {
            Some(last) => self.count >= MOST_CUTS && !is_better(least, last.cost, order),
            None => false,
        }
    }

    // How many cuts are no worse.
    fn place(&self, cut: &Cut, order: Order) -> usize {
        let kept = self.as_slice();
        for (place, other) in kept.iter().enumerate() {
            if is_better(cut.cost, other.cost, order) {
                return place;
            }
        }
        kept.len()
    }

    // Whether a cut has all leaves of one of the first so many.
    fn covers(&self, cut: &Cut, count: usize) -> bool {
        for kept in self.cuts.iter().take(count) {
            if is_within(kept, cut) {
                return true;
            }
        }
        false
    }

    // Puts a cut in the place of another one, where there is this place.
    fn put(&mut self, place: usize, cut: Cut) {
        if place < MOST_CUTS {
            self.cuts[place] = cut;
        }
    }

    // Takes out the cuts from a place on that have all leaves of this one.
    fn take_out(&mut self, cut: &Cut, place: usize) {
        let mut left = place;
        for i in place..self.count.min(MOST_CUTS) {
            let kept = self.cuts[i];
            if !is_within(cut, &kept) {
                self.put(left, kept);
                left = left.wrapping_add(1);
            }
        }
        self.count = left;
    }

    // Puts a cut at a place. The last one falls out where there is no room.
    fn insert(&mut self, cut: &Cut, place: usize) {
        let mut moved = *cut;
        let count = self.count.min(MOST_CUTS - 1) + 1;
        self.count = count;
        for i in place..count {
            let kept = self.cuts[i];
            self.cuts[i] = moved;
            moved = kept;
        }
    }

    /// Takes in a cut, unless it has all leaves of one that is kept, or as many better ones are kept as may be.
    pub fn offer(&mut self, cut: &Cut, order: Order) {
        // A cut that has all leaves of another one is no better.
        let place = self.place(cut, order);
        if place < MOST_CUTS && !self.covers(cut, place) {
            self.take_out(cut, place);
            self.insert(cut, place);
        }
    }
}
