use crate::cost::Cost;

/// The most leaves of a cut.
pub const MOST_LEAVES: usize = 6;

/// Stands behind the last leaf of a cut. It is greater than every node.
pub const NONE: u32 = u32::MAX;

/// A cut of a node: leaves, which each way down from the node to a source meets. They ascend, and `NONE` stands behind the
/// last. The signature has the bit of each leaf's number modulo 32.
#[derive(Clone, Copy)]
pub struct Cut {
    pub leaves: [u32; 6],
    pub signature: u32,
    pub cost: Cost,
}

/// The cut with no leaves.
pub const EMPTY: Cut = Cut {
    leaves: [NONE; 6],
    signature: 0,
    cost: Cost {
        depth: 1,
        leaves: 0,
        flow: 1.0,
    },
};

/// The cut of a node that is the node itself, of a depth and a flow.
pub fn trivial(number: u32, depth: u32, flow: f32) -> Cut {
    Cut {
        leaves: [number, NONE, NONE, NONE, NONE, NONE],
        signature: 1 << (number % 32),
        cost: Cost {
            depth,
            leaves: 1,
            flow,
        },
    }
}

// The leaf at a place, or `NONE` behind the last.
fn leaf_at(cut: &Cut, place: usize) -> u32 {
    match cut.leaves.get(place) {
        Some(leaf) => *leaf,
        None => NONE,
    }
}

/// Whether both have the same leaves.
pub fn same_leaves(a: &Cut, b: &Cut) -> bool {
    a.signature == b.signature && a.leaves == b.leaves
}

/// Whether the signatures show that both together have more leaves than so many.
pub fn surely_more(a: &Cut, b: &Cut, most: u32) -> bool {
    (a.signature | b.signature).count_ones() > most
}

/// The cut with the leaves of both, where they are at most so many. Its flow is not yet known.
pub fn merged(a: &Cut, b: &Cut, most: u32) -> Option<Cut> {
    let mut cut = EMPTY;
    cut.signature = a.signature | b.signature;
    cut.cost.depth = a.cost.depth.max(b.cost.depth);
    let (mut i, mut j) = (0usize, 0usize);
    for place in 0..MOST_LEAVES + 1 {
        let (x, y) = (leaf_at(a, i), leaf_at(b, j));
        let least = x.min(y);
        if least == NONE {
            cut.cost.leaves = place as u32;
            return Some(cut);
        }
        if place >= MOST_LEAVES || place as u32 >= most {
            return None;
        }
        cut.leaves[place] = least;
        i = i.wrapping_add((x == least) as usize);
        j = j.wrapping_add((y == least) as usize);
    }
    None
}

/// Whether each leaf of the first is one of the second.
pub fn is_within(a: &Cut, b: &Cut) -> bool {
    if a.cost.leaves > b.cost.leaves || a.signature & !b.signature != 0 {
        return false;
    }
    let mut i = 0usize;
    for leaf in b.leaves {
        if leaf_at(a, i) == leaf {
            i = i.wrapping_add(1);
        }
    }
    leaf_at(a, i) == NONE
}
