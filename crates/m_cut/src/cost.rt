/// What a cut costs: the depth of a table over its leaves, which is its distance from the sources, how many leaves it has,
/// and its flow, which is the tables below it, shared out among those who use them, with itself.
#[derive(Clone, Copy)]
pub struct Cost {
    pub depth: u32,
    pub leaves: u32,
    pub flow: f32,
}

/// Which cuts of a node are the better ones: those of less depth, then those with fewer leaves, then those of less flow; or
/// those of less flow, then those of less depth, then those with fewer leaves.
#[derive(Clone, Copy)]
pub enum Order {
    Depth,
    Flow,
}

// Whether a cost is the better one where the least depth is best.
fn is_faster(a: Cost, b: Cost) -> bool {
    a.depth < b.depth
        || a.depth == b.depth && (a.leaves < b.leaves || a.leaves == b.leaves && a.flow < b.flow)
}

/// Whether a cost is the better one where the least flow is best.
pub fn is_smaller(a: Cost, b: Cost) -> bool {
    a.flow < b.flow
        || a.flow == b.flow && (a.depth < b.depth || a.depth == b.depth && a.leaves < b.leaves)
}

/// Whether a cost is the better one in an order.
pub fn is_better(a: Cost, b: Cost, order: Order) -> bool {
    match order {
        Order::Depth => is_faster(a, b),
        Order::Flow => is_smaller(a, b),
    }
}
