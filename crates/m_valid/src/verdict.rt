use lz_base::Num;

/// A check of a proposal.
///
/// - `V1`: the roots strictly increase, and are `and` or `xor` nodes of the network.
/// - `V2`: a line has at most as many leaves as are asked for. They strictly increase, are smaller than the root, and each
///   is an input, a flip-flop, a node of a carry, or the root of an earlier line.
/// - `V3`: going down from the root over `and` and `xor` nodes, every way meets a leaf or the constant before any other
///   source. A way stops at a leaf, also at one that is itself an `and` or `xor` node.
/// - `V4`: for each assignment of the leaves, the table's bit is the value of the root.
/// - `V5`: every `and` or `xor` node that an output, either literal of a flip-flop or an operand of a carry uses is a root.
#[derive(Clone, Copy, Debug, PartialEq, Eq)]
pub enum Check {
    V1,
    V2,
    V3,
    V4,
    V5,
}

/// What `validate` says of a proposal: it is valid, or this check is the first that is broken, at the least place. The
/// place is the number of a line, from 1, and for `V5` that of a node.
#[derive(Clone, Copy, Debug, PartialEq, Eq)]
pub enum Verdict {
    Valid,
    Broken { check: Check, at: Num },
}
