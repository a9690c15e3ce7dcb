ghost use Rattle.std.specs.Prelude.{◌≡◌, ◌≤◌, ◌<◌, ◌^◌, ◌++◌, ◌∷◌, [], if◌then◌else◌, length, IfOk, OnOk};
ghost use Rattle.std.specs.Bool.{xor};
ghost use Rattle.m_valid.specs.declared.verdict.Verdict.TheVariants as verdict;
ghost use Rattle.m_valid.specs.Plain as plain;
ghost use Rattle.m_valid.specs.Plain.{but_constant, gate_line, plain_line, plain_of, table_from};
ghost use Rattle.m_valid.specs.Validity as validity;
ghost use Rattle.m_valid.specs.Validity.{literal_of, operation};

use crate::nodes::{Node, nodes_of};
use crate::tables::assignments;
use g_net::{Leaves, Line, Network, Proposal};
use lz_base::{Items, Num, OutOfMemory};
use std::alloc::Global;

// Appends a node, but for the constant.
fn push_leaf(leaves: &mut Leaves, node: Num) -> Result<(), OutOfMemory>
    ensures { OnOk result (leaves.new ≡ leaves.old ++ but_constant node) }
{
    if node != 0 {
        leaves.push(node)?;
    }
    Ok(())
}

// The distinct nodes of two, but for the constant, in ascending order.
fn ascending(alloc: Global, a: Num, b: Num) -> Result<Leaves, OutOfMemory>
    ensures leaves { IfOk result (λ leaves. leaves ≡ plain.ascending a b) }
    ensures few { IfOk result (λ leaves. length leaves ≤ 2) }
{
    let mut leaves = Leaves::new(alloc);
    push_leaf(&mut leaves, a.min(b))?;
    if a != b {
        push_leaf(&mut leaves, a.max(b))?;
    }
    Ok(leaves)
}

// The bit of a leaf in an assignment, and 0 of any other node.
fn leaf_bit(leaves: &[Num], assignment: u32, node: Num) -> bool
    ensures { result ≡ plain.leaf_bit leaves.now assignment node }
{
    let mut rest = assignment;
    for leaf in leaves {
        if *leaf == node {
            return rest % 2 == 1;
        }
        rest /= 2;
    }
    false
}

// The exclusive or of two bits.
fn exclusive(a: bool, b: bool) -> bool
    ensures { result ≡ xor a b }
{
    if a { !b } else { b }
}

// The bit of a literal in an assignment.
fn literal_bit(leaves: &[Num], assignment: u32, literal: Num) -> bool
    ensures { result ≡ literal_of (plain.leaf_bit leaves.now assignment) literal }
{
    exclusive(literal % 2 == 1, leaf_bit(leaves, assignment, literal / 2))
}

// The bit of a gate in an assignment.
fn gate_bit(leaves: &[Num], assignment: u32, gate: Node) -> bool
    ensures { result ≡ operation (plain.leaf_bit leaves.now assignment) gate }
{
    match gate {
        Node::Constant => false,
        Node::Source => false,
        Node::And(a, b) => {
            let second = literal_bit(leaves, assignment, b);
            literal_bit(leaves, assignment, a) && second
        }
        Node::Xor(a, b) => exclusive(
            literal_bit(leaves, assignment, a),
            literal_bit(leaves, assignment, b),
        ),
    }
}

// A table with this bit alone, among the first four.
fn single(i: u32, bit: bool) -> u64
    requires { i < 4 }
    ensures single { result ≡ (if bit then 2 ^ i else 0) }
    ensures small { result ≤ 8 }
{
    if bit { 1 << i } else { 0 }
}

// The table of a gate over at most two leaves.
fn gate_table(leaves: &[Num], gate: Node) -> u64
    requires { length leaves.now ≤ 2 }
    ensures { result ≡ table_from (2 ^ length leaves.now) (λ i. operation (plain.leaf_bit leaves.now i) gate) }
{
    let mut table = 0;
    for i in 0..assignments(leaves.len()) {
        table += single(i, gate_bit(leaves, i, gate));
    }
    table
}

// Appends the line of a gate over two literals.
fn push_line(
    alloc: Global,
    lines: &mut Items<Line>,
    root: Num,
    gate: Node,
    nodes: (Num, Num),
) -> Result<(), OutOfMemory>
    ensures { OnOk result (lines.new ≡ lines.old ++ gate_line root (plain.ascending nodes.0 nodes.1) gate ∷ []) }
{
    let (a, b) = nodes;
    let leaves = ascending(alloc, a, b)?;
    let table = gate_table(leaves.as_slice(), gate);
    lines.push(Line {
        root,
        leaves,
        table,
    })?;
    Ok(())
}

// Appends the line of a node, where it is an `and` or `xor`.
fn push_node(
    alloc: Global,
    lines: &mut Items<Line>,
    number: Num,
    node: Node,
) -> Result<(), OutOfMemory>
    ensures { OnOk result (lines.new ≡ lines.old ++ plain_line number node) }
{
    match node {
        Node::Constant => Ok(()),
        Node::Source => Ok(()),
        Node::And(a, b) => {
            push_line(alloc, lines, number, node, (a / 2, b / 2))?;
            Ok(())
        }
        Node::Xor(a, b) => {
            push_line(alloc, lines, number, node, (a / 2, b / 2))?;
            Ok(())
        }
    }
}

// The lines of nodes.
fn lines_of(alloc: Global, nodes: &[Node]) -> Result<Items<Line>, OutOfMemory>
    ensures { IfOk result (λ lines. lines ≡ plain.plain_lines 0 nodes.now) }
{
    let mut lines = Items::new(alloc);
    for (i, node) in nodes.iter().enumerate() {
        push_node(alloc, &mut lines, i as Num, *node)?;
    }
    Ok(lines)
}

/// The plain mapping of a network: a look-up table for each of its `and` and `xor` nodes, in order. Its leaves are the
/// distinct nodes of the gate's two literals, but for the constant, in ascending order, and its table is the gate's value.
/// It is valid. It takes linear work. `OutOfMemory` is the only other answer.
pub fn plain(alloc: Global, network: &Network) -> Result<Proposal, OutOfMemory>
    ensures lines { IfOk result (λ p. p.lines ≡ plain_of network.now) }
    ensures valid { IfOk result (λ p. validity.verdict network.now p.lines 6 ≡ verdict.Valid) }
{
    let _gates = network.gates();
    let nodes = nodes_of(alloc, network)?;
    let lines = lines_of(alloc, nodes.as_slice())?;
    Ok(Proposal { lines })
}
