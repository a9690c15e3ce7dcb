ghost use Rattle.std.specs.Prelude.{◌≡◌, ◌<◌, ◌/◌, length};
ghost use Rattle.m_valid.specs.Nodes.{AllReadBefore, node_at};
ghost use Rattle.m_valid.specs.Walk as walk;
ghost use Rattle.m_valid.specs.Walk.{AreOperands, IsStep};

use crate::marks::{Mark, known};
use crate::nodes::Node;
use crate::tables::{and_table, literal_table, xor_table};
use lz_base::Num;

/// The next step of a walk at a node: down to an operand that has no table yet, up with the node's table, or no further,
/// where the node is a source.
#[derive(Clone, Copy, Debug)]
pub enum Step {
    Down(usize),
    Up(u64),
    Stop,
}

/// The tables of both operands, or an operand that has none yet.
#[derive(Clone, Copy, Debug)]
pub enum Operands {
    Known(u64, u64),
    Unknown(usize),
}

// What is known of two literals, whose nodes are there.
fn known_operands(marks: &[Mark], line: usize, a: Num, b: Num) -> Operands
    requires first { a / 2 < length marks.now }
    requires second { b / 2 < length marks.now }
    ensures { AreOperands (walk.known marks.now line) a b result }
{
    let (first, second) = ((a / 2) as usize, (b / 2) as usize);
    match (known(marks, line, first), known(marks, line, second)) {
        (None, _) => Operands::Unknown(first),
        (_, None) => Operands::Unknown(second),
        (Some(x), Some(y)) => Operands::Known(literal_table(a, x), literal_table(b, y)),
    }
}

/// The next step of a line's walk at a node.
pub fn next_step(nodes: &[Node], marks: &[Mark], line: usize, number: usize) -> Step
    requires there { number < length nodes.now }
    requires marked { length marks.now ≡ length nodes.now }
    requires before { AllReadBefore nodes.now }
    ensures { IsStep (walk.known marks.now line) (node_at nodes.now number) result }
{
    match nodes[number] {
        Node::Constant => Step::Up(0),
        Node::Source => Step::Stop,
        Node::And(a, b) => match known_operands(marks, line, a, b) {
            Operands::Known(x, y) => Step::Up(and_table(x, y)),
            Operands::Unknown(operand) => Step::Down(operand),
        },
        Node::Xor(a, b) => match known_operands(marks, line, a, b) {
            Operands::Known(x, y) => Step::Up(xor_table(x, y)),
            Operands::Unknown(operand) => Step::Down(operand),
        },
    }
}
