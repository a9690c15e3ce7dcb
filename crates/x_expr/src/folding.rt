ghost use Rattle.std.specs.Prelude.{◌≡◌, IfSome, length, ◌<◌};
ghost use Rattle.x_expr.specs.declared.node.Node.TheVariants as node;
ghost use Rattle.x_expr.specs.Nodes.{IsArena, IsNode};
ghost use Rattle.x_expr.specs.Folding.{IsConstant, IsFold};

use crate::Arena;
use crate::node::{Before, Between, Node, Shape, before_width, between_width, shape_of};
use v_words::{beside, copies, extend, operate, operate_before, part};

/// What a node is folded to: a node that is there, a constant, or the node itself.
#[derive(Clone, Copy, Debug, PartialEq, Eq)]
pub enum Fold {
    There(u64),
    Constant { width: u32, value: u128 },
    Itself,
}

// The width and the value of a constant.
#[tactic(auto, using(crate::proofs::Folds::constant_is))]
fn constant(arena: &Arena, number: u64) -> Option<(u32, u128)>
    requires { number < length arena.now }
    ensures constant { IfSome result (λ r. IsConstant arena.now number r.0 r.1) }
    ensures arena { IsArena arena.now }
{
    match arena.node(number) {
        Node::Constant { width, value } => Some((*width, *value)),
        _ => None,
    }
}

// What is left of a node is a constant where all of its operands are.
fn unary(arena: &Arena, operator: Before, width: u32, operand: u64) -> Fold
    requires { IsNode arena.now (node.Unary operator width operand) }
    ensures { IsFold arena.now (node.Unary operator width operand) result }
{
    match constant(arena, operand) {
        Some((_, value)) => Fold::Constant {
            width: before_width(operator, width),
            value: operate_before(operator.0, width, value),
        },
        None => Fold::Itself,
    }
}

fn binary(arena: &Arena, operator: Between, width: u32, signed: bool, left: u64, right: u64) -> Fold
    requires { IsNode arena.now (node.Binary operator width signed left right) }
    ensures { IsFold arena.now (node.Binary operator width signed left right) result }
{
    match (constant(arena, left), constant(arena, right)) {
        (Some((_, x)), Some((_, y))) => Fold::Constant {
            width: between_width(operator, width),
            value: operate(operator.0, width, signed, x, y),
        },
        _ => Fold::Itself,
    }
}

// A selection is the one that its condition chooses, or the one that both are.
fn choose(arena: &Arena, shape: Shape, condition: u64, then: u64, otherwise: u64) -> Fold
    requires { IsNode arena.now (node.Choose shape condition then otherwise) }
    ensures { IsFold arena.now (node.Choose shape condition then otherwise) result }
{
    match constant(arena, condition) {
        Some((_, value)) => Fold::There(if value == 0 { otherwise } else { then }),
        None if then == otherwise => Fold::There(then),
        None => Fold::Itself,
    }
}

// A part that is the whole word is that word.
#[tactic(auto, using(crate::proofs::Folds::part_there, crate::proofs::Arenas::word_there))]
fn part_of(arena: &Arena, low: u32, width: u32, operand: u64) -> Fold
    requires { IsNode arena.now (node.Part low width operand) }
    ensures { IsFold arena.now (node.Part low width operand) result }
{
    if low == 0 && shape_of(*arena.node(operand)) == Shape::Word(width) {
        return Fold::There(operand);
    }
    match constant(arena, operand) {
        Some((_, value)) => Fold::Constant {
            width,
            value: part(value, low, width),
        },
        None => Fold::Itself,
    }
}

#[tactic(auto, using(crate::proofs::Arenas::shape_there))]
fn extended(arena: &Arena, from: u32, to: u32, signed: bool, operand: u64) -> Fold
    requires { IsNode arena.now (node.Extend from to signed operand) }
    ensures { IsFold arena.now (node.Extend from to signed operand) result }
{
    match constant(arena, operand) {
        Some((_, value)) => Fold::Constant {
            width: to,
            value: extend(from, value, to, signed),
        },
        None if from == to => Fold::There(operand),
        None => Fold::Itself,
    }
}

fn concat(arena: &Arena, left_width: u32, left: u64, right_width: u32, right: u64) -> Fold
    requires { IsNode arena.now (node.Concat left_width left right_width right) }
    ensures { IsFold arena.now (node.Concat left_width left right_width right) result }
{
    match (constant(arena, left), constant(arena, right)) {
        (Some((_, x)), Some((_, y))) => Fold::Constant {
            width: left_width + right_width,
            value: beside(left_width, x, right_width, y),
        },
        _ => Fold::Itself,
    }
}

#[tactic(auto, using(crate::proofs::Folds::copied_there, crate::proofs::Arenas::shape_there))]
fn repeated(arena: &Arena, count: u32, width: u32, operand: u64) -> Fold
    requires { IsNode arena.now (node.Copies count width operand) }
    ensures { IsFold arena.now (node.Copies count width operand) result }
{
    match constant(arena, operand) {
        Some((_, value)) => Fold::Constant {
            width: count * width,
            value: copies(count, width, value),
        },
        None if count == 1 => Fold::There(operand),
        None => Fold::Itself,
    }
}

/// What a node is folded to.
pub fn folded(arena: &Arena, node: Node) -> Fold
    requires { IsNode arena.now node }
    ensures { IsFold arena.now node result }
{
    match node {
        Node::Unary {
            operator,
            width,
            operand,
        } => unary(arena, operator, width, operand),
        Node::Binary {
            operator,
            width,
            signed,
            left,
            right,
        } => binary(arena, operator, width, signed, left, right),
        Node::Choose {
            shape,
            condition,
            then,
            otherwise,
        } => choose(arena, shape, condition, then, otherwise),
        Node::Part {
            low,
            width,
            operand,
        } => part_of(arena, low, width, operand),
        Node::Extend {
            from,
            to,
            signed,
            operand,
        } => extended(arena, from, to, signed, operand),
        Node::Concat {
            left_width,
            left,
            right_width,
            right,
        } => concat(arena, left_width, left, right_width, right),
        Node::Copies {
            count,
            width,
            operand,
        } => repeated(arena, count, width, operand),
        _ => Fold::Itself,
    }
}
