ghost use Rattle.std.specs.Prelude.{◌≡◌, None, false};
ghost use Rattle.g_rules.specs.declared.applying.Outcome.{Outcome};
ghost use Rattle.g_rules.specs.declared.shapes.Shape.{Shape};
ghost use Rattle.g_rules.specs.Applying.{outcome_of, deep_of, Leaves, IsOutcome};

use crate::literal::{differ, inverted};
use crate::{Deep, DeepRule, GateRule, Rewrite, RuleBook, Shape};
use lz_base::Num;

/// What the rules leave of a shape: a literal of its value, or a shape that has its value, inverted where it says so.
#[derive(Clone, Copy, Debug, PartialEq, Eq)]
pub enum Outcome {
    Literal(Num),
    Gate { shape: Shape, invert: bool },
}

/// The `and` and `xor` gates of a network, by node.
pub trait Gates {
    ghost use Rattle.std.specs.Prelude.{ℕ, Option};
    ghost use Rattle.g_rules.specs.declared.shapes.Shape.{Shape};

    ghost gate_at: { Self → ℕ → Option Shape };

    /// The gate at a node, or None where the node is none.
    fn gate(&self, node: Num) -> Option<Shape>
        ensures { result ≡ gate_at self.now node };
}

// What is left of a shape that is to be inverted or not, where a rule rewrites it.
fn after(shape: Shape, invert: bool, rewrite: Rewrite) -> Outcome
    ensures { result ≡ outcome_of shape invert rewrite }
{
    match rewrite {
        Rewrite::Keep => Outcome::Gate { shape, invert },
        Rewrite::Literal(literal) => Outcome::Literal(inverted(literal, invert)),
        Rewrite::And(a, b) => Outcome::Gate {
            shape: Shape::And(a, b),
            invert,
        },
        Rewrite::Xor { a, b, invert: i } => Outcome::Gate {
            shape: Shape::Xor(a, b),
            invert: differ(invert, i),
        },
    }
}

// The shape with the gates that stand at its nodes.
fn look<G: Gates>(gates: &G, shape: Shape) -> Deep
    ensures { result ≡ deep_of (G.gate_at gates.now) shape }
{
    let (a, b) = match shape {
        Shape::And(a, b) => (a, b),
        Shape::Xor(a, b) => (a, b),
    };
    Deep {
        shape,
        left: gates.gate(a / 2),
        right: gates.gate(b / 2),
    }
}

// What plain rules leave of a shape.
fn apply_plain(rules: &[GateRule], first: Shape) -> Outcome
    ensures order { Leaves (λ rule s r. post rule.f s r) rules.now (Outcome.Gate first false) result }
    ensures right { IsOutcome (λ node. None) first result }
{
    let mut shape = first;
    let mut invert = false;
    for rule in rules {
        match after(shape, invert, rule.rewrite(shape)) {
            Outcome::Literal(literal) => return Outcome::Literal(literal),
            Outcome::Gate {
                shape: s,
                invert: i,
            } => {
                shape = s;
                invert = i;
            }
        }
    }
    Outcome::Gate { shape, invert }
}

// What rules that look at the gates below leave of a shape that is to be inverted or not.
fn apply_deep<G: Gates>(rules: &[DeepRule], gates: &G, from: Shape, inverted: bool) -> Outcome
    ensures order { Leaves (λ rule s r. post rule.f (deep_of (G.gate_at gates.now) s) r) rules.now (Outcome.Gate from inverted) result }
    ensures right { (first : Shape) → IsOutcome (G.gate_at gates.now) first (Outcome.Gate from inverted) → IsOutcome (G.gate_at gates.now) first result }
{
    let mut shape = from;
    let mut invert = inverted;
    for rule in rules {
        match after(shape, invert, rule.rewrite(look(gates, shape))) {
            Outcome::Literal(literal) => return Outcome::Literal(literal),
            Outcome::Gate {
                shape: s,
                invert: i,
            } => {
                shape = s;
                invert = i;
            }
        }
    }
    Outcome::Gate { shape, invert }
}

/// What the rules of a book leave of a shape: each plain rule is asked once, in order, and then each rule that looks at
/// the gates below, for the shape that the rule before it left. The gates are looked up for each of these anew. A
/// literal is final. Whatever the rules are, it has the value of the shape.
pub fn apply<G: Gates>(book: &RuleBook, gates: &G, shape: Shape) -> Outcome
    ensures order { (left : Outcome) × Leaves (λ rule s r. ⟦<Box<dyn Fn(Shape) -> Rewrite> as Fn(Shape) -> Rewrite>⟧.post rule.f s r) book.now.plain (Outcome.Gate shape false) left × Leaves (λ rule s r. ⟦<Box<dyn Fn(Deep) -> Rewrite> as Fn(Deep) -> Rewrite>⟧.post rule.f (deep_of (G.gate_at gates.now) s) r) book.now.deep left result }
    ensures right { IsOutcome (G.gate_at gates.now) shape result }
{
    match apply_plain(book.plain.as_slice(), shape) {
        Outcome::Literal(literal) => Outcome::Literal(literal),
        Outcome::Gate { shape: s, invert } => apply_deep(book.deep.as_slice(), gates, s, invert),
    }
}
