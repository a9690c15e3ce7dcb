use g_rules::{
    Deep, DeepRule, GateRule, Gates, Outcome, RuleBook, Shape, and_absorb, and_constant, and_order,
    and_same, and_subsume, apply, xor_cancel, xor_constant, xor_order, xor_same, xor_signs,
};
use lz_base::Num;

// One gate, at a node.
#[derive(Drop)]
struct OneGate {
    node: Num,
    shape: Shape,
}

impl Gates for OneGate {
    ghost use Rattle.std.specs.Prelude.{Some, None, ◌==◌, if◌then◌else◌};

    ghost gate_at = { λ g node. if node == g.node then Some g.shape else None };

    fn gate(&self, node: Num) -> Option<Shape> {
        if node == self.node {
            Some(self.shape)
        } else {
            None
        }
    }
}

// The gate below a shape, at node 3, the shape, and what all rules leave of it.
const LEFT: &[(Shape, Shape, Outcome)] = &[
    (Shape::And(2, 4), Shape::And(2, 2), Outcome::Literal(2)),
    (Shape::And(2, 4), Shape::Xor(2, 2), Outcome::Literal(0)),
    (
        Shape::And(2, 4),
        Shape::And(4, 2),
        Outcome::Gate {
            shape: Shape::And(2, 4),
            invert: false,
        },
    ),
    (
        Shape::And(2, 4),
        Shape::Xor(4, 3),
        Outcome::Gate {
            shape: Shape::Xor(2, 4),
            invert: true,
        },
    ),
    (Shape::And(2, 4), Shape::And(2, 6), Outcome::Literal(6)),
    (
        Shape::And(2, 4),
        Shape::And(2, 7),
        Outcome::Gate {
            shape: Shape::And(2, 5),
            invert: false,
        },
    ),
    (Shape::And(2, 4), Shape::And(7, 3), Outcome::Literal(3)),
    (Shape::Xor(2, 4), Shape::Xor(6, 3), Outcome::Literal(5)),
];

fn is_left(book: &RuleBook, case: &(Shape, Shape, Outcome)) -> bool {
    let below = OneGate {
        node: 3,
        shape: case.0,
    };
    apply(book, &below, case.1) == case.2
}

#[test]
fn rewrites(rt: HostRuntime) {
    let alloc = rt.alloc();
    let mut book = RuleBook::new(alloc);
    let kept = Outcome::Gate {
        shape: Shape::And(2, 2),
        invert: false,
    };
    assert!(rt; is_left(&book, &(Shape::And(2, 4), Shape::And(2, 2), kept)));
    let rule = Box::new(alloc, |s: Shape| and_constant(s)).expect(&rt, "memory");
    book.push(GateRule::new(rule)).expect(&rt, "memory");
    let rule = Box::new(alloc, |s: Shape| and_same(s)).expect(&rt, "memory");
    book.push(GateRule::new(rule)).expect(&rt, "memory");
    let rule = Box::new(alloc, |s: Shape| and_order(s)).expect(&rt, "memory");
    book.push(GateRule::new(rule)).expect(&rt, "memory");
    let rule = Box::new(alloc, |s: Shape| xor_constant(s)).expect(&rt, "memory");
    book.push(GateRule::new(rule)).expect(&rt, "memory");
    let rule = Box::new(alloc, |s: Shape| xor_same(s)).expect(&rt, "memory");
    book.push(GateRule::new(rule)).expect(&rt, "memory");
    let rule = Box::new(alloc, |s: Shape| xor_signs(s)).expect(&rt, "memory");
    book.push(GateRule::new(rule)).expect(&rt, "memory");
    let rule = Box::new(alloc, |s: Shape| xor_order(s)).expect(&rt, "memory");
    book.push(GateRule::new(rule)).expect(&rt, "memory");
    let rule = Box::new(alloc, |d: Deep| and_absorb(d)).expect(&rt, "memory");
    book.push_deep(DeepRule::new(rule)).expect(&rt, "memory");
    let rule = Box::new(alloc, |d: Deep| and_subsume(d)).expect(&rt, "memory");
    book.push_deep(DeepRule::new(rule)).expect(&rt, "memory");
    let rule = Box::new(alloc, |d: Deep| xor_cancel(d)).expect(&rt, "memory");
    book.push_deep(DeepRule::new(rule)).expect(&rt, "memory");
    for case in LEFT {
        assert!(rt; is_left(&book, case), "{case:?}");
    }
}
