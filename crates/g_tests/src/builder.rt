ghost use Rattle.std.specs.Prelude.{◌≡◌, [], IfOk};
ghost use Rattle.g_net.specs.Network.{node_count};

use g_arith::{less, multiply, subtract};
use g_build::Builder;
use g_net::{Gate, Network, values_stay};
use g_rules::{GateRule, RuleBook, Shape, and_constant};
use lz_base::{Name, OutOfMemory, Port};
use std::alloc::Global;

// A network with an input of eight bits, whose literals are 2, 4 and so on.
fn inputs(alloc: Global) -> Result<Network, OutOfMemory>
    ensures no_output { IfOk result (λ n. n.outputs ≡ []) }
    ensures inputs { IfOk result (λ n. node_count n ≡ 9) }
{
    let model = Name::new(alloc, b"t")?;
    let name = Name::new(alloc, b"a")?;
    let mut network = Network::new(alloc, model, None);
    network.input(Port { name, width: 8 })?;
    Ok(network)
}

fn builder<'a>(alloc: Global, book: &'a RuleBook) -> Result<Builder<'a>, OutOfMemory>
    ensures no_output { IfOk result (λ b. b.part.outputs ≡ []) }
    ensures inputs { IfOk result (λ b. node_count b.part ≡ 9) }
{
    Builder::new(alloc, inputs(alloc)?, book)
}

// What is asked of a builder.
#[derive(Clone, Copy)]
enum Task {
    AndTwice,
    SumTwice,
    Difference,
    DifferenceOfWords,
    ThreeBelowFive,
    // whether 5 is less than 13, which as a signed word of four bits is -3
    FiveBelowThirteen { signed: bool },
    ProductOfWords,
    ProductWithFive,
}

// An `and` that is asked for twice is answered by its literal twice.
fn and_twice(builder: &mut Builder<'_>) -> Result<bool, OutOfMemory>
    requires no_output { builder.old.part.outputs ≡ [] }
    requires inputs { node_count builder.old.part ≡ 9 }
{
    values_stay();
    let one = builder.gate(Shape::And(2, 4))?;
    let other = builder.gate(Shape::And(2, 4))?;
    Ok(one == 18 && other == 18)
}

// A sum that is asked for in two orders is answered by its second literal twice.
fn sum_twice(builder: &mut Builder<'_>) -> Result<bool, OutOfMemory>
    requires no_output { builder.old.part.outputs ≡ [] }
    requires inputs { node_count builder.old.part ≡ 9 }
{
    values_stay();
    let one = builder.carry(2, 4, 6)?;
    let other = builder.carry(6, 4, 2)?;
    Ok(one.1 == 20 && other.1 == 20)
}

// The difference of 3 and 5.
fn difference(alloc: Global, builder: &mut Builder<'_>) -> Result<bool, OutOfMemory>
    requires no_output { builder.old.part.outputs ≡ [] }
    requires inputs { node_count builder.old.part ≡ 9 }
{
    let bits = subtract(alloc, builder, &[1, 1, 0, 0], &[1, 0, 1, 0])?;
    Ok(bits.as_slice() == [0, 1, 1, 1].as_slice())
}

// Whether a task is done, and the literals that are told are right.
fn is_answered(alloc: Global, builder: &mut Builder<'_>, task: Task) -> Result<bool, OutOfMemory>
    requires no_output { builder.old.part.outputs ≡ [] }
    requires inputs { node_count builder.old.part ≡ 9 }
{
    match task {
        Task::AndTwice => and_twice(builder),
        Task::SumTwice => sum_twice(builder),
        Task::Difference => difference(alloc, builder),
        Task::DifferenceOfWords => {
            subtract(alloc, builder, &[2, 4, 6, 8], &[10, 12, 14, 16])?;
            Ok(true)
        }
        Task::ThreeBelowFive => {
            Ok(less(alloc, builder, &[1, 1, 0, 0], &[1, 0, 1, 0], false)? == 1)
        }
        Task::FiveBelowThirteen { signed } => {
            let below = less(alloc, builder, &[1, 0, 1, 0], &[1, 0, 1, 1], signed)?;
            Ok(below == if signed { 0 } else { 1 })
        }
        Task::ProductOfWords => {
            multiply(alloc, builder, &[2, 4, 6, 8], &[10, 12, 14, 16])?;
            Ok(true)
        }
        Task::ProductWithFive => {
            multiply(alloc, builder, &[2, 4, 6, 8], &[1, 0, 1, 0])?;
            Ok(true)
        }
    }
}

// The gates that a task makes. A product of two words has ten `and` gates and six sums; of the rows of a number only those
// of its ones are added: one addition of two bits.
fn are_its_gates(task: Task, gates: &[Gate]) -> bool {
    match task {
        Task::AndTwice => gates == [Gate::And(2, 4)].as_slice(),
        Task::SumTwice => gates == [Gate::Carry(2, 4, 6)].as_slice(),
        Task::DifferenceOfWords => gates.len() == 4,
        Task::ProductOfWords => gates.len() == 16,
        Task::ProductWithFive => gates.len() == 2,
        _ => true,
    }
}

fn is_done(alloc: Global, book: &RuleBook, task: Task) -> Result<bool, OutOfMemory> {
    let mut builder = builder(alloc, book)?;
    let answered = matches!(is_answered(alloc, &mut builder, task), Ok(true));
    let network = builder.finish();
    Ok(answered && are_its_gates(task, network.gates()))
}

#[test]
fn makes_each_gate_once(rt: HostRuntime) {
    let book = RuleBook::new(rt.alloc());
    assert!(rt; matches!(is_done(rt.alloc(), &book, Task::AndTwice), Ok(true)));
    assert!(rt; matches!(is_done(rt.alloc(), &book, Task::SumTwice), Ok(true)));
}

const WITHOUT_RULES: &[Task] = &[
    Task::Difference,
    Task::DifferenceOfWords,
    Task::ThreeBelowFive,
    Task::FiveBelowThirteen { signed: false },
    Task::FiveBelowThirteen { signed: true },
];

#[test]
fn subtracts_and_compares(rt: HostRuntime) {
    let book = RuleBook::new(rt.alloc());
    for (at, task) in WITHOUT_RULES.iter().enumerate() {
        assert!(rt;
            matches!(is_done(rt.alloc(), &book, *task), Ok(true)),
            "task {at}"
        );
    }
}

#[test]
fn products_have_few_gates(rt: HostRuntime) {
    let mut book = RuleBook::new(rt.alloc());
    let rule = Box::new(rt.alloc(), |s: Shape| and_constant(s)).expect(&rt, "memory");
    book.push(GateRule::new(rule)).expect(&rt, "memory");
    assert!(rt; matches!(is_done(rt.alloc(), &book, Task::ProductOfWords), Ok(true)));
    assert!(rt; matches!(is_done(rt.alloc(), &book, Task::ProductWithFive), Ok(true)));
}
