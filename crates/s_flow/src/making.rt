ghost use Rattle.std.specs.Prelude.{◌≡◌, ◌<◌, ◌≤◌, ◌+◌, ◌++◌, ◌==◌, ◌^◌, [], ◌∷◌, ℕ, List, map, length, IfOk, OnOk, IsSome, if◌then◌else◌};
ghost use Rattle.lz_base.specs.Names.{AreDistinct};
ghost use Rattle.lz_machine.specs.Machine.{Realises};
ghost use Rattle.n_cells.specs.AsMachine.{netlist_machine};
ghost use Rattle.n_cells.specs.Netlist.{names_of, net_count, AllBelow, IsWellFormed};
ghost use Rattle.v_syntax.specs.Small.{HasNames, input_names, register_names, read_names};
ghost use Rattle.v_meaning.specs.Cycle.{operate, bit_ports, clock_of};
ghost use Rattle.v_meaning.specs.SmallMachine.{EverySchedule, module_machine};
ghost use Rattle.s_flow.specs.Made.{place_of, net_among, free_net, value_net, cells_of, table_of, flops_of, nets_from, netlist_of, names_in, bit_number, inverted_if};

use lz_base::{Name, Num, OutOfMemory, Port};
use n_cells::{Netlist, NetlistMaker, machine_lasts, one_valuation};
use std::alloc::Global;
use v_syntax::{SmallExpr, SmallModule, SmallOperand, SmallOperator, SmallPort};

// The names of the inputs behind the clock, in order.
fn inputs_of<'a>(alloc: Global, ports: &'a [SmallPort]) -> Result<Vec<&'a Name>, OutOfMemory>
    ensures { IfOk result (λ v. names_in v.items ≡ input_names ports.now) }
{
    let mut names = Vec::new(alloc);
    for port in ports {
        if let SmallPort::Input(ident) = port {
            names.push(&ident.name)?;
        }
    }
    Ok(names)
}

// The names of the registers, in order.
fn registers_of<'a>(alloc: Global, ports: &'a [SmallPort]) -> Result<Vec<&'a Name>, OutOfMemory>
    ensures { IfOk result (λ v. names_in v.items ≡ register_names ports.now) }
{
    let mut names = Vec::new(alloc);
    for port in ports {
        if let SmallPort::Register(ident) = port {
            names.push(&ident.name)?;
        }
    }
    Ok(names)
}

// How many names stand before the first of this name.
fn place_of(names: &[&Name], name: &Name) -> usize
    ensures place { result ≡ place_of (names_in names.now) name.now }
    ensures within { result ≤ length names.now }
{
    for (place, other) in names.iter().enumerate() {
        if other.bytes() == name.bytes() {
            return place;
        }
    }
    names.len()
}

// The names that have nets of their own: the inputs, and then the registers.
#[derive(Drop)]
struct Nets<'a> {
    inputs: Vec<&'a Name>,
    registers: Vec<&'a Name>,
}

// The net of a name.
#[tactic(auto, using(crate::proofs::Names::net_first, crate::proofs::Names::net_second))]
fn net_of(nets: &Nets<'_>, name: &Name) -> Num
    ensures { result ≡ net_among (names_in nets.now.inputs.items) (names_in nets.now.registers.items) name.now }
{
    let place = place_of(nets.inputs.as_slice(), name);
    if place < nets.inputs.len() {
        2 + place as Num
    } else {
        2 + nets.inputs.len() as Num + place_of(nets.registers.as_slice(), name) as Num
    }
}

fn operate(operator: SmallOperator, a: bool, b: bool) -> bool
    ensures { result ≡ operate operator a b }
{
    match operator {
        SmallOperator::And => a && b,
        SmallOperator::Or => a || b,
        SmallOperator::Xor => a ^ b,
    }
}

fn inverted_if(inverted: bool, bit: bool) -> bool
    ensures { result ≡ inverted_if inverted bit }
{
    if inverted { !bit } else { bit }
}

// The bit that the table of two operands has for these bits of its leaves.
fn table_bit(operator: SmallOperator, inverted: (bool, bool), leaves: (bool, bool)) -> u64
    ensures value { result ≡ bit_number (operate operator (inverted_if inverted.0 leaves.0) (inverted_if inverted.1 leaves.1)) }
    ensures small { result ≤ 1 }
{
    if operate(
        operator,
        inverted_if(inverted.0, leaves.0),
        inverted_if(inverted.1, leaves.1),
    ) {
        1
    } else {
        0
    }
}

// The table of two operands.
fn table_of(operator: SmallOperator, a: bool, b: bool) -> u64
    ensures { result ≡ table_of operator a b }
{
    table_bit(operator, (a, b), (false, false))
        + 2 * table_bit(operator, (a, b), (true, false))
        + 4 * table_bit(operator, (a, b), (false, true))
        + 8 * table_bit(operator, (a, b), (true, true))
}

// The number of the first net behind the inputs and the registers.
fn free_net(nets: &Nets<'_>) -> Num
    ensures { result ≡ free_net (names_in nets.now.inputs.items) (names_in nets.now.registers.items) }
{
    2 + nets.inputs.len() as Num + nets.registers.len() as Num
}

// The net of the assigned value.
fn value_net(nets: &Nets<'_>, value: &SmallExpr) -> Num
    ensures { result ≡ value_net (names_in nets.now.inputs.items) (names_in nets.now.registers.items) value.now }
{
    match value {
        SmallExpr::One(operand) => {
            if operand.inverted {
                free_net(nets)
            } else {
                net_of(nets, &operand.name.name)
            }
        }
        SmallExpr::Two(_, _, _) => free_net(nets),
    }
}

// Appends an input of one bit for each name.
fn push_inputs(maker: &mut NetlistMaker, names: &[&Name]) -> Result<(), OutOfMemory>
    requires no_flop { maker.old.flops ≡ [] }
    requires no_cell { maker.old.cells ≡ [] }
    requires no_output { maker.old.outputs ≡ [] }
    requires distinct { AreDistinct (names_of maker.old ++ names_in names.now) }
    ensures { OnOk result (maker.new ≡ record maker.old { inputs = maker.old.inputs ++ bit_ports (names_in names.now) }) }
{
    for name in names {
        maker.input(Port {
            name: Name::clone(name)?,
            width: 1,
        })?;
    }
    Ok(())
}

// Appends a flip-flop for each register, with the constant 1 as its enable: the target takes the net of the value, and
// each other its own.
fn push_flips(
    maker: &mut NetlistMaker,
    names: &[&Name],
    first: Num,
    target: &Name,
    net: Num,
) -> Result<(), OutOfMemory>
    requires clocked { IsSome maker.old.clock }
    requires no_cell { maker.old.cells ≡ [] }
    requires no_output { maker.old.outputs ≡ [] }
    requires fits { first < 2 ^ 127 }
    ensures { OnOk result (maker.new ≡ record maker.old { flops = maker.old.flops ++ flops_of first (names_in names.now) target.now net }) }
{
    for (index, name) in names.iter().enumerate() {
        let own = first + index as Num;
        let taken = if name.bytes() == target.bytes() {
            net
        } else {
            own
        };
        maker.flip(false, taken, 1)?;
    }
    Ok(())
}

// Appends the cell of the value, where it has one.
fn push_cell(
    maker: &mut NetlistMaker,
    nets: &Nets<'_>,
    value: &SmallExpr,
) -> Result<(), OutOfMemory>
    requires no_output { maker.old.outputs ≡ [] }
    requires there { AllBelow (net_count maker.old) (map (net_among (names_in nets.now.inputs.items) (names_in nets.now.registers.items)) (read_names value.now)) }
    ensures { OnOk result (maker.new ≡ record maker.old { cells = maker.old.cells ++ cells_of (names_in nets.now.inputs.items) (names_in nets.now.registers.items) value.now }) }
{
    match value {
        SmallExpr::One(a) => {
            if a.inverted {
                maker.lut(&[net_of(nets, &a.name.name)], 1)?;
            }
        }
        SmallExpr::Two(a, operator, b) => {
            let leaves = [net_of(nets, &a.name.name), net_of(nets, &b.name.name)];
            maker.lut(&leaves, table_of(*operator, a.inverted, b.inverted))?;
        }
    }
    Ok(())
}

// Appends an output of one bit for each register.
fn push_outputs(maker: &mut NetlistMaker, names: &[&Name], first: Num) -> Result<(), OutOfMemory>
    requires distinct { AreDistinct (names_of maker.old ++ names_in names.now) }
    requires there { first + length names.now ≤ net_count maker.old }
    requires fits { first < 2 ^ 127 }
    ensures { OnOk result (maker.new ≡ record maker.old { outputs = maker.old.outputs ++ bit_ports (names_in names.now); nets = maker.old.nets ++ nets_from first (names_in names.now) }) }
{
    for (index, name) in names.iter().enumerate() {
        maker.output(Name::clone(name)?, &[first + index as Num])?;
    }
    Ok(())
}

// The netlist, by its definition.
fn build(alloc: Global, small: &SmallModule) -> Result<Netlist, OutOfMemory>
    requires { HasNames small.now }
    ensures is { IfOk result (λ n. n ≡ netlist_of small.now) }
    ensures formed { IfOk result IsWellFormed }
{
    let nets = Nets {
        inputs: inputs_of(alloc, small.ports.as_slice())?,
        registers: registers_of(alloc, small.ports.as_slice())?,
    };
    let clock = small.event.name.clone()?;
    let mut maker = NetlistMaker::new(alloc, small.name.name.clone()?, Some(clock));
    push_inputs(&mut maker, nets.inputs.as_slice())?;
    let first = 2 + nets.inputs.len() as Num;
    let net = value_net(&nets, &small.value);
    push_flips(
        &mut maker,
        nets.registers.as_slice(),
        first,
        &small.target.name,
        net,
    )?;
    push_cell(&mut maker, &nets, &small.value)?;
    push_outputs(&mut maker, nets.registers.as_slice(), first)?;
    Ok(maker.finish())
}

/// A netlist that realises the module: it has the module's name, clock and ports, and whatever it shows over any
/// words at its inputs, the module may show under some choice of the bits that it leaves open and under every schedule.
/// `OutOfMemory` is the only other answer.
pub fn make(alloc: Global, small: &SmallModule) -> Result<Netlist, OutOfMemory>
    requires { HasNames small.now }
    ensures formed { IfOk result IsWellFormed }
    ensures realises { IfOk result (λ n. Realises (module_machine EverySchedule small.now) (netlist_machine n)) }
{
    let netlist = build(alloc, small)?;
    one_valuation();
    machine_lasts();
    Ok(netlist)
}
