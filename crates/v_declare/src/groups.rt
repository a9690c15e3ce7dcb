ghost use Rattle.std.specs.Prelude.{◌≡◌, ◌++◌, ◌∷◌, [], None, OnOk, flat_map};
ghost use Rattle.v_syntax.specs.declared.module.Variable.TheVariants as v;
ghost use Rattle.v_meaning.specs.declared.names.Kind.TheVariants as k;
ghost use Rattle.v_meaning.specs.Declarations.{entry, count_of, is_memory, lowest_address, address_count, parameter_entry, port_entry, wire_entry, variable_entry, behind_parameters, behind_ports, behind_item};
ghost use Rattle.v_meaning.specs.ConstantRules.{value_fault, optional_fault, variable_faults, range_faults, is_address_range, parameter_faults, port_faults, item_faults};
ghost use Rattle.v_declare.specs.Walks.{Judges};
ghost use Rattle.v_declare.specs.Shapes.{HasShape};
ghost use Rattle.v_declare.specs.Groups.{wires_faults, regs_faults, behind_wires, behind_regs, setting_faults, net_faults};

use crate::bounds::{Shape, addresses_of, shape_of};
use crate::counts::Declared;
use crate::entries::{entry, first_value, net_kind, parameter, port_kind, variable_kind};
use crate::faults::{judge_expr, judge_stmt};
use crate::roles::NameRoles;
use lz_base::Stop;
use std::alloc::Global;
use v_meaning::Kind;
use v_syntax::{
    Declared as Declaration, Ident, Item, ParameterGroup, PortGroup, Range, Setting, Variable,
};

// ---- parameters

// Declares a parameter.
fn declare_setting(
    alloc: Global,
    names: &mut Declared,
    group: &ParameterGroup,
    shape: Shape,
    setting: &Setting,
) -> Result<(), Stop>
    requires shape { HasShape names.old group.now.range shape }
    ensures judged { Judges (value_fault names.old setting.now.value) result }
    ensures behind { OnOk result (names.new ≡ names.old ++ parameter_entry names.old group.now setting.now ∷ []) }
{
    let entry = parameter(alloc, names, group, shape, setting)?;
    Ok(names.push(entry)?)
}

/// Declares parameters.
pub(crate) fn declare_parameters(
    alloc: Global,
    names: &mut Declared,
    group: &ParameterGroup,
) -> Result<(), Stop>
    ensures judged { Judges (parameter_faults names.old group.now) result }
    ensures behind { OnOk result (names.new ≡ behind_parameters names.old group.now) }
{
    let shape = shape_of(alloc, names, &group.range)?;
    let settings = group.settings.as_slice();
    for setting in settings {
        declare_setting(alloc, names, group, shape, setting)?;
    }
    Ok(())
}

// ---- ports

// Declares a port.
fn declare_port<'a>(
    alloc: Global,
    roles: &NameRoles<'a>,
    names: &mut Declared,
    group: &'a PortGroup,
    shape: Shape,
    port: &'a Declaration,
) -> Result<(), Stop>
    requires shape { HasShape names.old group.now.range shape }
    ensures judged { Judges (optional_fault names.old port.now.value) result }
    ensures behind { OnOk result (names.new ≡ names.old ++ port_entry roles.now names.old group.now port.now ∷ []) }
{
    let first = first_value(alloc, names, shape, &port.value)?;
    let kind = port_kind(roles, names, group.kind, shape.width, &port.name.name);
    let entry = entry(&port.name, kind, group.signed, shape, first)?;
    Ok(names.push(entry)?)
}

/// Declares ports.
pub(crate) fn declare_ports<'a>(
    alloc: Global,
    roles: &NameRoles<'a>,
    names: &mut Declared,
    group: &'a PortGroup,
) -> Result<(), Stop>
    ensures judged { Judges (port_faults names.old group.now) result }
    ensures behind { OnOk result (names.new ≡ behind_ports roles.now names.old group.now) }
{
    let shape = shape_of(alloc, names, &group.range)?;
    let ports = group.ports.as_slice();
    for port in ports {
        declare_port(alloc, roles, names, group, shape, port)?;
    }
    Ok(())
}

// ---- wires

// Judges the value of a net, where it has one.
fn judge_net(alloc: Global, names: &Declared, net: &Declaration) -> Result<(), Stop>
    ensures { Judges (net_faults names.now net.now) result }
{
    match &net.value {
        None => Ok(()),
        Some(value) => judge_expr(alloc, names, &value.expr),
    }
}

// Judges the values of nets.
fn judge_nets(alloc: Global, names: &Declared, nets: &[Declaration]) -> Result<(), Stop>
    ensures { Judges (flat_map (net_faults names.now) nets.now) result }
{
    for net in nets {
        judge_net(alloc, names, net)?;
    }
    Ok(())
}

// Declares a wire, whose value is judged.
fn push_wire(
    names: &mut Declared,
    signed: bool,
    range: &Option<Range>,
    shape: Shape,
    net: &Declaration,
) -> Result<(), Stop>
    requires shape { HasShape names.old range.now shape }
    ensures judged { Judges [] result }
    ensures behind { OnOk result (names.new ≡ names.old ++ wire_entry names.old signed range.now net.now ∷ []) }
{
    let kind = net_kind(names);
    let entry = entry(&net.name, kind, signed, shape, None)?;
    Ok(names.push(entry)?)
}

// Declares wires, whose values are judged.
fn push_wires(
    names: &mut Declared,
    signed: bool,
    range: &Option<Range>,
    shape: Shape,
    nets: &[Declaration],
) -> Result<(), Stop>
    requires shape { HasShape names.old range.now shape }
    ensures judged { Judges [] result }
    ensures behind { OnOk result (names.new ≡ behind_wires names.old signed range.now nets.now) }
{
    for net in nets {
        push_wire(names, signed, range, shape, net)?;
    }
    Ok(())
}

// Declares wires.
fn declare_wires(
    alloc: Global,
    names: &mut Declared,
    signed: bool,
    range: &Option<Range>,
    nets: &[Declaration],
) -> Result<(), Stop>
    ensures judged { Judges (wires_faults names.old range.now nets.now) result }
    ensures behind { OnOk result (names.new ≡ behind_wires names.old signed range.now nets.now) }
{
    let shape = shape_of(alloc, names, range)?;
    judge_nets(alloc, names, nets)?;
    push_wires(names, signed, range, shape, nets)
}

// ---- regs

// Declares a variable.
fn declare_plain<'a>(
    alloc: Global,
    roles: &NameRoles<'a>,
    names: &mut Declared,
    signed: bool,
    range: &Option<Range>,
    shape: Shape,
    variable: &'a Declaration,
) -> Result<(), Stop>
    requires shape { HasShape names.old range.now shape }
    ensures judged { Judges (variable_faults names.old (v.Plain variable.now)) result }
    ensures behind { OnOk result (names.new ≡ names.old ++ variable_entry roles.now names.old signed range.now (v.Plain variable.now) ∷ []) }
{
    let first = first_value(alloc, names, shape, &variable.value)?;
    let kind = variable_kind(roles, names, &variable.name.name);
    let entry = entry(&variable.name, kind, signed, shape, first)?;
    Ok(names.push(entry)?)
}

// Declares a memory.
fn declare_memory(
    alloc: Global,
    names: &mut Declared,
    signed: bool,
    range: &Option<Range>,
    shape: Shape,
    name: &Ident,
    words: &Range,
) -> Result<(), Stop>
    requires shape { HasShape names.old range.now shape }
    ensures judged { Judges (range_faults is_address_range names.old words.now) result }
    ensures behind { OnOk result (names.new ≡ names.old ++ entry names.old signed range.now name.now (k.Memory (count_of is_memory names.old) (lowest_address names.old words.now) (address_count names.old words.now)) None ∷ []) }
{
    let words = addresses_of(alloc, names, words)?;
    let kind = Kind::Memory(names.memories(), words.lowest, words.count);
    let entry = entry(name, kind, signed, shape, None)?;
    Ok(names.push(entry)?)
}

// Declares a variable or a memory.
fn declare_variable<'a>(
    alloc: Global,
    roles: &NameRoles<'a>,
    names: &mut Declared,
    signed: bool,
    range: &Option<Range>,
    shape: Shape,
    variable: &'a Variable,
) -> Result<(), Stop>
    requires shape { HasShape names.old range.now shape }
    ensures judged { Judges (variable_faults names.old variable.now) result }
    ensures behind { OnOk result (names.new ≡ names.old ++ variable_entry roles.now names.old signed range.now variable.now ∷ []) }
{
    match variable {
        Variable::Plain(plain) => declare_plain(alloc, roles, names, signed, range, shape, plain),
        Variable::Memory(name, words) => {
            declare_memory(alloc, names, signed, range, shape, name, words)
        }
    }
}

// Declares variables and memories.
fn declare_regs<'a>(
    alloc: Global,
    roles: &NameRoles<'a>,
    names: &mut Declared,
    signed: bool,
    range: &Option<Range>,
    variables: &'a [Variable],
) -> Result<(), Stop>
    ensures judged { Judges (regs_faults names.old range.now variables.now) result }
    ensures behind { OnOk result (names.new ≡ behind_regs roles.now names.old signed range.now variables.now) }
{
    let shape = shape_of(alloc, names, range)?;
    for variable in variables {
        declare_variable(alloc, roles, names, signed, range, shape, variable)?;
    }
    Ok(())
}

// ---- items

// Judges the values that nets are assigned.
fn judge_settings(alloc: Global, names: &Declared, settings: &[Setting]) -> Result<(), Stop>
    ensures { Judges (flat_map (setting_faults names.now) settings.now) result }
{
    for setting in settings {
        judge_expr(alloc, names, &setting.value.expr)?;
    }
    Ok(())
}

/// Judges an item and declares its names.
pub(crate) fn declare_item<'a>(
    alloc: Global,
    roles: &NameRoles<'a>,
    names: &mut Declared,
    item: &'a Item,
) -> Result<(), Stop>
    ensures judged { Judges (item_faults names.old item.now) result }
    ensures behind { OnOk result (names.new ≡ behind_item roles.now names.old item.now) }
{
    match item {
        Item::Parameters(group) => declare_parameters(alloc, names, group),
        Item::LocalParameters(group) => declare_parameters(alloc, names, group),
        Item::Wires {
            signed,
            range,
            nets,
        } => declare_wires(alloc, names, *signed, range, nets.as_slice()),
        Item::Regs {
            signed,
            range,
            variables,
        } => declare_regs(alloc, roles, names, *signed, range, variables.as_slice()),
        Item::Assigns(settings) => judge_settings(alloc, names, settings.as_slice()),
        Item::Always { body, .. } => judge_stmt(alloc, names, body),
    }
}
