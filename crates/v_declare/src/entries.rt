ghost use Rattle.std.specs.Prelude.{◌≡◌, ◌≤◌, List, Option, false, not, ◌&&◌, ◌||◌, if◌then◌else◌, IfOk};
ghost use Rattle.v_syntax.specs.declared.expr.Range.{Range};
ghost use Rattle.v_meaning.specs.declared.names.Entry.{Entry};
ghost use Rattle.v_meaning.specs.Expressions.{is_parameter};
ghost use Rattle.v_meaning.specs.Declarations.{entry, range_width, parameter_entry, first_value, net_kind, variable_kind, input_kind, port_kind};
ghost use Rattle.v_meaning.specs.ConstantRules.{value_fault, optional_fault};
ghost use Rattle.v_names.specs.Words.{IsWord};
ghost use Rattle.v_declare.specs.Walks.{Judges};
ghost use Rattle.v_declare.specs.Shapes.{IsShape};

use crate::bounds::{Shape, value};
use crate::counts::Declared;
use crate::roles::NameRoles;
use lz_base::{Name, OutOfMemory, Stop};
use std::alloc::Global;
use v_meaning::{Entry, Kind};
use v_syntax::{Ident, ParameterGroup, Placed, PortKind, Setting};

/// The entry of a name that is no parameter.
pub(crate) fn entry(
    ident: &Ident,
    kind: Kind,
    signed: bool,
    shape: Shape,
    first: Option<u128>,
) -> Result<Entry, OutOfMemory>
    requires kind { is_parameter kind ≡ false }
    requires has_bit { 1 ≤ shape.width }
    requires within { shape.width ≤ 128 }
    ensures word { IfOk result IsWord }
    ensures entry { IfOk result (λ e. (names : List Entry) (range : Option Range) → IsShape names range shape → e ≡ entry names signed range ident.now kind first) }
{
    Ok(Entry {
        name: ident.name.clone()?,
        at: ident.at,
        kind,
        width: shape.width,
        signed,
        low: shape.low,
        is_vector: shape.is_vector,
        first,
    })
}

// ---- parameters

// The width of a parameter with a value of this width.
fn parameter_width(shape: Shape, width: u32) -> u32
    ensures { result ≡ (if shape.is_vector then shape.width else width) }
{
    if shape.is_vector { shape.width } else { width }
}

// Whether a parameter with a value of this sign is signed.
fn parameter_sign(shape: Shape, declared: bool, signed: bool) -> bool
    ensures { result ≡ (declared || (not shape.is_vector && signed)) }
{
    declared || (!shape.is_vector && signed)
}

/// The entry of a parameter, over the names before it.
pub(crate) fn parameter(
    alloc: Global,
    names: &Declared,
    group: &ParameterGroup,
    shape: Shape,
    setting: &Setting,
) -> Result<Entry, Stop>
    requires shape { IsShape names.now group.now.range shape }
    ensures judged { Judges (value_fault names.now setting.now.value) result }
    ensures word { IfOk result IsWord }
    ensures entry { IfOk result (λ e. e ≡ parameter_entry names.now group.now setting.now) }
{
    let constant = value(alloc, names, setting.value.at, &setting.value.expr)?;
    let width = parameter_width(shape, constant.width());
    let signed = parameter_sign(shape, group.signed, constant.is_signed());
    Ok(Entry {
        name: setting.name.name.clone()?,
        at: setting.name.at,
        kind: Kind::Parameter(constant.assigned(width)),
        width,
        signed,
        low: shape.low,
        is_vector: shape.is_vector,
        first: None,
    })
}

// ---- other names

/// The value that a name has before the first cycle, over the names before it.
pub(crate) fn first_value(
    alloc: Global,
    names: &Declared,
    shape: Shape,
    x: &Option<Placed>,
) -> Result<Option<u128>, Stop>
    requires has_bit { 1 ≤ shape.width }
    requires within { shape.width ≤ 128 }
    ensures judged { Judges (optional_fault names.now x.now) result }
    ensures value { IfOk result (λ first. (range : Option Range) → IsShape names.now range shape → first ≡ first_value names.now range x.now) }
{
    match x {
        None => Ok(None),
        Some(x) => {
            let constant = value(alloc, names, x.at, &x.expr)?;
            Ok(Some(constant.assigned(shape.width)))
        }
    }
}

/// What a net is declared as, behind these names.
pub(crate) fn net_kind(names: &Declared) -> Kind
    ensures plain { is_parameter result ≡ false }
    ensures kind { result ≡ net_kind names.now }
{
    Kind::Net(names.settled())
}

/// What a variable is declared as, behind these names.
pub(crate) fn variable_kind<'a>(roles: &NameRoles<'a>, names: &Declared, name: &'a Name) -> Kind
    ensures plain { is_parameter result ≡ false }
    ensures kind { result ≡ variable_kind roles.now names.now name.now }
{
    if roles.is_combinational(name) {
        Kind::Combinational(names.settled())
    } else {
        Kind::Variable(names.variables())
    }
}

// What an input of this width is declared as, behind these names.
fn input_kind(roles: &NameRoles<'_>, names: &Declared, width: u32, name: &Name) -> Kind
    ensures plain { is_parameter result ≡ false }
    ensures kind { (range : Option Range) → width ≡ range_width names.now range → result ≡ input_kind roles.now names.now range name.now }
{
    if roles.is_event(name) && width == 1 {
        Kind::Clock
    } else {
        Kind::Input(names.inputs())
    }
}

/// What a port of this width is declared as, behind these names.
pub(crate) fn port_kind<'a>(
    roles: &NameRoles<'a>,
    names: &Declared,
    kind: PortKind,
    width: u32,
    name: &'a Name,
) -> Kind
    ensures plain { is_parameter result ≡ false }
    ensures kind { (range : Option Range) → width ≡ range_width names.now range → result ≡ port_kind roles.now names.now kind range name.now }
{
    match kind {
        PortKind::Input => input_kind(roles, names, width, name),
        PortKind::Output => net_kind(names),
        PortKind::OutputReg => variable_kind(roles, names, name),
    }
}
