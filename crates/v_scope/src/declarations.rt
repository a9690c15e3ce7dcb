ghost use Rattle.std.specs.Prelude.{◌≡◌, List, OnOk, IfOk, flat_map};
ghost use Rattle.v_meaning.specs.declared.names.Entry.{Entry};
ghost use Rattle.v_meaning.specs.Marks.{Mark, range_marks, placed_marks, assign_marks, event_marks, module_marks};
ghost use Rattle.v_scope.specs.Occurrences.{Adds, marks_in};

use crate::Occurrence;
use crate::exprs::{add, add_expr};
use crate::stmts::{add_range, add_stmt};
use lz_base::OutOfMemory;
use std::alloc::Global;
use v_syntax::{
    Declared, Event, Item, Module, ParameterGroup, Placed, PortGroup, Range, Setting, Variable,
};

// A part of a module that stands in a list of such parts.
trait Listed {
    ghost marks: { List Entry → Self → List Mark };

    // Appends its occurrences in text order.
    fn add_to<'a>(&'a self, all: &mut Vec<Occurrence<'a>>) -> Result<(), OutOfMemory>
        ensures { OnOk result (Adds all.old.items all.new.items (λ names. marks names self.now)) };
}

// Appends the occurrences of all of these.
fn add_each<'a, T: Listed>(parts: &'a [T], all: &mut Vec<Occurrence<'a>>) -> Result<(), OutOfMemory>
    ensures { OnOk result (Adds all.old.items all.new.items (λ names. flat_map (T.marks names) parts.now)) }
{
    for part in parts {
        part.add_to(all)?;
    }
    Ok(())
}

// Appends the occurrences of the bounds of a range, where there is one.
fn add_some_range<'a>(
    range: &'a Option<Range>,
    all: &mut Vec<Occurrence<'a>>,
) -> Result<(), OutOfMemory>
    ensures { OnOk result (Adds all.old.items all.new.items (λ names. range_marks names range.now)) }
{
    match range {
        None => Ok(()),
        Some(range) => add_range(range, all),
    }
}

// Appends the occurrences of the value that a name is given, where it is given one.
fn add_value<'a>(
    value: &'a Option<Placed>,
    all: &mut Vec<Occurrence<'a>>,
) -> Result<(), OutOfMemory>
    ensures { OnOk result (Adds all.old.items all.new.items (λ names. placed_marks names value.now)) }
{
    match value {
        None => Ok(()),
        Some(value) => add_expr(&value.expr, all),
    }
}

// A parameter and its value.
impl Listed for Setting {
    ghost use Rattle.v_meaning.specs.Marks.{setting_marks};

    ghost marks = { setting_marks };

    fn add_to<'a>(&'a self, all: &mut Vec<Occurrence<'a>>) -> Result<(), OutOfMemory> {
        add(all, Occurrence::Declares(&self.name))?;
        add_expr(&self.value.expr, all)?;
        add(all, Occurrence::Valued(&self.name))
    }
}

impl Listed for ParameterGroup {
    ghost use Rattle.v_meaning.specs.Marks.{parameter_marks};

    ghost marks = { parameter_marks };

    fn add_to<'a>(&'a self, all: &mut Vec<Occurrence<'a>>) -> Result<(), OutOfMemory> {
        add_some_range(&self.range, all)?;
        add_each(self.settings.as_slice(), all)
    }
}

impl Listed for Declared {
    ghost use Rattle.v_meaning.specs.Marks.{declared_marks};

    ghost marks = { declared_marks };

    fn add_to<'a>(&'a self, all: &mut Vec<Occurrence<'a>>) -> Result<(), OutOfMemory> {
        add(all, Occurrence::Declares(&self.name))?;
        add_value(&self.value, all)
    }
}

impl Listed for PortGroup {
    ghost use Rattle.v_meaning.specs.Marks.{port_marks};

    ghost marks = { port_marks };

    fn add_to<'a>(&'a self, all: &mut Vec<Occurrence<'a>>) -> Result<(), OutOfMemory> {
        add_some_range(&self.range, all)?;
        add_each(self.ports.as_slice(), all)
    }
}

impl Listed for Variable {
    ghost use Rattle.v_meaning.specs.Marks.{variable_marks};

    ghost marks = { variable_marks };

    fn add_to<'a>(&'a self, all: &mut Vec<Occurrence<'a>>) -> Result<(), OutOfMemory> {
        match self {
            Variable::Plain(declared) => declared.add_to(all),
            Variable::Memory(name, addresses) => {
                add(all, Occurrence::Declares(name))?;
                add_range(addresses, all)
            }
        }
    }
}

impl Listed for Item {
    ghost use Rattle.v_meaning.specs.Marks.{module_item_marks};

    ghost marks = { module_item_marks };

    fn add_to<'a>(&'a self, all: &mut Vec<Occurrence<'a>>) -> Result<(), OutOfMemory> {
        match self {
            Item::Parameters(group) => group.add_to(all),
            Item::LocalParameters(group) => group.add_to(all),
            Item::Wires { range, nets, .. } => {
                add_some_range(range, all)?;
                add_each(nets.as_slice(), all)
            }
            Item::Regs {
                range,
                variables,
                ..
            } => {
                add_some_range(range, all)?;
                add_each(variables.as_slice(), all)
            }
            Item::Assigns(settings) => add_assigns(settings.as_slice(), all),
            Item::Always { event, body } => {
                add_event(event, all)?;
                add_stmt(body, all)
            }
        }
    }
}

// Appends the occurrences of an assignment of a net.
fn add_assign<'a>(setting: &'a Setting, all: &mut Vec<Occurrence<'a>>) -> Result<(), OutOfMemory>
    ensures { OnOk result (Adds all.old.items all.new.items (λ names. assign_marks names setting.now)) }
{
    add(all, Occurrence::Bare(&setting.name))?;
    add_expr(&setting.value.expr, all)
}

// Appends the occurrences of the assignments of nets.
fn add_assigns<'a>(
    settings: &'a [Setting],
    all: &mut Vec<Occurrence<'a>>,
) -> Result<(), OutOfMemory>
    ensures { OnOk result (Adds all.old.items all.new.items (λ names. flat_map (assign_marks names) settings.now)) }
{
    for setting in settings {
        add_assign(setting, all)?;
    }
    Ok(())
}

// Appends the occurrence of the name of an event, where it has one.
fn add_event<'a>(event: &'a Event, all: &mut Vec<Occurrence<'a>>) -> Result<(), OutOfMemory>
    ensures { OnOk result (Adds all.old.items all.new.items (λ names. event_marks event.now)) }
{
    match event {
        Event::Posedge(name) => add(all, Occurrence::Bare(name)),
        Event::Any => Ok(()),
    }
}

/// The occurrences of a module in text order: a walk of all that stands in it, in time and memory in proportion to the
/// module. Whatever its declared names are taken to be, these are its marks. `OutOfMemory` is the only other answer.
pub fn occurrences<'a>(
    alloc: Global,
    module: &'a Module,
) -> Result<Vec<Occurrence<'a>>, OutOfMemory>
    ensures { IfOk result (λ all. (names : List Entry) → marks_in names all.items ≡ module_marks names «module».now) }
{
    let mut all = Vec::new(alloc);
    add_each(module.parameters.as_slice(), &mut all)?;
    add_each(module.ports.as_slice(), &mut all)?;
    add_each(module.items.as_slice(), &mut all)?;
    Ok(all)
}
