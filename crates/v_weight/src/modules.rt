ghost use Rattle.std.specs.Prelude.{◌≡◌, ◌-◌, ◌^◌, ℕ, Bool, List, IfOk, min, map, sum, true};
ghost use Rattle.std.specs.List.{list_all};
ghost use Rattle.v_meaning.specs.declared.names.Entry.{Entry};
ghost use Rattle.v_meaning.specs.Proper.{is_sound};
ghost use Rattle.v_meaning.specs.Weights.{weight_of, net_weight, declared_weight};
ghost use Rattle.v_typing.specs.Sound.{are_sound_items};
ghost use Rattle.v_weight.specs.Saturated.{Same};

use crate::expressions::weigh;
use crate::leaves::width;
use crate::saturated::{greater, plus, times};
use crate::statements::weigh_statement;
use lz_base::OutOfMemory;
use std::alloc::Global;
use v_meaning::{Entry, Kind};
use v_names::Names;
use v_syntax::{Declared, Expr, Ident, Item, Module, Setting};

// A part of a module that stands in a list of such parts.
trait Weighs {
    ghost weight_in: { List Entry → Self → ℕ };

    ghost is_sound_in: { List Entry → Self → Bool };

    // Its weight.
    fn weigh(&self, alloc: Global, names: &Names) -> Result<u64, OutOfMemory>
        ensures { IfOk result (λ w. is_sound_in names.now self.now ≡ true → Same w (weight_in names.now self.now)) };
}

// What all of these weigh.
fn weigh_each<T: Weighs>(alloc: Global, names: &Names, parts: &[T]) -> Result<u64, OutOfMemory>
    ensures { IfOk result (λ w. list_all (T.is_sound_in names.now) parts.now ≡ true → Same w (sum (map (T.weight_in names.now) parts.now))) }
{
    let mut all = 0u64;
    for part in parts {
        let one = part.weigh(alloc, names)?;
        all = plus(all, one);
    }
    Ok(all)
}

// A net that is assigned: its width, and the expression at the greater of both widths (IEEE Std 1364-2005, 6.1).
fn weigh_net(alloc: Global, names: &Names, ident: &Ident, x: &Expr) -> Result<u64, OutOfMemory>
    ensures { IfOk result (λ w. is_sound names.now x.now ≡ true → Same w (net_weight names.now ident.now x.now)) }
{
    let width = width(names, ident);
    let x = weigh(alloc, names, x)?;
    let common = greater(width, x.width);
    Ok(plus(width, x.weight.at(common)))
}

// A wire, and what it is assigned where it is declared (6.1.1).
impl Weighs for Declared {
    ghost use Rattle.v_meaning.specs.Weights.{wire_weight};
    ghost use Rattle.v_typing.specs.Sound.{is_sound_value};

    ghost weight_in = { λ names d. wire_weight names d.name d.value };

    ghost is_sound_in = { λ names d. is_sound_value names d.value };

    fn weigh(&self, alloc: Global, names: &Names) -> Result<u64, OutOfMemory> {
        match &self.value {
            Some(value) => {
                let all = weigh_net(alloc, names, &self.name, &value.expr)?;
                Ok(all)
            }
            None => Ok(0),
        }
    }
}

// A net that an `assign` assigns.
impl Weighs for Setting {
    ghost use Rattle.v_meaning.specs.Proper.{is_sound};
    ghost use Rattle.v_meaning.specs.Weights.{net_weight};

    ghost weight_in = { λ names s. net_weight names s.name s.value.expr };

    ghost is_sound_in = { λ names s. is_sound names s.value.expr };

    fn weigh(&self, alloc: Global, names: &Names) -> Result<u64, OutOfMemory> {
        weigh_net(alloc, names, &self.name, &self.value.expr)
    }
}

impl Weighs for Item {
    ghost use Rattle.v_meaning.specs.Weights.{item_weight};
    ghost use Rattle.v_typing.specs.Sound.{is_sound_item};

    ghost weight_in = { item_weight };

    ghost is_sound_in = { is_sound_item };

    fn weigh(&self, alloc: Global, names: &Names) -> Result<u64, OutOfMemory> {
        match self {
            Item::Wires { nets, .. } => {
                let all = weigh_each(alloc, names, nets.as_slice())?;
                Ok(all)
            }
            Item::Assigns(settings) => {
                let all = weigh_each(alloc, names, settings.as_slice())?;
                Ok(all)
            }
            Item::Always { body, .. } => {
                let all = weigh_statement(alloc, names, body, 0)?;
                Ok(all)
            }
            _ => Ok(0),
        }
    }
}

// What a declaration weighs: the bits of a variable or memory.
fn declared_weight(entry: &Entry) -> u64
    ensures { Same result (declared_weight entry.now) }
{
    match entry.kind {
        Kind::Combinational(_) | Kind::Variable(_) => u64::from(entry.width),
        Kind::Memory(_, _, count) => times(u64::from(count), u64::from(entry.width)),
        _ => 0,
    }
}

// What all declarations weigh.
fn weigh_declarations(entries: &[Entry]) -> u64
    ensures { Same result (sum (map declared_weight entries.now)) }
{
    let mut all = 0u64;
    for entry in entries {
        all = plus(all, declared_weight(entry));
    }
    all
}

/// The weight of a module, whose declared names these are; 2^64 - 1 where it is greater. It is a sum over the parts of the
/// module: of a variable its width, and of a memory that of all its words; of a net that is assigned its width; of an
/// assignment in a process the size of all variables and memories that it writes, times one more than the number of `if`
/// and `case` statements that enclose it; of an `if` the width of its condition; of each item of a case the common width;
/// and of each operator and select what it does at the width at which it is evaluated (IEEE Std 1364-2005, 5.4): the
/// square of the width for `*`, the width times the amount's for a shift by no constant, the size of the vector or memory
/// for an index that is not fixed, and a width, or two, for the others. `OutOfMemory` is the only other answer. The work
/// is linear in the module, but for the look-ups of names.
pub fn weight(alloc: Global, names: &Names, module: &Module) -> Result<u64, OutOfMemory>
    requires sound { are_sound_items names.now «module».now.items ≡ true }
    ensures { IfOk result (λ w. w ≡ min (weight_of names.now «module».now.items) (2 ^ 64 - 1)) }
{
    let declared = weigh_declarations(names.entries());
    let items = weigh_each(alloc, names, module.items.as_slice())?;
    Ok(plus(declared, items))
}
