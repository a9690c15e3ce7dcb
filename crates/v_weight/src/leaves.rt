ghost use Rattle.std.specs.Prelude.{◌≡◌, ℕ, ◌&&◌, not, false, if◌then◌else◌, is_some};
ghost use Rattle.v_meaning.specs.declared.names.Entry.{Entry};
ghost use Rattle.v_meaning.specs.Literals.{literal_of, digit_in, is_x, is_z, is_wrong_number};
ghost use Rattle.v_meaning.specs.Names.{entry_of, within_entry};
ghost use Rattle.v_meaning.specs.Expressions.{is_parameter};
ghost use Rattle.v_meaning.specs.Sites.{select_width};
ghost use Rattle.v_meaning.specs.Weights.{Weighed, size_in, size_of};
ghost use Rattle.v_weight.specs.Saturated.{Same};
ghost use Rattle.v_weight.specs.Counts.{Stands, weightless, weighed_select};

use crate::bounds::is_in_range;
use crate::counting::Counted;
use crate::saturated::{plus, times};
use v_meaning::Kind;
use v_names::Names;
use v_numbers::{has_impedance, has_unknown, is_wrong, literal};
use v_syntax::{Ident, Number};

// Whether a number has neither x nor z digits.
fn is_constant(n: &Number) -> bool
    ensures { result ≡ (not (digit_in is_x n.now.spelling) && not (digit_in is_z n.now.spelling)) }
{
    !has_unknown(&n.spelling) && !has_impedance(&n.spelling)
}

// How many bits a number has that has its form; another one has none.
fn number_width(n: &Number) -> u64
    ensures { is_wrong_number n.now.spelling ≡ false → Same result (literal_of n.now.spelling).width }
{
    if is_wrong(&n.spelling) {
        0
    } else {
        u64::from(literal(&n.spelling).width)
    }
}

// A number (IEEE Std 1364-2005, 3.5.1).
pub(crate) fn number(n: &Number) -> Counted
    ensures stands { is_wrong_number n.now.spelling ≡ false → Stands result (weightless (literal_of n.now.spelling).width) }
    ensures constant { result.is_constant ≡ (not (digit_in is_x n.now.spelling) && not (digit_in is_z n.now.spelling)) }
{
    Counted::itself(number_width(n), is_constant(n), 0)
}

// Whether a name is a parameter's (4.10).
fn is_parameter(kind: Kind) -> bool
    ensures { result ≡ is_parameter kind }
{
    matches!(kind, Kind::Parameter(_))
}

// How many bits a name has.
pub(crate) fn width(names: &Names, ident: &Ident) -> u64
    ensures { Same result (entry_of names.now ident.now.name).width }
{
    u64::from(names.known(&ident.name).width)
}

// A name by itself.
pub(crate) fn name(names: &Names, ident: &Ident) -> Counted
    ensures stands { Stands result (weightless (entry_of names.now ident.now.name).width) }
    ensures constant { result.is_constant ≡ is_parameter (entry_of names.now ident.now.name).kind }
{
    let known = names.known(&ident.name);
    Counted::itself(width(names, ident), is_parameter(known.kind), 0)
}

// How many bits a variable or memory has.
fn size_in(kind: Kind, width: u32) -> u64
    ensures { (e : Entry) → width ≡ e.width → Same result (size_in kind e) }
{
    match kind {
        Kind::Memory(_, _, count) => times(u64::from(count), u64::from(width)),
        _ => u64::from(width),
    }
}

// How many bits a name has, with all words of a memory.
pub(crate) fn size(names: &Names, ident: &Ident) -> u64
    ensures { Same result (size_of (entry_of names.now ident.now.name)) }
{
    let known = names.known(&ident.name);
    size_in(known.kind, known.width)
}

// The width of what is selected from a name of this kind and width: a word of a memory, or a bit.
fn width_in(kind: Kind, width: u32) -> u64
    ensures { (e : Entry) → width ≡ e.width → Same result (select_width kind e) }
{
    match kind {
        Kind::Memory(..) => u64::from(width),
        _ => 1,
    }
}

// How many bits a name with an index has (5.2.1 and 5.2.2).
pub(crate) fn selected_width(names: &Names, ident: &Ident) -> u64
    ensures { Same result (select_width (entry_of names.now ident.now.name).kind (entry_of names.now ident.now.name)) }
{
    let known = names.known(&ident.name);
    width_in(known.kind, known.width)
}

// Whether an index is a constant one in range, where this is its value if it is proper.
fn is_fixed(names: &Names, ident: &Ident, index: Option<u128>) -> bool
    ensures { result ≡ is_some (within_entry (entry_of names.now ident.now.name) index) }
{
    let known = names.known(&ident.name);
    is_in_range(known.kind, known.low, known.width, index)
}

// What a choice among so many bits weighs: nothing where the index is fixed.
fn choice_weight(is_fixed: bool, size: u64) -> u64
    ensures { (n : ℕ) → Same size n → Same result (if is_fixed then 0 else n) }
{
    if is_fixed { 0 } else { size }
}

// A bit of a vector or a word of a memory, at an index of this value if it is proper.
pub(crate) fn selected(names: &Names, ident: &Ident, value: Option<u128>, index: Counted) -> Counted
    ensures stands { (s : Weighed) → Stands index s → Stands result (weighed_select (entry_of names.now ident.now.name) (is_some (within_entry (entry_of names.now ident.now.name) value)) s) }
    ensures constant { result.is_constant ≡ false }
{
    let width = selected_width(names, ident);
    let choice = choice_weight(is_fixed(names, ident, value), size(names, ident));
    Counted::itself(width, false, plus(choice, index.own()))
}
