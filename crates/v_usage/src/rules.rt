ghost use Rattle.std.specs.Prelude.{◌≡◌, List, Option, ℕ, Bool, IfOk, not};
ghost use Rattle.v_meaning.specs.declared.names.Entry.{Entry};
ghost use Rattle.v_meaning.specs.Marks.{Used, Bare, Indexed, PartOf};
ghost use Rattle.v_meaning.specs.MarkRules.{place_if, is_wrong_form, wrong_form, wrong_part, unsized_part, too_wide, second_default, wrong_z};
ghost use Rattle.v_meaning.specs.Proper.{is_between_1_and_128, is_part};
ghost use Rattle.v_scope.specs.Occurrences.{mark_of};
ghost use Rattle.v_usage.specs.Places.{as_list};
ghost use Rattle.v_usage.specs.Bits.{up_to_129};

use crate::widths::{joined_width, replicated_width, targets_width};
use lz_base::OutOfMemory;
use std::alloc::Global;
use v_constants::proper_value;
use v_meaning::Kind;
use v_names::Names;
use v_numbers::has_impedance;
use v_scope::Occurrence;
use v_syntax::Ident;

// A place, where a rule is broken there.
fn place_if(broken: bool, at: u64) -> Option<u64>
    ensures { as_list result ≡ place_if broken at }
{
    if broken { Some(at) } else { None }
}

// ---- E8

// Whether a name of this kind may not stand by itself.
fn is_wrong_bare(kind: Kind) -> bool
    ensures { (vector : Bool) → result ≡ is_wrong_form kind vector Bare }
{
    matches!(kind, Kind::Memory(..))
}

// Whether a name of this kind, declared with a range or not, may not have an index.
fn is_wrong_index(kind: Kind, is_vector: bool) -> bool
    ensures { result ≡ is_wrong_form kind is_vector Indexed }
{
    match kind {
        Kind::Memory(..) => false,
        Kind::Parameter(_) => true,
        _ => !is_vector,
    }
}

// Whether a name of this kind, declared with a range or not, may not have bounds.
fn is_wrong_part(kind: Kind, is_vector: bool) -> bool
    ensures { (msb lsb : Option ℕ) → result ≡ is_wrong_form kind is_vector (PartOf msb lsb) }
{
    match kind {
        Kind::Memory(..) | Kind::Parameter(_) => true,
        _ => !is_vector,
    }
}

// The place of a name by itself that breaks E8.
fn wrong_bare(names: &Names, ident: &Ident) -> Option<u64>
    ensures { as_list result ≡ wrong_form names.now (Used Bare ident.now) }
{
    let known = names.known(&ident.name);
    place_if(is_wrong_bare(known.kind), ident.at)
}

// The place of a name with an index that breaks E8.
fn wrong_index(names: &Names, ident: &Ident) -> Option<u64>
    ensures { as_list result ≡ wrong_form names.now (Used Indexed ident.now) }
{
    let known = names.known(&ident.name);
    place_if(is_wrong_index(known.kind, known.is_vector), ident.at)
}

// The place of a name with bounds that breaks E8.
fn wrong_bounds(names: &Names, ident: &Ident) -> Option<u64>
    ensures { (msb lsb : Option ℕ) → as_list result ≡ wrong_form names.now (Used (PartOf msb lsb) ident.now) }
{
    let known = names.known(&ident.name);
    place_if(is_wrong_part(known.kind, known.is_vector), ident.at)
}

// The place of a name that is not used as its kind has it.
pub(crate) fn wrong_form(names: &Names, occurrence: &Occurrence<'_>) -> Option<u64>
    ensures { as_list result ≡ wrong_form names.now (mark_of names.now occurrence.now) }
{
    match *occurrence {
        Occurrence::Bare(ident) => wrong_bare(names, ident),
        Occurrence::Indexed(ident) => wrong_index(names, ident),
        Occurrence::PartOf(ident, _, _) => wrong_bounds(names, ident),
        _ => None,
    }
}

// ---- E9

// Whether bounds descend within a range of this lowest bit and width.
fn is_part(low: u32, width: u32, msb: Option<u128>, lsb: Option<u128>) -> bool
    ensures { (e : Entry) → low ≡ e.low → width ≡ e.width → result ≡ is_part e msb lsb }
{
    match (msb, lsb) {
        (Some(msb), Some(lsb)) => {
            low as u128 <= lsb && lsb <= msb && msb < low as u128 + width as u128
        }
        _ => false,
    }
}

// The place of a name with bounds that are no part of it.
fn wrong_range(names: &Names, ident: &Ident, msb: Option<u128>, lsb: Option<u128>) -> Option<u64>
    ensures { as_list result ≡ wrong_part names.now (Used (PartOf msb lsb) ident.now) }
{
    let known = names.known(&ident.name);
    place_if(!is_part(known.low, known.width, msb, lsb), ident.at)
}

// The place of a name whose bounds have no value, ascend or leave its range.
pub(crate) fn wrong_part(
    alloc: Global,
    names: &Names,
    occurrence: &Occurrence<'_>,
) -> Result<Option<u64>, OutOfMemory>
    ensures { IfOk result (λ place. as_list place ≡ wrong_part names.now (mark_of names.now occurrence.now)) }
{
    match *occurrence {
        Occurrence::PartOf(ident, msb, lsb) => {
            let msb = proper_value(alloc, names, msb)?;
            let lsb = proper_value(alloc, names, lsb)?;
            Ok(wrong_range(names, ident, msb, lsb))
        }
        _ => Ok(None),
    }
}

// ---- E10

// The place of a number without a size that is a part.
pub(crate) fn unsized_part(occurrence: &Occurrence<'_>) -> Option<u64>
    ensures { (names : List Entry) → as_list result ≡ unsized_part (mark_of names occurrence.now) }
{
    match *occurrence {
        Occurrence::UnsizedPart(at) => Some(at),
        _ => None,
    }
}

// ---- E11

// The brace of what has so many bits, where that is not between 1 and 128.
fn wrong_bits(bits: Option<u32>, brace: u64) -> Option<u64>
    ensures { (n : Option ℕ) → bits ≡ up_to_129 n → as_list result ≡ place_if (not (is_between_1_and_128 n)) brace }
{
    match bits {
        Some(width) => place_if(width < 1 || width > 128, brace),
        None => Some(brace),
    }
}

// The brace of a concatenation or replication that is not of 1 to 128 bits.
pub(crate) fn too_wide(
    alloc: Global,
    names: &Names,
    occurrence: &Occurrence<'_>,
) -> Result<Option<u64>, OutOfMemory>
    ensures { IfOk result (λ place. as_list place ≡ too_wide (mark_of names.now occurrence.now)) }
{
    match *occurrence {
        Occurrence::Joined(brace, parts) => {
            let bits = joined_width(alloc, names, parts)?;
            Ok(wrong_bits(bits, brace))
        }
        Occurrence::Replicated(brace, count, parts) => {
            let bits = replicated_width(alloc, names, count, parts)?;
            Ok(wrong_bits(bits, brace))
        }
        Occurrence::JoinedTargets(brace, parts) => {
            let bits = targets_width(alloc, names, parts)?;
            Ok(wrong_bits(bits, brace))
        }
        _ => Ok(None),
    }
}

// ---- E12

// The place of a `default` behind another one.
pub(crate) fn second_default(occurrence: &Occurrence<'_>) -> Option<u64>
    ensures { (names : List Entry) → as_list result ≡ second_default (mark_of names occurrence.now) }
{
    match *occurrence {
        Occurrence::Again(at) => Some(at),
        _ => None,
    }
}

// ---- E13

// The place of a number with a z digit that is not by itself an item of a `casez`.
pub(crate) fn wrong_z(occurrence: &Occurrence<'_>) -> Option<u64>
    ensures { (names : List Entry) → as_list result ≡ wrong_z (mark_of names occurrence.now) }
{
    match *occurrence {
        Occurrence::Digits(item, number) => {
            place_if(!item && has_impedance(&number.spelling), number.at)
        }
        _ => None,
    }
}
