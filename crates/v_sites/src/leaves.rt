ghost use Rattle.std.specs.Prelude.{◌≡◌, ◌≤◌, [], ◌∷◌, IfOk, OnOk, true, is_some, not};
ghost use Rattle.v_meaning.specs.declared.names.Entry.{Entry};
ghost use Rattle.v_meaning.specs.Literals.{literal_of, open_bits, is_wrong_number};
ghost use Rattle.v_meaning.specs.Names.{entry_of, within, within_entry};
ghost use Rattle.v_meaning.specs.Proper.{is_sound};
ghost use Rattle.v_meaning.specs.Sites.{is_fixed, number_site, select_site, select_width};
ghost use Rattle.v_sites.specs.Adding.{Adds};

use lz_base::{Items, OutOfMemory};
use std::alloc::Global;
use v_constants::constant;
use v_core::TypedSite;
use v_meaning::Kind;
use v_names::{Known, Names};
use v_numbers::{is_wrong, literal, open_bits};
use v_syntax::{Expr, Ident, Number};

// Appends a site.
fn add(found: &mut Items<TypedSite>, at: u64, width: u32) -> Result<(), OutOfMemory>
    requires has_bit { 1 ≤ width }
    requires within { width ≤ 128 }
    ensures { OnOk result (Adds true found.old found.new (record { at = at; width = width } ∷ [])) }
{
    Ok(found.push(TypedSite { at, width })?)
}

// Appends the site that a number is, if it has x bits; nothing for a number without its form.
#[tactic(auto, using(crate::proofs::LeafSites::open_few))]
pub(crate) fn add_number(number: &Number, found: &mut Items<TypedSite>) -> Result<(), OutOfMemory>
    ensures { OnOk result (Adds (not (is_wrong_number number.now.spelling)) found.old found.new (number_site number.now.at (open_bits (literal_of number.now.spelling)))) }
{
    if is_wrong(&number.spelling) {
        return Ok(());
    }
    let bits = open_bits(&literal(&number.spelling));
    if bits == 0 {
        Ok(())
    } else {
        add(found, number.at, bits)
    }
}

// Whether a number is one of so many that begin with the lowest.
fn is_within(low: u32, count: u32, number: Option<u128>) -> bool
    ensures { result ≡ is_some (within low count number) }
{
    match number {
        Some(number) => low as u128 <= number && number < low as u128 + count as u128,
        None => false,
    }
}

// Whether an index is that of a bit of a vector, or of a word of a memory.
fn is_in_range(known: &Known, index: Option<u128>) -> bool
    ensures { (e : Entry) → known.now.kind ≡ e.kind → known.now.low ≡ e.low → known.now.width ≡ e.width → result ≡ is_some (within_entry e index) }
{
    match known.kind {
        Kind::Memory(_, low, count) => is_within(low, count, index),
        _ => is_within(known.low, known.width, index),
    }
}

// Whether an index of a name is a constant expression in range, for an index that is sound.
fn is_fixed(alloc: Global, names: &Names, known: &Known, index: &Expr) -> Result<bool, OutOfMemory>
    ensures { IfOk result (λ fixed. is_sound names.now index.now ≡ true → (e : Entry) → known.now.kind ≡ e.kind → known.now.low ≡ e.low → known.now.width ≡ e.width → fixed ≡ is_fixed names.now e index.now) }
{
    match constant(alloc, names, index)? {
        Some(constant) => Ok(is_in_range(known, constant.number())),
        None => Ok(false),
    }
}

// How many bits a select of a name has: one, or those of a memory's word.
fn select_width(known: &Known) -> u32
    requires has_bit { 1 ≤ known.now.width }
    requires within { known.now.width ≤ 128 }
    ensures value { (e : Entry) → known.now.kind ≡ e.kind → known.now.width ≡ e.width → result ≡ select_width e.kind e }
    ensures has_bit { 1 ≤ result }
    ensures within { result ≤ 128 }
{
    match known.kind {
        Kind::Memory(..) => known.width,
        _ => 1,
    }
}

// Appends the site that a select is, if its index may be out of range.
pub(crate) fn add_select(
    alloc: Global,
    names: &Names,
    name: &Ident,
    index: &Expr,
    found: &mut Items<TypedSite>,
) -> Result<(), OutOfMemory>
    ensures { OnOk result (Adds (is_sound names.now index.now) found.old found.new (select_site names.now (entry_of names.now name.now.name) name.now.at index.now)) }
{
    let known = names.known(&name.name);
    if is_fixed(alloc, names, &known, index)? {
        Ok(())
    } else {
        add(found, name.at, select_width(&known))
    }
}
