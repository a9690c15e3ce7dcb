ghost use Rattle.std.specs.Prelude.{◌≡◌, ◌≤◌, ◌<◌, ◌+◌, ◌-◌, ◌/◌, ◌%◌, ◌^◌, ◌&&◌, if◌then◌else◌, nat_le, nat_lt, slice_index, IfOk, List, true, ℕ};
ghost use Rattle.v_meaning.specs.Literals.{literal_value};
ghost use Rattle.v_meaning.specs.Names.{read, read_part, selected, span, entry_of, word_of};
ghost use Rattle.v_meaning.specs.Expressions.{number_sense, number_of_place, open_at};
ghost use Rattle.v_core.specs.Values.{typed_value, entry_at, selected_value, index_in};
ghost use Rattle.v_core.specs.Bodies.{sense_in};
ghost use Rattle.v_meaning.specs.declared.names.Entry.{Entry};
ghost use Rattle.v_core.specs.Formed.{formed, has, is_width, keeps_literal, selected_width};
ghost use Rattle.v_core.specs.OpenForms.{OpenFormed};
ghost use Rattle.v_core.specs.Sited.{is_sited, is_sited_body};
ghost use Rattle.v_typing.specs.Sited.{OpenSited};
ghost use Rattle.v_numbers.specs.Fit.{IsFit};
ghost use Rattle.v_typing.specs.Meanings.{is_memory};

use crate::operators::{leaf, own};
use lz_base::{Boxed, OutOfMemory};
use std::alloc::Global;
use v_core::{Open, Typed};
use v_meaning::{Kind, Literal};
use v_names::{Names, Sites};
use v_syntax::Ident;

// The word of a name.
fn word(name: u32, at: u64) -> Typed
    ensures value { typed_value result ≡ (λ names v. word_of (entry_at names name).kind v) }
    ensures form { formed result ≡ (λ names. record { width = (entry_at names name).width; kept = is_width (entry_at names name).width }) }
    ensures sited { is_sited result ≡ (λ names sites. true) }
{
    Typed::Name { name, at }
}

/// A name by itself (IEEE Std 1364-2005, 4.2).
pub fn name(names: &Names, ident: &Ident) -> Open
    ensures value { sense_in result names.now ≡ read (entry_of names.now ident.now.name) }
    ensures form { OpenFormed result names.now }
    ensures sited { is_sited_body result.body ≡ (λ names sites. true) }
{
    let known = names.known(&ident.name);
    let word = word(known.number, ident.at);
    leaf(known.width, known.signed, word)
}

// Whether a name is a memory.
fn is_memory(kind: Kind) -> bool
    ensures { result ≡ is_memory kind }
{
    matches!(kind, Kind::Memory(..))
}

// The width of what is selected from a name of this kind and width.
fn select_width(kind: Kind, width: u32) -> u32
    ensures { result ≡ (if is_memory kind then width else 1) }
{
    if is_memory(kind) { width } else { 1 }
}

// Its sign.
fn select_sign(kind: Kind, signed: bool) -> bool
    ensures { result ≡ (is_memory kind && signed) }
{
    is_memory(kind) && signed
}

// A bit of a vector or a word of a memory.
fn select(
    alloc: Global,
    name: u32,
    at: u64,
    site: u32,
    width: u32,
    signed: bool,
    index: Typed,
) -> Result<Typed, OutOfMemory>
    ensures value { IfOk result (λ t. typed_value t ≡ (λ names v. selected_value (entry_at names name).kind (entry_at names name) (index_in width signed (typed_value index names v)) (slice_index v.sites site) v)) }
    ensures form { IfOk result (λ t. formed t ≡ (λ names. record { width = selected_width (entry_at names name).kind (entry_at names name).width; kept = is_width (entry_at names name).width && has width (formed index names) })) }
    ensures sited { IfOk result (λ t. is_sited t ≡ (λ names sites. nat_le (slice_index sites site) (selected_width (entry_at names name).kind (entry_at names name).width) && is_sited index names sites)) }
{
    Ok(Typed::Select {
        name,
        at,
        site,
        width,
        signed,
        index: Boxed::new(alloc, index)?,
    })
}

/// A bit of a vector, or a word of a memory; the bits of the site where the index is out of range (5.2.1 and 5.2.2).
pub fn selected(
    alloc: Global,
    names: &Names,
    sites: &Sites,
    ident: &Ident,
    index: Open,
) -> Result<Open, OutOfMemory>
    ensures value { IfOk result (λ o. sense_in o names.now ≡ selected (entry_of names.now ident.now.name) (sense_in index names.now) (open_at sites.now ident.now.at)) }
    ensures form { IfOk result (λ o. OpenFormed index names.now → OpenFormed o names.now) }
    ensures sited { IfOk result (λ o. (widths : List ℕ) → nat_le (slice_index widths (number_of_place sites.now ident.now.at)) (selected_width (entry_of names.now ident.now.name).kind (entry_of names.now ident.now.name).width) ≡ true → OpenSited index names.now widths → OpenSited o names.now widths) }
{
    let known = names.known(&ident.name);
    let site = sites.number_of(ident.at);
    let index_width = index.width;
    let index_signed = index.signed;
    let x = own(alloc, index)?;
    let t = select(
        alloc,
        known.number,
        ident.at,
        site,
        index_width,
        index_signed,
        x,
    )?;
    let width = select_width(known.kind, known.width);
    let signed = select_sign(known.kind, known.signed);
    Ok(leaf(width, signed, t))
}

// So many bits of the word of a name, from the number of the lowest one up.
fn bits(name: u32, at: u64, low: u32, width: u32) -> Typed
    ensures value { typed_value result ≡ (λ names v. word_of (entry_at names name).kind v / 2 ^ low % 2 ^ width) }
    ensures form { formed result ≡ (λ names. record { width = width; kept = is_width width && nat_le (low + width) (entry_at names name).width }) }
    ensures sited { is_sited result ≡ (λ names sites. true) }
{
    Typed::Part {
        name,
        at,
        low,
        width,
    }
}

/// How many bits there are from the most to the least significant one.
pub fn span(msb: u128, lsb: u128) -> u32
    requires descends { lsb ≤ msb }
    requires within { msb < lsb + 128 }
    ensures { result ≡ span msb lsb }
{
    (msb - lsb + 1) as u32
}

/// How far a bit is from the lowest one.
pub fn offset(lsb: u128, low: u32) -> u32
    requires above { low ≤ lsb }
    requires within { lsb < low + 128 }
    ensures { result ≡ lsb - low }
{
    (lsb - low as u128) as u32
}

/// A part of a vector, whose bounds descend within the declared range (5.2.1).
pub fn part(names: &Names, ident: &Ident, msb: u128, lsb: u128) -> Open
    requires above { (entry_of names.now ident.now.name).low ≤ lsb }
    requires descends { lsb ≤ msb }
    requires within { msb < (entry_of names.now ident.now.name).low + (entry_of names.now ident.now.name).width }
    ensures value { sense_in result names.now ≡ read_part (entry_of names.now ident.now.name) msb lsb }
    ensures form { OpenFormed result names.now }
    ensures sited { is_sited_body result.body ≡ (λ names sites. true) }
{
    let known = names.known(&ident.name);
    let width = span(msb, lsb);
    let low = offset(lsb, known.low);
    leaf(width, false, bits(known.number, ident.at, low, width))
}

// A word of this width and value.
fn constant(width: u32, value: u128) -> Typed
    ensures value { typed_value result ≡ (λ names v. value) }
    ensures form { formed result ≡ (λ names. record { width = width; kept = is_width width && nat_lt value (2 ^ width) }) }
    ensures sited { is_sited result ≡ (λ names sites. true) }
{
    Typed::Constant(width, value)
}

// A number whose x bits are those of a site.
fn open_number(literal: Literal, site: u32) -> Typed
    ensures value { typed_value result ≡ (λ names v. literal_value literal (slice_index v.sites site)) }
    ensures form { formed result ≡ (λ names. record { width = literal.width; kept = keeps_literal literal }) }
    ensures sited { is_sited result ≡ (λ names sites. true) }
{
    Typed::Number(literal, site)
}

// The word of a number.
fn number_word(sites: &Sites, at: u64, literal: Literal) -> Typed
    ensures value { typed_value result ≡ (λ names v. literal_value literal (open_at sites.now at v)) }
    ensures form { (names : List Entry) → IsFit literal → has literal.width (formed result names) ≡ true }
    ensures sited { is_sited result ≡ (λ names sites. true) }
{
    if literal.unknown == 0 {
        constant(literal.width, literal.ones)
    } else {
        open_number(literal, sites.number_of(at))
    }
}

/// A number, whose bits that are x are those of its site (3.5.1).
pub fn number(sites: &Sites, at: u64, literal: Literal) -> Open
    ensures value { sense_in result ≡ (λ names. number_sense literal (open_at sites.now at)) }
    ensures form { (names : List Entry) → IsFit literal → OpenFormed result names }
    ensures sited { is_sited_body result.body ≡ (λ names sites. true) }
{
    let word = number_word(sites, at, literal);
    leaf(literal.width, literal.signed, word)
}
