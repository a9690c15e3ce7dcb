ghost use Rattle.std.specs.Prelude.{◌≡◌, ◌≤◌, ℕ, true, false, map, IfOk, List};
ghost use Rattle.std.specs.Option.{option_copied};
ghost use Rattle.v_meaning.specs.Literals.{is_wrong_number, literal_of};
ghost use Rattle.v_meaning.specs.Expressions.{number_by_itself};
ghost use Rattle.v_meaning.specs.Proper.{is_sound};
ghost use Rattle.v_meaning.specs.Statements.{ignored, label_items};
ghost use Rattle.v_meaning.specs.declared.names.Entry.{Entry};
ghost use Rattle.v_core.specs.Statements.{items_in};
ghost use Rattle.v_typing.specs.Sited.{AllRead, IsRead};
ghost use Rattle.v_typing.specs.Sound.{all_sound};
ghost use Rattle.v_statements.specs.Forms.{Each, ItemFormed, item_form, open_item_form};
ghost use Rattle.v_statements.specs.Sited.{LabelRead, are_sited_open_items, is_sited_item, is_sited_open_item};
ghost use Rattle.v_statements.specs.Cases.{comparison_in, is_default, is_open_default, is_right, is_typed_default, item_at, open_item, open_items, source_item, typed_item, z_at, z_word};

use lz_base::{Items, OutOfMemory, Word};
use std::alloc::Global;
use v_core::{Open, TypedItem, TypedLabel, fix};
use v_names::{Names, Sites};
use v_numbers::literal;
use v_syntax::{CaseKind, Expr, Label, Number};
use v_typing::opened;
use v_words::extend;

/// The width and sign at which the subject and all items of a case are compared (IEEE Std 1364-2005, 9.5).
#[derive(Clone, Copy)]
pub struct Common {
    pub width: u32,
    pub signed: bool,
}

/// An item of a case with its own width and sign, and its z bits where it is a number by itself in a `casez`.
#[derive(Drop)]
pub struct OpenItem {
    pub z_bits: Option<Word>,
    pub value: Open,
}

/// When an arm of a case is taken.
#[derive(Drop)]
pub enum OpenLabel {
    Items(Items<OpenItem>),
    Default,
}

// The number, where an expression is one and nothing else.
fn number_of(x: &Expr) -> Option<&Number>
    ensures { option_copied result ≡ number_by_itself x.now }
{
    match x {
        Expr::Number(number) => Some(number),
        _ => None,
    }
}

// The z bits of a number.
fn z_of(number: &Number) -> Word
    requires right { is_wrong_number number.now.spelling ≡ false }
    ensures { result ≡ z_word (literal_of number.now.spelling) }
{
    let literal = literal(&number.spelling);
    Word::new(literal.width, literal.impedance)
}

// The bits of an item that are not compared: z bits of a number by itself in a `casez` (9.5.1).
fn z_bits(kind: CaseKind, item: &Expr) -> Option<Word>
    requires right { is_right (number_by_itself item.now) ≡ true }
    ensures { z_at result ≡ ignored kind item.now }
{
    match kind {
        CaseKind::Case => None,
        CaseKind::Casez => match number_of(item) {
            Some(number) => Some(z_of(number)),
            None => None,
        },
    }
}

// An item with its own width and sign. `OutOfMemory` is the only other answer, here and below.
fn opened_item(
    alloc: Global,
    names: &Names,
    sites: &Sites,
    kind: CaseKind,
    item: &Expr,
) -> Result<OpenItem, OutOfMemory>
    requires sound { is_sound names.now item.now ≡ true }
    ensures value { IfOk result (λ o. open_item names.now o ≡ source_item names.now sites.now kind item.now) }
    ensures form { IfOk result (λ o. ItemFormed names.now o) }
    ensures sited { IfOk result (λ o. (widths : List ℕ) → IsRead widths sites.now names.now item.now → is_sited_open_item o names.now widths ≡ true) }
{
    let z_bits = z_bits(kind, item);
    let value = opened(alloc, names, sites, item)?;
    Ok(OpenItem { z_bits, value })
}

// The items of a label.
fn opened_items(
    alloc: Global,
    names: &Names,
    sites: &Sites,
    kind: CaseKind,
    items: &[Expr],
) -> Result<Items<OpenItem>, OutOfMemory>
    requires sound { all_sound names.now items.now ≡ true }
    ensures value { IfOk result (λ o. map (open_item names.now) o ≡ map (source_item names.now sites.now kind) items.now) }
    ensures form { IfOk result (λ o. Each (ItemFormed names.now) o) }
    ensures sited { IfOk result (λ o. (widths : List ℕ) → AllRead widths sites.now names.now items.now → are_sited_open_items o names.now widths ≡ true) }
{
    let mut all = Items::new(alloc);
    for item in items {
        let one = opened_item(alloc, names, sites, kind, item)?;
        all.push(one)?;
    }
    Ok(all)
}

/// A label whose items have their own width and sign.
pub fn opened_label(
    alloc: Global,
    names: &Names,
    sites: &Sites,
    kind: CaseKind,
    label: &Label,
) -> Result<OpenLabel, OutOfMemory>
    requires sound { all_sound names.now (label_items label.now) ≡ true }
    ensures items { IfOk result (λ o. map (open_item names.now) (open_items o) ≡ map (source_item names.now sites.now kind) (label_items label.now)) }
    ensures default { IfOk result (λ o. is_open_default o ≡ is_default label.now) }
    ensures form { IfOk result (λ o. Each (ItemFormed names.now) (open_items o)) }
    ensures sited { IfOk result (λ o. (widths : List ℕ) → LabelRead widths sites.now names.now label.now → are_sited_open_items (open_items o) names.now widths ≡ true) }
{
    match label {
        Label::Items(items) => {
            let items = opened_items(alloc, names, sites, kind, items.as_slice())?;
            Ok(OpenLabel::Items(items))
        }
        Label::Default(_) => Ok(OpenLabel::Default),
    }
}

// The z bits at the common width and sign; they are extended as the item is.
fn ignored(z_bits: Option<Word>, by: Common) -> u128
    requires within { by.width ≤ 128 }
    ensures { result ≡ z_at z_bits (comparison_in by) }
{
    match z_bits {
        None => 0,
        Some(word) if by.width <= word.width => word.value,
        Some(word) => extend(word.width, word.value, by.width, by.signed),
    }
}

// An item at the common width and sign.
fn fixed_item(alloc: Global, item: OpenItem, by: Common) -> Result<TypedItem, OutOfMemory>
    requires within { by.width ≤ 128 }
    ensures value { IfOk result (λ t. (names : List Entry) → typed_item names t ≡ item_at (comparison_in by) (open_item names item)) }
    ensures form { IfOk result (λ t. (names : List Entry) → item_form names t ≡ open_item_form names by item) }
    ensures sited { IfOk result (λ t. is_sited_item t ≡ is_sited_open_item item) }
{
    let ignored = ignored(item.z_bits, by);
    let value = fix(alloc, item.value.body, by.width, by.signed)?;
    Ok(TypedItem { ignored, value })
}

// The items of a label at the common width and sign, the last one first.
fn fixed_items(
    alloc: Global,
    items: Items<OpenItem>,
    by: Common,
) -> Result<Items<TypedItem>, OutOfMemory>
    requires within { by.width ≤ 128 }
    ensures value { IfOk result (λ t. (names : List Entry) → map (typed_item names) t ≡ map (item_at (comparison_in by)) (map (open_item names) items)) }
    ensures form { IfOk result (λ t. (names : List Entry) → map (item_form names) t ≡ map (open_item_form names by) items) }
    ensures sited { IfOk result (λ t. map is_sited_item t ≡ map is_sited_open_item items) }
{
    let mut left = items;
    let mut fixed = Vec::new(alloc);
    while let Some(item) = left.pop() {
        let one = fixed_item(alloc, item, by)?;
        fixed.push(one)?;
    }
    fixed.reverse();
    Ok(Items::from_vec(fixed))
}

/// A label whose items are compared at the common width and sign.
pub fn fixed_label(alloc: Global, label: OpenLabel, by: Common) -> Result<TypedLabel, OutOfMemory>
    requires within { by.width ≤ 128 }
    ensures items { IfOk result (λ t. (names : List Entry) → map (typed_item names) (items_in t) ≡ map (item_at (comparison_in by)) (map (open_item names) (open_items label))) }
    ensures default { IfOk result (λ t. is_typed_default t ≡ is_open_default label) }
    ensures form { IfOk result (λ t. (names : List Entry) → map (item_form names) (items_in t) ≡ map (open_item_form names by) (open_items label)) }
    ensures sited { IfOk result (λ t. map is_sited_item (items_in t) ≡ map is_sited_open_item (open_items label)) }
{
    match label {
        OpenLabel::Items(items) => {
            let items = fixed_items(alloc, items, by)?;
            Ok(TypedLabel::Items(items))
        }
        OpenLabel::Default => Ok(TypedLabel::Default),
    }
}
