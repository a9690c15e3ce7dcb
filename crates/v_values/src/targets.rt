ghost use Rattle.std.specs.Prelude.{◌≡◌, ◌≤◌, ◌<◌, ◌+◌, ◌^◌, ◌++◌, ℕ, List, length, true};
ghost use Rattle.std.specs.List.{list_all};
ghost use Rattle.v_meaning.specs.Targets.{TargetSense, parts_width, parts_writes, place_of, selected_target, write_bits};
ghost use Rattle.v_meaning.specs.Views.{View, applied};
ghost use Rattle.v_meaning.specs.declared.names.Entry.{Entry};
ghost use Rattle.v_core.specs.declared.statement.TypedTarget.{TypedTarget};
ghost use Rattle.v_core.specs.Formed.{is_width};
ghost use Rattle.v_core.specs.Statements.{target_in};
ghost use Rattle.v_values.specs.Kept.{is_kept_target, senses_in};
ghost use Rattle.v_values.specs.Moments.{Shape, fit};
ghost use Rattle.v_values.specs.Queues.{write_counts, write_count};
ghost use Rattle.v_values.specs.Writes.{all_fit, place_or};

use crate::moment::Moment;
use crate::queue::Queue;
use crate::reading::{Known, index_in, look_up, within};
use crate::valuing::value;
use crate::writing::{Place, Write};
use lz_base::cut;
use v_core::TypedTarget;
use v_meaning::{Entry, Kind};

/// How many bits a target has (IEEE Std 1364-2005, 9.2.1).
#[cycle(measuring)]
pub fn target_width(target: &TypedTarget) -> u32
    requires kept { (names : List Entry) × (sites : List ℕ) × (is_kept_target target.now names sites ≡ true) }
    ensures width { (names : List Entry) → result ≡ (target_in target.now names).width }
    ensures word { is_width result ≡ true }
{
    match target {
        TypedTarget::Part { width, .. } => *width,
        TypedTarget::Select { bits, .. } => *bits,
        TypedTarget::Concat(parts) => parts_width(parts.as_slice()),
    }
}

// How many bits parts side by side have.
#[cycle(measuring)]
fn parts_width(parts: &[TypedTarget]) -> u32
    requires kept { (names : List Entry) × (sites : List ℕ) × (list_all (λ (t : TypedTarget). is_kept_target t names sites) parts.now ≡ true) × (parts_width (senses_in names parts.now) ≤ 128) }
    ensures width { (names : List Entry) → result ≡ parts_width (senses_in names parts.now) }
{
    let mut width = 0u32;
    for part in parts {
        width += target_width(part);
    }
    width
}

// Where the bits of a variable are.
fn place_of(kind: Kind) -> Option<Place>
    ensures { place_or result ≡ place_of kind }
{
    match kind {
        Kind::Combinational(k) => Some(Place::Net(k)),
        Kind::Variable(k) => Some(Place::Variable(k)),
        _ => None,
    }
}

// Puts a write of these bits of a place behind a queue; nothing where there is no such place.
fn push_bits(queue: &mut Queue, place: Option<Place>, low: u32, width: u32, value: u128)
    requires room { length queue.old.writes < queue.old.room }
    ensures writes { queue.new.writes ≡ queue.old.writes ++ write_bits (place_or place) low width value }
    ensures few { length queue.new.writes ≤ length queue.old.writes + 1 }
    ensures room { queue.new.room ≡ queue.old.room }
{
    if let Some(place) = place {
        queue.push(Write {
            place,
            low,
            width,
            value,
        });
    }
}

// Puts the write of a bit of a variable or a word of a memory behind a queue; nothing where the index is out of range (5.2.1
// and 5.2.2).
fn push_selected(queue: &mut Queue, known: Known, index: Option<u128>, value: u128)
    requires room { length queue.old.writes < queue.old.room }
    ensures writes { (e : Entry) (v : View) → e.width ≡ known.width → e.low ≡ known.low → queue.new.writes ≡ queue.old.writes ++ (selected_target known.kind e (λ v. index)).writes v value }
    ensures few { length queue.new.writes ≤ length queue.old.writes + 1 }
    ensures room { queue.new.room ≡ queue.old.room }
{
    match known.kind {
        Kind::Memory(k, low, count) => {
            if let Some(i) = within(low, count, index) {
                push_bits(queue, Some(Place::Word(k, i as u32)), 0, known.width, value);
            }
        }
        kind => {
            if let Some(i) = within(known.low, known.width, index) {
                push_bits(queue, place_of(kind), i as u32, 1, value);
            }
        }
    }
}

/// Puts the writes of a value of as many bits as the target has behind a queue (9.2.2).
#[cycle(queueing)]
pub(crate) fn enqueue(
    target: &TypedTarget,
    bits: u128,
    names: &[Entry],
    now: &Moment,
    queue: &mut Queue,
)
    requires kept { is_kept_target target.now names.now now.now.shape.sites ≡ true }
    requires fits { fit now.now.shape names.now ≡ true }
    requires below { bits < 2 ^ (target_in target.now names.now).width }
    requires room { length queue.old.writes + write_count target.now ≤ queue.old.room }
    ensures writes { queue.new.writes ≡ queue.old.writes ++ (target_in target.now names.now).writes now.now.view bits }
    ensures fit { all_fit now.now.shape ((target_in target.now names.now).writes now.now.view bits) ≡ true }
    ensures few { length queue.new.writes ≤ length queue.old.writes + write_count target.now }
    ensures room { queue.new.room ≡ queue.old.room }
{
    match target {
        TypedTarget::Part {
            name,
            low,
            width,
            ..
        } => {
            let place = place_of(look_up(names, *name).kind);
            push_bits(queue, place, *low, *width, bits);
        }
        TypedTarget::Select {
            name,
            width,
            signed,
            index,
            ..
        } => {
            let index = value(index, names, now);
            let index = index_in(*width, *signed, index);
            push_selected(queue, look_up(names, *name), index, bits);
        }
        TypedTarget::Concat(parts) => {
            let width = target_width(target);
            enqueue_parts(parts.as_slice(), width, bits, names, now, queue);
        }
    }
}

// The writes of parts side by side, of so many bits together, from left to right.
#[cycle(queueing)]
fn enqueue_parts(
    parts: &[TypedTarget],
    width: u32,
    bits: u128,
    names: &[Entry],
    now: &Moment,
    queue: &mut Queue,
)
    requires kept { list_all (λ (t : TypedTarget). is_kept_target t names.now now.now.shape.sites) parts.now ≡ true }
    requires fits { fit now.now.shape names.now ≡ true }
    requires width { width ≡ parts_width (senses_in names.now parts.now) }
    requires narrow { width ≤ 128 }
    requires below { bits < 2 ^ width }
    requires room { length queue.old.writes + write_counts parts.now ≤ queue.old.room }
    ensures writes { queue.new.writes ≡ queue.old.writes ++ parts_writes (senses_in names.now parts.now) now.now.view bits }
    ensures fit { all_fit now.now.shape (parts_writes (senses_in names.now parts.now) now.now.view bits) ≡ true }
    ensures few { length queue.new.writes ≤ length queue.old.writes + write_counts parts.now }
    ensures room { queue.new.room ≡ queue.old.room }
{
    let mut behind = width;
    let mut left = bits;
    for part in parts {
        let width = target_width(part);
        behind -= width;
        enqueue(part, left >> behind, names, now, queue);
        left = cut(left, behind);
    }
}
