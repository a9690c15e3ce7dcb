ghost use Rattle.std.specs.Prelude.{◌≡◌, ◌≤◌, ◌<◌, ◌^◌, true, IfSome};
ghost use Rattle.v_meaning.specs.declared.names.Entry.{Entry};
ghost use Rattle.v_meaning.specs.Names.{within};
ghost use Rattle.v_core.specs.Values.{entry_at, index_in, selected_value};
ghost use Rattle.v_core.specs.Formed.{selected_width};
ghost use Rattle.v_values.specs.Moments.{Shape, has_width, fit};

use crate::moment::Moment;
use v_meaning::{Entry, Kind};
use v_words::{is_negative, part};

// What is known of a declared name: what it is, the width of its word, and the number of its lowest bit.
#[derive(Clone, Copy)]
pub struct Known {
    pub kind: Kind,
    pub width: u32,
    pub low: u32,
}

// What is known of the declared name of a number; what stands for a name that is declared nowhere, where there are not so
// many.
pub fn look_up(names: &[Entry], number: u32) -> Known
    ensures kind { result.kind ≡ (entry_at names.now number).kind }
    ensures width { result.width ≡ (entry_at names.now number).width }
    ensures low { result.low ≡ (entry_at names.now number).low }
    ensures fits { (s : Shape) → fit s names.now ≡ true → has_width s result.kind result.width ≡ true }
{
    if (number as usize) < names.len() {
        let entry = &names[number as usize];
        Known {
            kind: entry.kind,
            width: entry.width,
            low: entry.low,
        }
    } else {
        Known {
            kind: Kind::Clock,
            width: 1,
            low: 0,
        }
    }
}

// The number that an index of this width and sign stands for; None where it is negative.
pub fn index_in(width: u32, signed: bool, value: u128) -> Option<u128>
    requires has_bit { 1 ≤ width }
    requires within { width ≤ 128 }
    ensures { result ≡ index_in width signed value }
{
    if signed && is_negative(width, value) {
        None
    } else {
        Some(value)
    }
}

// The number from 0 of an index, among so many that begin with the lowest; None where it is out of range.
pub fn within(low: u32, count: u32, index: Option<u128>) -> Option<u128>
    ensures value { result ≡ within low count index }
    ensures below { IfSome result (λ i. i < count) }
{
    match index {
        Some(i) if low as u128 <= i && i < low as u128 + count as u128 => Some(i - low as u128),
        _ => None,
    }
}

// A word of a memory, or a bit of a vector; the bits of the site where the index is out of range (IEEE Std 1364-2005, 5.2.1
// and 5.2.2).
pub fn selected(known: Known, index: Option<u128>, free: u128, now: &Moment) -> u128
    requires fits { has_width now.now.shape known.kind known.width ≡ true }
    requires free { free < 2 ^ selected_width known.kind known.width }
    ensures value { (e : Entry) → e.width ≡ known.width → e.low ≡ known.low → result ≡ selected_value known.kind e index free now.now.view }
    ensures below { result < 2 ^ selected_width known.kind known.width }
{
    match known.kind {
        Kind::Memory(k, low, count) => match within(low, count, index) {
            Some(i) => now.memory_word(k, i),
            None => free,
        },
        _ => match within(known.low, known.width, index) {
            Some(i) => part(now.word(known.kind, known.width), i as u32, 1),
            None => free,
        },
    }
}
