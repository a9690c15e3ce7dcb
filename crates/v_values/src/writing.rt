ghost use Rattle.std.specs.Prelude.{◌≡◌, ◌≤◌, ◌<◌, ◌+◌, ◌^◌, [], ◌∷◌, slice_index, true};
ghost use Rattle.v_meaning.specs.Views.{applied, changed_at, with_bits};
ghost use Rattle.v_values.specs.Seen.{values_of, widths_of};
ghost use Rattle.v_values.specs.Writes.{all_fit, write_fits, write_in, writes_in};

use crate::moment::Moment;
use lz_base::Word;
use v_words::with_part;

/// What is written, by its number: a combinational variable among the nets, another variable, or a word of a memory, which
/// has a number from 0 at the lowest address.
#[derive(Clone, Copy, Debug, PartialEq, Eq)]
pub enum Place {
    Net(u32),
    Variable(u32),
    Word(u32, u32),
}

/// So many bits of a place, from the number of the lowest one up, become this value.
#[derive(Clone, Copy, Debug, PartialEq, Eq)]
pub struct Write {
    pub place: Place,
    pub low: u32,
    pub width: u32,
    pub value: u128,
}

// Other bits in the word of a number, from the number of the lowest one up; nothing where there are not so many words.
#[tactic(auto, using(crate::proofs::Changes::values_set, crate::proofs::Changes::values_out, crate::proofs::Changes::widths_set))]
pub fn put(words: &mut [Word], number: u32, low: u32, width: u32, value: u128)
    requires has_bit { 1 ≤ width }
    requires within { low + width ≤ slice_index (widths_of words.old) number }
    requires fits { value < 2 ^ width }
    ensures values { values_of words.new ≡ changed_at (with_bits low width value) (values_of words.old) number }
    ensures widths { widths_of words.new ≡ widths_of words.old }
{
    let at = number as usize;
    if at < words.len() {
        let word = words[at];
        words[at] = Word::new(word.width, with_part(low, width, value, word.value));
    }
}

// Writes one after another (IEEE Std 1364-2005, 9.2).
pub fn apply(now: &mut Moment, writes: &[Write])
    requires fit { all_fit now.old.shape (writes_in writes.now) ≡ true }
    ensures view { now.new.view ≡ applied now.old.view (writes_in writes.now) }
    ensures shape { now.new.shape ≡ now.old.shape }
{
    for write in writes {
        now.write(*write);
    }
}
