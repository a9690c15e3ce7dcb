ghost use Rattle.std.specs.Prelude.{◌≡◌, ◌≤◌, ◌<◌, ◌+◌, ◌^◌, length, slice_index};
ghost use Rattle.v_meaning.specs.Views.{changed_at, with_bits};
ghost use Rattle.v_values.specs.Seen.{all_counts, all_widths};

use std::marker::Model;
use v_words::with_part;

/// A memory (IEEE Std 1364-2005, 4.9): how many bits each of its words has, and the words by ascending address.
#[derive(Debug, Drop)]
pub struct Memory {
    pub width: u32,
    pub words: Vec<u128>,
}

impl Model for Memory {
    ghost use Rattle.std.specs.Prelude.{◌≤◌};
    ghost use Rattle.v_values.specs.Moments.{MemoryValue};

    ghost Value = { MemoryValue };

    ghost use Rattle.v_values.specs.Seen.{AreBelow};

    ghost view = { λ m. record { width = m.width; words = m.words.items } };

    ghost invariant = { λ m. (m.width ≤ 128) × AreBelow m.width m.words.items };
}

impl Memory {
    /// The word of a number, from 0 at the lowest address; 0 where there are not so many.
    pub fn word(&self, number: u128) -> u128
        ensures value { result ≡ slice_index self.now.words number }
        ensures below { result < 2 ^ self.now.width }
    {
        if number < self.words.len() as u128 {
            self.words[number as usize]
        } else {
            0
        }
    }

    // Other bits in the word of a number, from the number of the lowest one up; nothing where there are not so many words.
    #[tactic(auto, using(crate::proofs::Changes::change_set, crate::proofs::Changes::change_out, crate::proofs::Changes::set_below))]
    pub(crate) fn write(&mut self, number: u32, low: u32, width: u32, value: u128)
        requires has_bit { 1 ≤ width }
        requires within { low + width ≤ self.old.width }
        requires fits { value < 2 ^ width }
        ensures words { self.new.words ≡ changed_at (with_bits low width value) self.old.words number }
        ensures width { self.new.width ≡ self.old.width }
        ensures count { length self.new.words ≡ length self.old.words }
    {
        let at = number as usize;
        if at < self.words.len() {
            self.words[at] = with_part(low, width, value, self.words[at]);
        }
    }

    // The words of another memory of as many words and bits.
    fn copy(&mut self, other: &Memory)
        requires width { self.old.width ≡ other.now.width }
        requires count { length self.old.words ≡ length other.now.words }
        ensures { self.new ≡ other.now }
    {
        self.words
            .as_mut_slice()
            .copy_from_slice(other.words.as_slice());
    }
}

// The words of as many other memories, each of as many words and bits.
pub fn copy_all(to: &mut [Memory], from: &[Memory])
    requires widths { all_widths to.old ≡ all_widths from.now }
    requires counts { all_counts to.old ≡ all_counts from.now }
    ensures { to.new ≡ from.now }
{
    for i in 0..to.len() {
        to[i].copy(&from[i]);
    }
}
