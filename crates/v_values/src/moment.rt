ghost use Rattle.std.specs.Prelude.{◌≡◌, ◌<◌, ◌^◌, [], ◌∷◌, length, replicate, slice_index, slice_set, true};
ghost use Rattle.v_meaning.specs.Designs.{total, words_from};
ghost use Rattle.v_meaning.specs.Names.{word_of, words_of};
ghost use Rattle.v_meaning.specs.Views.{applied};
ghost use Rattle.v_values.specs.Writes.{write_fits, write_in};
ghost use Rattle.v_values.specs.Moments.{has_width};
ghost use Rattle.v_values.specs.Seen.{values_of, widths_of};

use crate::memory::{Memory, copy_all};
use crate::setting::{clear, put_bits, replace};
use crate::writing::{Place, Write, put};
use lz_base::Word;
use std::marker::Model;
use v_meaning::Kind;

/// What the names and the sites of a module hold at a moment of a cycle: the words of inputs, nets, variables and
/// memories, and of the sites.
#[derive(Debug, Drop)]
pub struct Moment {
    pub inputs: Vec<Word>,
    pub nets: Vec<Word>,
    pub variables: Vec<Word>,
    pub memories: Vec<Memory>,
    pub sites: Vec<Word>,
}

impl Model for Moment {
    ghost use Rattle.v_values.specs.Moments.{MomentValue};
    ghost use Rattle.v_values.specs.Seen.{values_of, widths_of, all_words, all_widths, all_counts};

    ghost Value = { MomentValue };

    ghost view = { λ m. record { view = record { inputs = values_of m.inputs.items; nets = values_of m.nets.items; store = record { variables = values_of m.variables.items; memories = all_words m.memories.items }; sites = values_of m.sites.items }; shape = record { inputs = widths_of m.inputs.items; nets = widths_of m.nets.items; variables = widths_of m.variables.items; memories = all_widths m.memories.items; counts = all_counts m.memories.items; sites = widths_of m.sites.items } } };
}

// The word of a number; 0 where there are not so many.
fn at(words: &[Word], number: u32) -> u128
    ensures value { result ≡ slice_index (values_of words.now) number }
    ensures below { result < 2 ^ slice_index (widths_of words.now) number }
{
    if (number as usize) < words.len() {
        let word = &words[number as usize];
        word.value
    } else {
        0
    }
}

impl Moment {
    /// The word of a name that has so many bits.
    pub fn word(&self, kind: Kind, width: u32) -> u128
        requires fits { has_width self.now.shape kind width ≡ true }
        ensures value { result ≡ word_of kind self.now.view }
        ensures below { result < 2 ^ width }
    {
        match kind {
            Kind::Parameter(value) => value,
            Kind::Clock => 0,
            Kind::Input(k) => at(&self.inputs, k),
            Kind::Net(k) => at(&self.nets, k),
            Kind::Combinational(k) => at(&self.nets, k),
            Kind::Variable(k) => at(&self.variables, k),
            Kind::Memory(_, _, _) => 0,
        }
    }

    /// The word of a memory, by its number from 0 at the lowest address.
    pub fn memory_word(&self, memory: u32, number: u128) -> u128
        ensures value { result ≡ slice_index (words_of memory self.now.view) number }
        ensures below { result < 2 ^ slice_index self.now.shape.memories memory }
    {
        if (memory as usize) < self.memories.len() {
            self.memories[memory as usize].word(number)
        } else {
            0
        }
    }

    /// The bits of a site.
    pub fn site(&self, number: u32) -> u128
        ensures value { result ≡ slice_index self.now.view.sites number }
        ensures below { result < 2 ^ slice_index self.now.shape.sites number }
    {
        at(&self.sites, number)
    }

    /// One write.
    pub fn write(&mut self, write: Write)
        requires fits { write_fits self.old.shape (write_in write) ≡ true }
        ensures view { self.new.view ≡ applied self.old.view (write_in write ∷ []) }
        ensures shape { self.new.shape ≡ self.old.shape }
    {
        match write.place {
            Place::Net(k) => put(
                self.nets.as_mut_slice(),
                k,
                write.low,
                write.width,
                write.value,
            ),
            Place::Variable(k) => put(
                self.variables.as_mut_slice(),
                k,
                write.low,
                write.width,
                write.value,
            ),
            Place::Word(k, i) => {
                if (k as usize) < self.memories.len() {
                    self.memories[k as usize].write(i, write.low, write.width, write.value);
                }
            }
        }
    }

    /// Sets the variables and memories to those of another moment.
    pub fn copy_store(&mut self, other: &Moment)
        requires shape { self.old.shape ≡ other.now.shape }
        ensures view { self.new.view ≡ record self.old.view { store = other.now.view.store } }
        ensures shape { self.new.shape ≡ self.old.shape }
    {
        self.variables
            .as_mut_slice()
            .copy_from_slice(other.variables.as_slice());
        copy_all(self.memories.as_mut_slice(), other.memories.as_slice());
    }

    /// Sets the words of the inputs.
    pub fn set_inputs(&mut self, words: &[Word])
        requires widths { widths_of words.now ≡ self.old.shape.inputs }
        ensures view { self.new.view ≡ record self.old.view { inputs = values_of words.now } }
        ensures shape { self.new.shape ≡ self.old.shape }
    {
        self.inputs.as_mut_slice().copy_from_slice(words);
    }

    /// Sets the bits of the sites: a choice lists those of one word after another, each word's most significant bit first.
    pub fn set_sites(&mut self, choice: &[bool])
        requires bits { length choice.now ≡ total self.old.shape.sites }
        ensures view { self.new.view ≡ record self.old.view { sites = words_from self.old.shape.sites choice.now } }
        ensures shape { self.new.shape ≡ self.old.shape }
    {
        put_bits(self.sites.as_mut_slice(), choice);
    }

    /// Sets all nets and combinational variables to 0.
    pub fn clear_nets(&mut self)
        ensures view { self.new.view ≡ record self.old.view { nets = replicate (length self.old.shape.nets) 0 } }
        ensures shape { self.new.shape ≡ self.old.shape }
    {
        clear(self.nets.as_mut_slice());
    }

    /// Sets the word of a net or combinational variable; nothing where there are not so many.
    pub fn set_net(&mut self, net: u32, value: u128)
        requires fits { value < 2 ^ slice_index self.old.shape.nets net }
        ensures view { self.new.view ≡ record self.old.view { nets = slice_set self.old.view.nets net value } }
        ensures shape { self.new.shape ≡ self.old.shape }
    {
        replace(self.nets.as_mut_slice(), net, value);
    }
}
