ghost use Rattle.std.specs.Prelude.{◌≡◌, ◌≤◌, ◌<◌, ◌++◌, ◌∷◌, [], length, slice_get, IfSome, OnOk, OnErr};
ghost use Rattle.std.specs.Option.{option_copied};
ghost use Rattle.v_meaning.specs.Names.{entry_of, entry_or};
ghost use Rattle.v_names.specs.Words.{FitsKind, IsWord};

use lz_base::{Items, Name, OutOfMemory};
use std::alloc::Global;
use std::collections::BTreeMap;
use std::marker::Model;
use v_meaning::{Entry, Kind};

/// What is known of a name: its number, and of its entry the kind, the width, the sign, the number of its lowest bit, and
/// whether it was declared with a range.
#[derive(Clone, Copy, Debug, PartialEq, Eq)]
pub struct Known {
    pub number: u32,
    pub kind: Kind,
    pub width: u32,
    pub signed: bool,
    pub low: u32,
    pub is_vector: bool,
}

/// The declared names of a module in text order, each of 1 to 128 bits. Contracts see it as the list of their entries.
#[derive(Drop)]
pub struct Names {
    alloc: Global,
    entries: Items<Entry>,
    // The number of the first entry of each name.
    numbers: BTreeMap<Name, u32>,
}

impl Model for Names {
    ghost use Rattle.std.specs.Prelude.{List};
    ghost use Rattle.v_meaning.specs.declared.names.Entry.{Entry};
    ghost use Rattle.v_names.specs.Numbers.{AreNumbers};
    ghost use Rattle.v_names.specs.Words.{AreWords};

    ghost Value = { List Entry };

    ghost view = { λ n. n.entries };

    ghost invariant = { λ n. AreNumbers n.numbers n.entries × AreWords n.entries };
}

impl Names {
    /// No names. It takes no memory.
    pub fn new(alloc: Global) -> Names
        ensures { result ≡ [] }
    {
        Names {
            alloc,
            entries: Items::new(alloc),
            numbers: BTreeMap::new(alloc),
        }
    }

    /// One more name behind the others, which may have the name of an earlier one. `OutOfMemory` is the only other
    /// answer; it also comes where 2^32 - 1 names are there.
    pub fn push(&mut self, entry: Entry) -> Result<(), OutOfMemory>
        requires word { IsWord entry }
        ensures ok { OnOk result (self.new ≡ self.old ++ entry ∷ []) }
        ensures err { OnErr result (self.new ≡ self.old) }
    {
        let count = self.entries.len();
        if count >= u32::MAX as usize {
            return Err(OutOfMemory);
        }
        if self.numbers.contains_key(&entry.name) {
            self.entries.push(entry)?;
            return Ok(());
        }
        let name = entry.name.clone()?;
        self.entries.push(entry)?;
        match self.numbers.insert(name, count as u32) {
            Ok(_) => Ok(()),
            Err(_) => {
                self.entries.pop();
                Err(OutOfMemory)
            }
        }
    }

    /// The entries. It takes no memory.
    pub fn entries(&self) -> &[Entry]
        ensures { result.now ≡ self.now }
    {
        self.entries.as_slice()
    }

    /// The entry of a number; `None` where there are not so many. It takes no memory.
    pub fn entry(&self, number: u32) -> Option<&Entry>
        ensures entry { option_copied result ≡ slice_get self.now number }
        ensures word { IfSome result (λ e. IsWord e.now) }
    {
        self.entries.get(number as usize)
    }

    /// The number of the first entry of a name; how many entries there are, where the name has none. It takes no memory.
    pub fn number_of(&self, name: &Name) -> u32
        ensures { entry_or (slice_get self.now result) ≡ entry_of self.now name.now }
    {
        match self.numbers.get(name) {
            Some(number) => *number,
            None => self.entries.len() as u32,
        }
    }

    /// What is known of a name, whose width is from 1 to 128. A name that is declared nowhere is of one bit that is 0. It
    /// takes no memory.
    pub fn known(&self, name: &Name) -> Known
        ensures number { entry_or (slice_get self.now result.number) ≡ entry_of self.now name.now }
        ensures kind { result.kind ≡ (entry_of self.now name.now).kind }
        ensures width { result.width ≡ (entry_of self.now name.now).width }
        ensures signed { result.signed ≡ (entry_of self.now name.now).signed }
        ensures low { result.low ≡ (entry_of self.now name.now).low }
        ensures has_bit { 1 ≤ result.width }
        ensures within { result.width ≤ 128 }
        ensures fits { FitsKind result.width result.kind }
        ensures vector { result.is_vector ≡ (entry_of self.now name.now).is_vector }
    {
        let number = self.number_of(name);
        match self.entry(number) {
            Some(entry) => Known {
                number,
                kind: entry.kind,
                width: entry.width,
                signed: entry.signed,
                low: entry.low,
                is_vector: entry.is_vector,
            },
            None => Known {
                number,
                kind: Kind::Clock,
                width: 1,
                signed: false,
                low: 0,
                is_vector: false,
            },
        }
    }
}
