ghost use Rattle.std.specs.Prelude.{◌≡◌, ◌++◌, ◌∷◌, [], OnOk, OnErr};
ghost use Rattle.v_meaning.specs.Expressions.{number_of_place};

use lz_base::{Items, OutOfMemory};
use std::alloc::Global;
use std::collections::BTreeMap;
use std::marker::Model;

/// The sites of a module in text order. Contracts see it as the list of their places, that is of their first bytes.
#[derive(Drop)]
pub struct Sites {
    places: Items<u64>,
    // The number of the first site at each place.
    numbers: BTreeMap<u64, u32>,
}

impl Model for Sites {
    ghost use Rattle.std.specs.Prelude.{List, ℕ};
    ghost use Rattle.v_names.specs.Numbers.{ArePlaces};

    ghost Value = { List ℕ };

    ghost view = { λ s. s.places };

    ghost invariant = { λ s. ArePlaces s.numbers s.places };
}

impl Sites {
    /// No sites. It takes no memory.
    pub fn new(alloc: Global) -> Sites
        ensures { result ≡ [] }
    {
        Sites {
            places: Items::new(alloc),
            numbers: BTreeMap::new(alloc),
        }
    }

    /// One more site behind the others. `OutOfMemory` is the only other answer; it also comes where 2^32 - 1 sites are
    /// there.
    pub fn push(&mut self, place: u64) -> Result<(), OutOfMemory>
        ensures ok { OnOk result (self.new ≡ self.old ++ place ∷ []) }
        ensures err { OnErr result (self.new ≡ self.old) }
    {
        let count = self.places.len();
        if count >= u32::MAX as usize {
            return Err(OutOfMemory);
        }
        if self.numbers.contains_key(&place) {
            self.places.push(place)?;
            return Ok(());
        }
        self.places.push(place)?;
        match self.numbers.insert(place, count as u32) {
            Ok(_) => Ok(()),
            Err(_) => {
                self.places.pop();
                Err(OutOfMemory)
            }
        }
    }

    /// The number of the site at a place; how many sites there are, where none is there. It takes no memory.
    pub fn number_of(&self, place: u64) -> u32
        ensures { result ≡ number_of_place self.now place }
    {
        match self.numbers.get(&place) {
            Some(number) => *number,
            None => self.places.len() as u32,
        }
    }
}
