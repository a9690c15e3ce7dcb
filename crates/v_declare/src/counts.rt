ghost use Rattle.std.specs.Prelude.{◌≡◌, ◌+◌, ◌++◌, ◌∷◌, [], IfOk, OnOk, OnErr, if◌then◌else◌};
ghost use Rattle.v_meaning.specs.Declarations.{is_input, is_settled, is_variable, is_memory, count_of};
ghost use Rattle.v_names.specs.Words.{IsWord};

use lz_base::OutOfMemory;
use std::alloc::Global;
use std::marker::Model;
use v_meaning::{Entry, Kind};
use v_names::Names;

// How many names there are of each kind. Nets and combinational variables are counted together.
#[derive(Clone, Copy, Debug, PartialEq, Eq)]
struct Counts {
    inputs: u32,
    settled: u32,
    variables: u32,
    memories: u32,
}

fn is_input(kind: Kind) -> bool
    ensures { result ≡ is_input kind }
{
    matches!(kind, Kind::Input(_))
}

fn is_settled(kind: Kind) -> bool
    ensures { result ≡ is_settled kind }
{
    matches!(kind, Kind::Net(_) | Kind::Combinational(_))
}

fn is_variable(kind: Kind) -> bool
    ensures { result ≡ is_variable kind }
{
    matches!(kind, Kind::Variable(_))
}

fn is_memory(kind: Kind) -> bool
    ensures { result ≡ is_memory kind }
{
    matches!(kind, Kind::Memory(..))
}

// The count with one more, where there is one more.
fn counted(count: u32, more: bool) -> Result<u32, OutOfMemory>
    ensures { IfOk result (λ n. n ≡ count + (if more then 1 else 0)) }
{
    if !more {
        return Ok(count);
    }
    match count.checked_add(1) {
        Some(count) => Ok(count),
        None => Err(OutOfMemory),
    }
}

impl Counts {
    // The counts with a name of this kind.
    fn with(self, kind: Kind) -> Result<Counts, OutOfMemory>
        ensures inputs { IfOk result (λ c. c.inputs ≡ self.inputs + (if is_input kind then 1 else 0)) }
        ensures settled { IfOk result (λ c. c.settled ≡ self.settled + (if is_settled kind then 1 else 0)) }
        ensures variables { IfOk result (λ c. c.variables ≡ self.variables + (if is_variable kind then 1 else 0)) }
        ensures memories { IfOk result (λ c. c.memories ≡ self.memories + (if is_memory kind then 1 else 0)) }
    {
        Ok(Counts {
            inputs: counted(self.inputs, is_input(kind))?,
            settled: counted(self.settled, is_settled(kind))?,
            variables: counted(self.variables, is_variable(kind))?,
            memories: counted(self.memories, is_memory(kind))?,
        })
    }
}

/// The names that are declared so far, and how many there are of each kind. Contracts see it as the list of the entries.
#[derive(Drop)]
pub(crate) struct Declared {
    names: Names,
    counts: Counts,
}

impl Model for Declared {
    ghost use Rattle.std.specs.Prelude.{List};
    ghost use Rattle.v_meaning.specs.declared.names.Entry.{Entry};
    ghost use Rattle.v_declare.specs.Counts.{AreCounts};

    ghost Value = { List Entry };

    ghost view = { λ d. d.names };

    ghost invariant = { λ d. AreCounts d.counts d.names };
}

impl Declared {
    /// No names. It takes no memory.
    pub(crate) fn new(alloc: Global) -> Declared
        ensures { result ≡ [] }
    {
        Declared {
            names: Names::new(alloc),
            counts: Counts {
                inputs: 0,
                settled: 0,
                variables: 0,
                memories: 0,
            },
        }
    }

    /// The names. It takes no memory.
    pub(crate) fn names(&self) -> &Names
        ensures { result.now ≡ self.now }
    {
        &self.names
    }

    /// How many inputs there are.
    pub(crate) fn inputs(&self) -> u32
        ensures { result ≡ count_of is_input self.now }
    {
        self.counts.inputs
    }

    /// How many nets and combinational variables there are.
    pub(crate) fn settled(&self) -> u32
        ensures { result ≡ count_of is_settled self.now }
    {
        self.counts.settled
    }

    /// How many other variables there are.
    pub(crate) fn variables(&self) -> u32
        ensures { result ≡ count_of is_variable self.now }
    {
        self.counts.variables
    }

    /// How many memories there are.
    pub(crate) fn memories(&self) -> u32
        ensures { result ≡ count_of is_memory self.now }
    {
        self.counts.memories
    }

    /// One more name behind the others. `OutOfMemory` is the only other answer; it also comes where 2^32 - 1 names are
    /// there.
    pub(crate) fn push(&mut self, entry: Entry) -> Result<(), OutOfMemory>
        requires word { IsWord entry }
        ensures ok { OnOk result (self.new ≡ self.old ++ entry ∷ []) }
        ensures err { OnErr result (self.new ≡ self.old) }
    {
        let counts = self.counts.with(entry.kind)?;
        self.names.push(entry)?;
        self.counts = counts;
        Ok(())
    }

    /// The names alone. It takes no memory.
    pub(crate) fn into_names(self) -> Names
        ensures { result ≡ self }
    {
        self.names
    }
}
