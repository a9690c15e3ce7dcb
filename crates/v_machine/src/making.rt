ghost use Rattle.std.specs.Prelude.{◌≡◌, ◌≤◌, ◌*◌, ◌++◌, [], ◌∷◌, drop, length, map, replicate, true, IfOk, OnOk};
ghost use Rattle.std.specs.List.{list_all};
ghost use Rattle.v_meaning.specs.Declarations.{is_variable};
ghost use Rattle.v_meaning.specs.Declarations as kinds;
ghost use Rattle.v_meaning.specs.Designs.{first_bits, first_store, open_bits_of, total, words_from};
ghost use Rattle.v_meaning.specs.Modules.{firsts_among};
ghost use Rattle.v_core.specs.declared.modules.TypedSite.{TypedSite};
ghost use Rattle.v_core.specs.Cores.{design_in};
ghost use Rattle.v_core.specs.Formed.{is_width};
ghost use Rattle.v_values.specs.Seen.{widths_of};
ghost use Rattle.v_machine.specs.Firsts.{added, bits_of, count_in, first_value, is_in, open_bits};
ghost use Rattle.v_machine.specs.Runnable.{is_word, memory_counts, shape_of, widths_where};

use lz_base::{OutOfMemory, Word};
use std::alloc::Global;
use v_core::{Core, TypedSite};
use v_meaning::{Entry, Kind};
use v_values::{Memory, Moment, number};

// The names that have a word among the inputs of a moment, or among its nets.
#[derive(Clone, Copy)]
enum Group {
    Inputs,
    Nets,
}

fn is_in(group: Group, kind: Kind) -> bool
    ensures { result ≡ is_in group kind }
{
    match group {
        Group::Inputs => matches!(kind, Kind::Input(_)),
        Group::Nets => matches!(kind, Kind::Net(_) | Kind::Combinational(_)),
    }
}

fn is_variable(kind: Kind) -> bool
    ensures { result ≡ is_variable kind }
{
    matches!(kind, Kind::Variable(_))
}

// How many words a memory has; None of what is none.
fn count_in(kind: Kind) -> Option<u32>
    ensures { result ≡ count_in kind }
{
    match kind {
        Kind::Memory(_, _, count) => Some(count),
        _ => None,
    }
}

// Words of 0 for the names of a group.
fn zeros(alloc: Global, names: &[Entry], group: Group) -> Result<Vec<Word>, OutOfMemory>
    requires words { list_all is_word names.now ≡ true }
    ensures { IfOk result (λ words. widths_of words.items ≡ widths_where (is_in group) names.now) }
{
    let mut words = Vec::new(alloc);
    for entry in names {
        if is_in(group, entry.kind) {
            words.push(Word::new(entry.width, 0))?;
        }
    }
    Ok(words)
}

// Words of 0 for the sites.
fn site_zeros(alloc: Global, sites: &[TypedSite]) -> Result<Vec<Word>, OutOfMemory>
    requires words { list_all (λ (s : TypedSite). is_width s.width) sites.now ≡ true }
    ensures { IfOk result (λ words. widths_of words.items ≡ map (λ (s : TypedSite). s.width) sites.now) }
{
    let mut words = Vec::new(alloc);
    for site in sites {
        words.push(Word::new(site.width, 0))?;
    }
    Ok(words)
}

// The word of a variable before the first cycle, and the bits that are left.
fn first_word<'b>(entry: &Entry, bits: &'b [bool]) -> (Word, &'b [bool])
    requires word { is_word entry.now ≡ true }
    requires many { open_bits entry.now.first entry.now.width ≤ length bits.now }
    ensures word { result.0 ≡ record { width = entry.now.width; value = first_value entry.now.first entry.now.width bits.now } }
    ensures rest { result.1.now ≡ drop (open_bits entry.now.first entry.now.width) bits.now }
{
    match entry.first {
        Some(value) => (Word::new(entry.width, value), bits),
        None => {
            let (own, rest) = bits.split_at(entry.width as usize);
            (Word::new(entry.width, number(own)), rest)
        }
    }
}

// The words of a memory before the first cycle, and the bits that are left.
fn first_words(
    alloc: Global,
    width: u32,
    count: u32,
    bits: &[bool],
) -> Result<(Memory, &[bool]), OutOfMemory>
    requires word { is_width width ≡ true }
    requires many { count * width ≤ length bits.now }
    ensures words { IfOk result (λ r. r.0 ≡ record { width = width; words = words_from (replicate count width) bits.now }) }
    ensures rest { IfOk result (λ r. r.1.now ≡ drop (count * width) bits.now) }
{
    let mut words = Vec::new(alloc);
    let mut left = bits;
    for _ in 0..count {
        let (own, rest) = left.split_at(width as usize);
        words.push(number(own))?;
        left = rest;
    }
    Ok((Memory { width, words }, left))
}

// Adds the word of a variable, or the words of a memory, and answers the bits that are left.
fn add<'b>(
    alloc: Global,
    entry: &Entry,
    bits: &'b [bool],
    now: &mut Moment,
) -> Result<&'b [bool], OutOfMemory>
    requires word { is_word entry.now ≡ true }
    requires many { bits_of entry.now ≤ length bits.now }
    ensures added { OnOk result (now.new ≡ added entry.now bits.now now.old) }
    ensures rest { IfOk result (λ rest. rest.now ≡ drop (bits_of entry.now) bits.now) }
{
    if is_variable(entry.kind) {
        let (word, rest) = first_word(entry, bits);
        now.variables.push(word)?;
        return Ok(rest);
    }
    match count_in(entry.kind) {
        Some(count) => {
            let (memory, rest) = first_words(alloc, entry.width, count, bits)?;
            now.memories.push(memory)?;
            Ok(rest)
        }
        None => Ok(bits),
    }
}

// Adds the words of all variables and memories.
fn add_all(
    alloc: Global,
    names: &[Entry],
    first: &[bool],
    now: &mut Moment,
) -> Result<(), OutOfMemory>
    requires words { list_all is_word names.now ≡ true }
    requires many { length first.now ≡ total (map open_bits_of (firsts_among names.now)) }
    requires empty { now.old.view.store ≡ record { variables = []; memories = [] } }
    requires bare { (now.old.shape.variables ≡ []) × (now.old.shape.memories ≡ []) × (now.old.shape.counts ≡ []) }
    ensures store { OnOk result (now.new.view.store ≡ first_store (firsts_among names.now) first.now) }
    ensures shape { OnOk result (now.new.shape ≡ record now.old.shape { variables = widths_where kinds.is_variable names.now; memories = widths_where kinds.is_memory names.now; counts = memory_counts names.now }) }
{
    let mut left = first;
    for entry in names {
        left = add(alloc, entry, left, now)?;
    }
    Ok(())
}

/// The moment before the first cycle: a variable has its declared value or bits of the first choice, a memory bits of it, and
/// all other words are 0 (IEEE Std 1364-2005, 6.2.1). `OutOfMemory` is the only other answer.
pub fn first_moment(alloc: Global, core: &Core, first: &[bool]) -> Result<Moment, OutOfMemory>
    requires words { list_all is_word core.now.names ≡ true }
    requires places { list_all is_width (design_in core.now).sites ≡ true }
    requires many { length first.now ≡ first_bits (design_in core.now) }
    ensures shape { IfOk result (λ m. m.shape ≡ shape_of core.now) }
    ensures store { IfOk result (λ m. m.view.store ≡ first_store (design_in core.now).firsts first.now) }
{
    let names = core.names.as_slice();
    let inputs = zeros(alloc, names, Group::Inputs)?;
    let nets = zeros(alloc, names, Group::Nets)?;
    let sites = site_zeros(alloc, core.sites.as_slice())?;
    let mut now = Moment {
        inputs,
        nets,
        variables: Vec::new(alloc),
        memories: Vec::new(alloc),
        sites,
    };
    add_all(alloc, names, first, &mut now)?;
    Ok(now)
}
