ghost use Rattle.std.specs.Prelude.{◌≡◌, ◌≢◌, ◌<◌, ◌≤◌, ◌+◌, ◌++◌, ◌^◌, ◌==◌, ℕ, length, take, IfOk};
ghost use Rattle.lz_base.specs.Bits.{bit_of, word_bits, words_bits, word_of, number_of};
ghost use Rattle.lz_circuit.specs.Lines.{HaveWidths, port_bits};
ghost use Rattle.n_sim.specs.Lanes.{stream};
ghost use Rattle.s_flow.specs.SideBySide.{words_at};

use lz_base::{Items, OutOfMemory, Port, Word};
use std::alloc::Global;

// The number with this bit for the stream.
fn with_bit(lanes: u64, index: u32, bit: bool) -> u64
    requires { index < 64 }
    ensures own { (bit_of result index == 1) ≡ bit }
    ensures others { (other : ℕ) → other < 64 → other ≢ index → bit_of result other ≡ bit_of lanes other }
{
    if bit {
        lanes | (1 << index)
    } else {
        lanes & !(1 << index)
    }
}

// Puts a word's bits into the stream, from this place on, and gives the place behind them.
fn put_word(lanes: &mut [u64], start: usize, index: u32, word: &Word) -> usize
    requires index { index < 64 }
    requires room { start + word.now.width ≤ length lanes.old }
    ensures next { result ≡ start + word.now.width }
    ensures own { take result (stream index lanes.new) ≡ take start (stream index lanes.old) ++ word_bits word.now }
    ensures others { (other : ℕ) → other < 64 → other ≢ index → stream other lanes.new ≡ stream other lanes.old }
{
    let width = word.width;
    let mut value = word.value;
    let mut next = start;
    for _ in 0..width {
        lanes[next] = with_bit(lanes[next], index, value % 2 == 1);
        next += 1;
        value /= 2;
    }
    next
}

/// Gives the stream the bits of the words, and leaves the other streams as they are.
pub(crate) fn put_words(lanes: &mut [u64], index: u32, words: &[Word])
    requires index { index < 64 }
    requires room { length (words_bits words.now) ≡ length lanes.old }
    ensures own { stream index lanes.new ≡ words_bits words.now }
    ensures others { (other : ℕ) → other < 64 → other ≢ index → stream other lanes.new ≡ stream other lanes.old }
{
    let mut next = 0;
    for word in words {
        next = put_word(lanes, next, index, word);
    }
}

// The number that the stream's bits make, the first one lowest.
fn number_at(lanes: &[u64], index: u32) -> u128
    requires few { length lanes.now ≤ 128 }
    requires index { index < 64 }
    ensures number { result ≡ number_of (stream index lanes.now) }
    ensures fits { result < 2 ^ length lanes.now }
{
    let mut number = 0;
    let mut i = lanes.len();
    while 0 < i {
        i -= 1;
        number = u128::from((lanes[i] >> index) % 2) + 2 * number;
    }
    number
}

// The word that the stream's bits make.
fn word_at(lanes: &[u64], index: u32) -> Word
    requires low { 1 ≤ length lanes.now }
    requires high { length lanes.now ≤ 128 }
    requires index { index < 64 }
    ensures { result ≡ word_of (stream index lanes.now) }
{
    Word::new(lanes.len() as u32, number_at(lanes, index))
}

/// The words that the stream's bits make at ports.
pub(crate) fn words_at(
    alloc: Global,
    ports: &[Port],
    lanes: &[u64],
    index: u32,
) -> Result<Items<Word>, OutOfMemory>
    requires widths { HaveWidths ports.now }
    requires room { length lanes.now ≡ port_bits ports.now }
    requires index { index < 64 }
    ensures { IfOk result (λ words. words ≡ words_at ports.now (stream index lanes.now)) }
{
    let mut words = Vec::with_capacity(alloc, ports.len())?;
    let mut rest = lanes;
    for port in ports {
        let (front, back) = rest.split_at(port.width as usize);
        words.push(word_at(front, index))?;
        rest = back;
    }
    Ok(Items::from_vec(words))
}
