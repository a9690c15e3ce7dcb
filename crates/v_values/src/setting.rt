ghost use Rattle.std.specs.Prelude.{◌≡◌, ◌≤◌, ◌<◌, ◌+◌, ◌*◌, ◌^◌, if◌then◌else◌, length, replicate, reverse, slice_index, slice_set};
ghost use Rattle.lz_base.specs.Bits.{number_of};
ghost use Rattle.v_meaning.specs.Designs.{total, words_from};
ghost use Rattle.v_values.specs.Seen.{values_of, widths_of};

use lz_base::Word;

// A number with one more bit behind its others.
fn with_bit(all: u128, bit: bool) -> u128
    requires { all < 2 ^ 127 }
    ensures { result ≡ (if bit then 1 else 0) + 2 * all }
{
    if bit { 1 + 2 * all } else { 2 * all }
}

/// The number that bits make, of which the first is the most significant.
pub fn number(bits: &[bool]) -> u128
    requires within { length bits.now ≤ 128 }
    ensures value { result ≡ number_of (reverse bits.now) }
    ensures below { result < 2 ^ length bits.now }
{
    let mut all = 0u128;
    for bit in bits {
        all = with_bit(all, *bit);
    }
    all
}

// Puts bits into words, one word after another, each word's most significant bit first.
pub fn put_bits(words: &mut [Word], bits: &[bool])
    requires bits { length bits.now ≡ total (widths_of words.old) }
    ensures values { values_of words.new ≡ words_from (widths_of words.old) bits.now }
    ensures widths { widths_of words.new ≡ widths_of words.old }
{
    let mut left = bits;
    for i in 0..words.len() {
        let word = words[i];
        let (own, rest) = left.split_at(word.width as usize);
        words[i] = Word::new(word.width, number(own));
        left = rest;
    }
}

// Sets all words to 0.
pub fn clear(words: &mut [Word])
    ensures values { values_of words.new ≡ replicate (length (widths_of words.old)) 0 }
    ensures widths { widths_of words.new ≡ widths_of words.old }
{
    for i in 0..words.len() {
        let word = words[i];
        words[i] = Word::new(word.width, 0);
    }
}

// Sets the word of a number; nothing where there are not so many.
#[tactic(auto, using(crate::proofs::Changes::widths_set, crate::proofs::Filling::values_replaced))]
pub fn replace(words: &mut [Word], number: u32, value: u128)
    requires fits { value < 2 ^ slice_index (widths_of words.old) number }
    ensures values { values_of words.new ≡ slice_set (values_of words.old) number value }
    ensures widths { widths_of words.new ≡ widths_of words.old }
{
    let at = number as usize;
    if at < words.len() {
        let word = words[at];
        words[at] = Word::new(word.width, value);
    }
}
