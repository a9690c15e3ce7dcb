ghost use Rattle.std.specs.Prelude.{◌≡◌, ◌+◌, ◌≤◌, ◌++◌, ◌∷◌, ◌^◌, ◌-◌, length, take, true, false};
ghost use Rattle.lz_base.specs.Bits.{word_bits, words_bits};

use lz_base::Word;

// Puts the values of the constants, of the inputs and of the flip-flops into the first nets, and gives the number of
// the next net.
pub(crate) fn put_front(nets: &mut [bool], input: &[Word], state: &[bool]) -> usize
    requires { 2 + length (words_bits input.now) + length state.now ≤ length nets.old }
    ensures next { result ≡ 2 + length (words_bits input.now) + length state.now }
    ensures values { take result nets.new ≡ false ∷ true ∷ words_bits input.now ++ state.now }
{
    nets[0] = false;
    nets[1] = true;
    let next = put_words(nets, 2, input);
    put_all(nets, next, state)
}

// Puts the bits of words behind the values that are there, and gives the number of the next net.
fn put_words(nets: &mut [bool], start: usize, words: &[Word]) -> usize
    requires { start + length (words_bits words.now) ≤ length nets.old }
    ensures next { result ≡ start + length (words_bits words.now) }
    ensures values { take result nets.new ≡ take start nets.old ++ words_bits words.now }
{
    let mut next = start;
    for word in words {
        next = put_word(nets, next, word);
    }
    next
}

// Puts the bits of a word behind the values that are there, and gives the number of the next net.
fn put_word(nets: &mut [bool], start: usize, word: &Word) -> usize
    requires { start + word.now.width ≤ length nets.old }
    ensures next { result ≡ start + word.now.width }
    ensures values { take result nets.new ≡ take start nets.old ++ word_bits word.now }
{
    let width = word.width;
    let mut value = word.value;
    let mut next = start;
    for _ in 0..width {
        nets[next] = value % 2 == 1;
        next += 1;
        value /= 2;
    }
    next
}

// Puts values behind those that are there, and gives the number of the next net.
pub(crate) fn put_all<T: Copy>(nets: &mut [T], start: usize, values: &[T]) -> usize
    requires { start + length values.now ≤ length nets.old }
    ensures next { result ≡ start + length values.now }
    ensures values { take result nets.new ≡ take start nets.old ++ values.now }
{
    let mut next = start;
    for value in values {
        nets[next] = *value;
        next += 1;
    }
    next
}

// Puts the words of the constants, of the inputs and of the flip-flops into the first nets, and gives the number of the
// next net.
pub(crate) fn put_lane_front(nets: &mut [u64], input: &[u64], state: &[u64]) -> usize
    requires { 2 + length input.now + length state.now ≤ length nets.old }
    ensures next { result ≡ 2 + length input.now + length state.now }
    ensures values { take result nets.new ≡ 0 ∷ (2 ^ 64 - 1) ∷ input.now ++ state.now }
{
    nets[0] = 0;
    nets[1] = u64::MAX;
    let next = put_all(nets, 2, input);
    put_all(nets, next, state)
}
