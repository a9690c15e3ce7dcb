ghost use Rattle.std.specs.Prelude.{◌≡◌, ◌≤◌, ◌<◌, ◌^◌, ◌+◌, ◌-◌, ◌*◌, ◌/◌, ◌%◌, ℕ};
ghost use Rattle.v_meaning.specs.Senses.{copies};
ghost use Rattle.v_meaning.specs.Views.{with_bits};

use crate::arithmetic::shift_right;
use lz_base::cut;

/// Two words side by side, the left one more significant (IEEE Std 1364-2005, 5.1.14). A width may be 0.
#[tactic(auto, using(crate::proofs::Splits::beside_below, crate::proofs::Splits::beside_or, std::proofs::lemmas::Nat::shl_whole))]
pub fn beside(left_width: u32, left: u128, right_width: u32, right: u128) -> u128
    requires within { left_width + right_width ≤ 128 }
    requires left_fits { left < 2 ^ left_width }
    requires right_fits { right < 2 ^ right_width }
    ensures value { result ≡ left * 2 ^ right_width + right }
    ensures below { result < 2 ^ (left_width + right_width) }
{
    if left_width == 0 {
        right
    } else {
        (left << right_width) | right
    }
}

/// So many copies of a word side by side (5.1.14).
pub fn copies(count: u32, width: u32, value: u128) -> u128
    requires has_bit { 1 ≤ width }
    requires within { count * width ≤ 128 }
    requires fits { value < 2 ^ width }
    ensures value { result ≡ copies count width value }
    ensures below { result < 2 ^ (count * width) }
{
    let mut word = 0;
    for i in 0..count {
        word = beside(width, value, i * width, word);
    }
    word
}

/// So many bits of a word, from the number of the lowest one up (5.2.1).
pub fn part(value: u128, low: u32, width: u32) -> u128
    requires { width ≤ 128 }
    ensures value { result ≡ value / 2 ^ low % 2 ^ width }
    ensures below { result < 2 ^ width }
{
    cut(shift_right(value, low as u128), width)
}

/// A word with another value in so many of its bits, from the number of the lowest one up. A word of any width that has
/// these bits keeps that width.
#[tactic(auto, using(crate::proofs::Splits::with_bits_below, crate::proofs::Splits::high_part))]
pub fn with_part(low: u32, width: u32, value: u128, word: u128) -> u128
    requires has_bit { 1 ≤ width }
    requires within { low + width ≤ 128 }
    requires fits { value < 2 ^ width }
    ensures value { result ≡ with_bits low width value word }
    ensures below { (whole : ℕ) → low + width ≤ whole → word < 2 ^ whole → result < 2 ^ whole }
{
    let below = beside(width, value, low, cut(word, low));
    let end = low + width;
    beside(128 - end, shift_right(word, end as u128), end, below)
}
