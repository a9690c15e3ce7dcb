ghost use Rattle.std.specs.Prelude.{◌≡◌, ◌≤◌, ◌<◌, ◌+◌, ◌^◌};
ghost use Rattle.v_meaning.specs.Literals.{literal_value, open_bits, spread};
ghost use Rattle.v_numbers.specs.Fit.{IsFit};

use v_meaning::Literal;

/// How many bits of a literal are open, those that are x.
#[tactic(auto, using(crate::proofs::Counted::counted))]
pub fn open_bits(literal: &Literal) -> u32
    requires { IsFit literal.now }
    ensures { result ≡ open_bits literal.now }
{
    literal.unknown.count_ones()
}

/// The value of a literal, where its x bits are these, from the least up.
#[tactic(auto, using(crate::proofs::Padded::power_grows))]
pub fn value_with(literal: &Literal, bits: u128) -> u128
    requires { IsFit literal.now }
    ensures value { result ≡ literal_value literal.now bits }
    ensures below { result < 2 ^ literal.now.width }
{
    literal.ones + spread(literal.width, literal.unknown, bits)
}

// The bits of a number, from the least up, at those of so many low bits that are 1 in the mask.
#[tactic(auto, using(crate::proofs::Counted::spread_nothing))]
fn spread(width: u32, mask: u128, bits: u128) -> u128
    ensures value { result ≡ spread width mask bits }
    ensures within { result ≤ mask }
{
    if width == 0 {
        return 0;
    }
    if mask == 0 {
        return 0;
    }
    if mask & 1 == 0 {
        spread(width - 1, mask >> 1, bits) << 1
    } else {
        (spread(width - 1, mask >> 1, bits >> 1) << 1) + (bits & 1)
    }
}
