ghost use Rattle.std.specs.Prelude.{ℕ, ◌+◌, ◌*◌};
ghost use Rattle.v_weight.specs.Saturated.{Same};
ghost use Rattle.v_weight.specs.Polynomials.{Gives};

use crate::saturated::{plus, times};

/// A weight that depends on a width w: `fixed + linear * w + square * w * w`. The coefficients stop at 2^64 - 1.
#[derive(Clone, Copy, Debug, PartialEq, Eq)]
pub struct Polynomial {
    pub fixed: u64,
    pub linear: u64,
    pub square: u64,
}

impl Polynomial {
    // The same weight at each width.
    pub(crate) fn constant(weight: u64) -> Polynomial
        ensures { (n : ℕ) → Same weight n → Gives result (λ width. n) }
    {
        Polynomial {
            fixed: weight,
            linear: 0,
            square: 0,
        }
    }

    // So much for each bit.
    pub(crate) fn per_bit(weight: u64) -> Polynomial
        ensures { (n : ℕ) → Same weight n → Gives result (λ width. width * n) }
    {
        Polynomial {
            fixed: 0,
            linear: weight,
            square: 0,
        }
    }

    // The width.
    pub(crate) fn width() -> Polynomial
        ensures { Gives result (λ width. width) }
    {
        Polynomial {
            fixed: 0,
            linear: 1,
            square: 0,
        }
    }

    // The width squared.
    pub(crate) fn squared() -> Polynomial
        ensures { Gives result (λ width. width * width) }
    {
        Polynomial {
            fixed: 0,
            linear: 0,
            square: 1,
        }
    }

    // The sum of two weights.
    pub(crate) fn plus(self, other: Polynomial) -> Polynomial
        ensures { (f g : ℕ → ℕ) → Gives self f → Gives other g → Gives result (λ width. f width + g width) }
    {
        Polynomial {
            fixed: plus(self.fixed, other.fixed),
            linear: plus(self.linear, other.linear),
            square: plus(self.square, other.square),
        }
    }

    // The weight at a width.
    pub(crate) fn at(self, width: u64) -> u64
        ensures { (f : ℕ → ℕ) (n : ℕ) → Gives self f → Same width n → Same result (f n) }
    {
        let linear = times(self.linear, width);
        let squared = times(width, width);
        let square = times(self.square, squared);
        plus(plus(self.fixed, linear), square)
    }
}
