ghost use Rattle.std.specs.Prelude.{◌≡◌, ℕ};
ghost use Rattle.v_meaning.specs.Weights.{Weighed, own_weight};
ghost use Rattle.v_weight.specs.Saturated.{Same};
ghost use Rattle.v_weight.specs.Counts.{Stands};

use crate::polynomial::Polynomial;

/// What is counted of an expression.
#[derive(Clone, Copy, Debug, PartialEq, Eq)]
pub struct Counted {
    /// How many bits it has by itself (IEEE Std 1364-2005, 5.4.1).
    pub width: u64,
    /// Whether it is a constant expression.
    pub is_constant: bool,
    /// Its weight at a final width.
    pub weight: Polynomial,
}

impl Counted {
    // What determines its width itself: its weight is the same at each final width.
    pub(crate) fn itself(width: u64, is_constant: bool, weight: u64) -> Counted
        ensures stands { (m n : ℕ) → Same width m → Same weight n → Stands result (record { width = m; at = λ width. n }) }
        ensures constant { result.is_constant ≡ is_constant }
    {
        Counted {
            width,
            is_constant,
            weight: Polynomial::constant(weight),
        }
    }

    // The weight of what determines its width itself.
    pub(crate) fn own(self) -> u64
        ensures { (s : Weighed) → Stands self s → Same result (own_weight s) }
    {
        self.weight.at(self.width)
    }
}
