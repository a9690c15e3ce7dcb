ghost use Rattle.std.specs.Prelude.{ℕ, ◌+◌, ◌*◌, max};
ghost use Rattle.v_weight.specs.Saturated.{Same};

// Numbers that stop at the greatest one of 64 bits: each stands for a true number, and is the lesser of it and 2^64 - 1.

// A sum.
pub(crate) fn plus(x: u64, y: u64) -> u64
    ensures { (m n : ℕ) → Same x m → Same y n → Same result (m + n) }
{
    x.saturating_add(y)
}

// A product.
pub(crate) fn times(x: u64, y: u64) -> u64
    ensures { (m n : ℕ) → Same x m → Same y n → Same result (m * n) }
{
    x.saturating_mul(y)
}

// The greater of two numbers.
pub(crate) fn greater(x: u64, y: u64) -> u64
    ensures { (m n : ℕ) → Same x m → Same y n → Same result (max m n) }
{
    x.max(y)
}

// A number of up to 128 bits.
pub(crate) fn stopped(n: u128) -> u64
    ensures { Same result n }
{
    n.min(u64::MAX as u128) as u64
}
