ghost use Rattle.std.specs.Prelude.{◌≡◌, ◌≤◌, ◌<◌, ◌^◌, ◌+◌, ◌-◌, ◌*◌, ◌/◌, ◌%◌};

use lz_base::{cut, mask};

// The product modulo 2 ^ width.
#[tactic(auto, using(crate::proofs::Powers::cut_again))]
pub fn multiply(width: u32, left: u128, right: u128) -> u128
    requires { width ≤ 128 }
    ensures value { result ≡ left * right % 2 ^ width }
    ensures below { result < 2 ^ width }
{
    cut(left.wrapping_mul(right), width)
}

// The sum modulo 2 ^ width.
#[tactic(auto, using(crate::proofs::Powers::cut_again))]
pub fn add(width: u32, left: u128, right: u128) -> u128
    requires { width ≤ 128 }
    ensures value { result ≡ (left + right) % 2 ^ width }
    ensures below { result < 2 ^ width }
{
    cut(left.wrapping_add(right), width)
}

// The difference modulo 2 ^ width.
#[tactic(auto, using(crate::proofs::Powers::difference_cut))]
pub fn subtract(width: u32, left: u128, right: u128) -> u128
    requires within { width ≤ 128 }
    requires fits { right < 2 ^ width }
    ensures value { result ≡ (left + (2 ^ width - right)) % 2 ^ width }
    ensures below { result < 2 ^ width }
{
    cut(left.wrapping_sub(right), width)
}

// All bits inverted.
pub fn invert(width: u32, value: u128) -> u128
    requires within { width ≤ 128 }
    requires fits { value < 2 ^ width }
    ensures value { result ≡ 2 ^ width - 1 - value }
    ensures below { result < 2 ^ width }
{
    mask(width) - value
}

// Towards the top bit; what goes beyond it is lost (IEEE Std 1364-2005, 5.1.12).
#[tactic(auto, using(crate::proofs::Powers::cut_again, crate::proofs::Powers::shifted_out))]
pub fn shift_left(width: u32, value: u128, by: u128) -> u128
    requires { width ≤ 128 }
    ensures value { result ≡ value * 2 ^ by % 2 ^ width }
    ensures below { result < 2 ^ width }
{
    if by < width as u128 {
        cut(value << by, width)
    } else {
        0
    }
}

// Towards bit 0, with zeros from above.
#[tactic(auto, using(crate::proofs::Powers::all_shifted_out))]
pub fn shift_right(value: u128, by: u128) -> u128
    ensures value { result ≡ value / 2 ^ by }
    ensures below { result ≤ value }
{
    if by < 128 { value >> by } else { 0 }
}

// Towards bit 0, with ones from above.
#[tactic(auto, using(crate::proofs::Powers::ones_from_above))]
pub fn shift_right_with_ones(width: u32, value: u128, by: u128) -> u128
    requires within { width ≤ 128 }
    requires fits { value < 2 ^ width }
    ensures value { result ≡ (value + (2 ^ by - 1) * 2 ^ width) / 2 ^ by }
    ensures below { result < 2 ^ width }
{
    invert(width, shift_right(invert(width, value), by))
}
