ghost use Rattle.std.specs.Prelude.{◌≡◌, ◌≤◌, ◌<◌, ◌^◌, ◌-◌, ◌%◌};

/// The greatest value of a width of at most 128 bits, all bits 1.
#[tactic(auto, using(crate::proofs::Powers::power_fits))]
pub fn mask(width: u32) -> u128
    requires { width ≤ 128 }
    ensures { result ≡ 2 ^ width - 1 }
{
    if width == 128 {
        u128::MAX
    } else {
        (1 << width) - 1
    }
}

/// The low bits of a value, at most 128.
#[tactic(auto, using(std::proofs::lemmas::Nat::and_mask, std::proofs::lemmas::Nat::mod_below, std::proofs::lemmas::Nat::pow_pos))]
pub fn cut(value: u128, width: u32) -> u128
    requires { width ≤ 128 }
    ensures value { result ≡ value % 2 ^ width }
    ensures below { result < 2 ^ width }
{
    value & mask(width)
}
