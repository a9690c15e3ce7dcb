ghost use Rattle.std.specs.Prelude.{◌≡◌, ◌<◌, ◌≤◌, ◌^◌, length, map, if◌then◌else◌};
ghost use Rattle.lz_base.specs.Bits.{number_of, word_of};
ghost use Rattle.n_cells.specs.Netlist.{AllBelow};
ghost use Rattle.lz_circuit.specs.Values.{value_at};

use lz_base::{Num, Word};

// The word that the values of nets make, bit 0 first.
pub(crate) fn word_at(values: &[bool], nets: &[Num]) -> Word
    requires low { 1 ≤ length nets.now }
    requires high { length nets.now ≤ 128 }
    requires there { AllBelow (length values.now) nets.now }
    ensures { result ≡ word_of (map (value_at values.now) nets.now) }
{
    Word::new(nets.len() as u32, number_at(values, nets))
}

// The number that the values of nets make, bit 0 first.
#[tactic(auto, using(crate::proofs::Cells::below_at))]
fn number_at(values: &[bool], nets: &[Num]) -> u128
    requires high { length nets.now ≤ 128 }
    requires there { AllBelow (length values.now) nets.now }
    ensures number { result ≡ number_of (map (value_at values.now) nets.now) }
    ensures fits { result < 2 ^ length nets.now }
{
    let mut number = 0;
    let mut i = nets.len();
    while 0 < i {
        i -= 1;
        number = bit_of(values, nets[i]) + 2 * number;
    }
    number
}

// The value of a net as a number.
fn bit_of(values: &[bool], net: Num) -> u128
    requires { net < length values.now }
    ensures value { result ≡ (if value_at values.now net then 1 else 0) }
    ensures small { result < 2 }
{
    u128::from(values[net as usize])
}
