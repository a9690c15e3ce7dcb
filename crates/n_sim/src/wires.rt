ghost use Rattle.std.specs.Prelude.{◌≡◌, ◌≤◌, ◌<◌, IfOk, length, take, false, if◌then◌else◌};
ghost use Rattle.n_cells.specs.Leaves.{most_leaves};
ghost use Rattle.n_cells.specs.Netlist.{AllBelow};
ghost use Rattle.lz_circuit.specs.Values.{value_at};
ghost use Rattle.n_cells.specs.Run.{index_of};
ghost use Rattle.n_sim.specs.Wires.{AreFilled};

use lz_base::{Num, OutOfMemory};
use n_cells::LEAVES;
use std::marker::Model;

// The leaves of a look-up table, filled up with net 0, which is the constant 0.
#[derive(Debug, Drop)]
pub(crate) struct Wires {
    pub(crate) nets: [u32; LEAVES],
    pub(crate) count: u32,
}

impl Model for Wires {
    ghost use Rattle.std.specs.Prelude.{List, ℕ, take};
    ghost use Rattle.n_sim.specs.Wires.{AreFilled};

    ghost Value = { List ℕ };

    ghost view = { λ w. take w.count w.nets };

    ghost invariant = { λ w. AreFilled w.count w.nets };
}

impl Wires {
    pub(crate) fn new(leaves: &[Num]) -> Result<Wires, OutOfMemory>
        requires { length leaves.now ≤ most_leaves }
        ensures { IfOk result (λ wires. wires ≡ leaves.now) }
    {
        Ok(Wires {
            nets: fill_up(leaves)?,
            count: leaves.len() as u32,
        })
    }

    // The number that the values of the leaves make, the first leaf's bit lowest.
    pub(crate) fn index(&self, values: &[bool]) -> u64
        requires zero { value_at values.now 0 ≡ false }
        requires there { AllBelow (length values.now) self.now }
        requires some { 0 < length values.now }
        ensures index { result ≡ index_of values.now self.now }
        ensures small { result < 64 }
    {
        index_at(values, &self.nets)
    }
}

// The nets, and net 0 behind them.
fn fill_up(leaves: &[Num]) -> Result<[u32; LEAVES], OutOfMemory>
    requires { length leaves.now ≤ most_leaves }
    ensures nets { IfOk result (λ nets. take (length leaves.now) nets ≡ leaves.now) }
    ensures filled { IfOk result (AreFilled (length leaves.now)) }
{
    let mut nets = [0; LEAVES];
    for (i, leaf) in leaves.iter().enumerate() {
        nets[i] = short(*leaf)?;
    }
    Ok(nets)
}

// The number of a net in 32 bits. There is no room for so many nets where it has more.
pub(crate) fn short(net: Num) -> Result<u32, OutOfMemory>
    ensures { IfOk result (λ short. short ≡ net) }
{
    if net <= u128::from(u32::MAX) {
        Ok(net as u32)
    } else {
        Err(OutOfMemory)
    }
}

// The number that the values of six nets make, the first net's bit lowest.
fn index_at(values: &[bool], nets: &[u32; LEAVES]) -> u64
    requires { AllBelow (length values.now) nets.now }
    ensures { result ≡ index_of values.now nets.now }
{
    let [a, b, c, d, e, f] = *nets;
    let high = bit_of(values, d) + 2 * (bit_of(values, e) + 2 * bit_of(values, f));
    bit_of(values, a) + 2 * (bit_of(values, b) + 2 * (bit_of(values, c) + 2 * high))
}

// The value of a net as a number.
fn bit_of(values: &[bool], net: u32) -> u64
    requires { net < length values.now }
    ensures value { result ≡ (if value_at values.now net then 1 else 0) }
    ensures small { result < 2 }
{
    u64::from(values[net as usize])
}
