ghost use Rattle.std.specs.Prelude.{◌≡◌, ◌+◌, ◌<◌, ◌≤◌, ◌++◌, length, take, false};
ghost use Rattle.std.specs.Bool.{xor};
ghost use Rattle.n_cells.specs.Netlist.{ReadsBelow, ReadBackwards, nets_of, cell_nets};
ghost use Rattle.lz_circuit.specs.Values.{value_at, majority};
ghost use Rattle.n_cells.specs.Run.{table_bit};
ghost use Rattle.n_cells.specs.Walk.{cell_values, all_values};
ghost use Rattle.n_sim.specs.Gates.{kind_cell};

use crate::gate::{Gate, Kind};

// Puts the values of the cells' nets behind those of the nets before them, cell after cell.
pub(crate) fn put_cells(nets: &mut [bool], first: usize, gates: &[Gate])
    requires room { first + cell_nets gates.now ≡ length nets.old }
    requires there { ReadBackwards first gates.now }
    requires some { 0 < first }
    requires zero { value_at nets.old 0 ≡ false }
    ensures { nets.new ≡ all_values (take first nets.old) gates.now }
{
    let mut next = first;
    for gate in gates {
        next = put_cell(nets, next, &gate.kind);
    }
}

// Puts the values of a cell's nets behind those of the nets before it, and gives the number of the next net.
fn put_cell(nets: &mut [bool], next: usize, kind: &Kind) -> usize
    requires room { next + nets_of (kind_cell kind.now) ≤ length nets.old }
    requires there { ReadsBelow next (kind_cell kind.now) }
    requires some { 0 < next }
    requires zero { value_at nets.old 0 ≡ false }
    ensures next { result ≡ next + nets_of (kind_cell kind.now) }
    ensures values { take result nets.new ≡ take next nets.old ++ cell_values nets.old (kind_cell kind.now) }
{
    match kind {
        Kind::Lut { leaves, table } => {
            nets[next] = bit_at(*table, leaves.index(nets));
            next + 1
        }
        Kind::Carry(a, b, c) => {
            let (a, b, c) = (nets[*a as usize], nets[*b as usize], nets[*c as usize]);
            nets[next] = sum(a, b, c);
            nets[next + 1] = carry_out(a, b, c);
            next + 2
        }
    }
}

// Bit i of a table.
fn bit_at(table: u64, i: u64) -> bool
    requires { i < 64 }
    ensures { result ≡ table_bit table i }
{
    (table >> i) & 1 == 1
}

// The exclusive or of three bits.
fn sum(a: bool, b: bool, c: bool) -> bool
    ensures { result ≡ xor a (xor b c) }
{
    a != (b != c)
}

// The majority of three bits.
fn carry_out(a: bool, b: bool, c: bool) -> bool
    ensures { result ≡ majority a b c }
{
    (a & b) | (a & c) | (b & c)
}
