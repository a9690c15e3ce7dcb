ghost use Rattle.std.specs.Prelude.{◌≡◌, ℕ, ◌<◌, ◌≤◌, ◌^◌, ◌/◌, ◌%◌, ◌==◌, ◌&&◌};
ghost use Rattle.std.specs.Bool.{xor};
ghost use Rattle.n_cells.specs.Run.{table_bit};
ghost use Rattle.m_valid.specs.Validity.{agree};
ghost use Rattle.m_valid.specs.Walk.{HasBits, literal_bit};

use lz_base::{Num, cut};

// The tables of the six leaves: bit i of that of leaf j is bit j of i.
const LEAF_TABLES: [u64; 6] = [
    0xaaaa_aaaa_aaaa_aaaa,
    0xcccc_cccc_cccc_cccc,
    0xf0f0_f0f0_f0f0_f0f0,
    0xff00_ff00_ff00_ff00,
    0xffff_0000_ffff_0000,
    0xffff_ffff_0000_0000,
];

/// The table of a leaf, counted from 0.
pub fn leaf_table(j: usize) -> u64
    requires { j < 6 }
    ensures { HasBits result (λ i. (i / 2 ^ j % 2) == 1) }
{
    LEAF_TABLES[j]
}

/// The table of a literal whose node has this one.
pub fn literal_table(literal: Num, table: u64) -> u64
    ensures { HasBits result (literal_bit literal table) }
{
    if literal % 2 == 1 { !table } else { table }
}

/// The table of an `and`.
pub fn and_table(a: u64, b: u64) -> u64
    ensures { HasBits result (λ i. table_bit a i && table_bit b i) }
{
    a & b
}

/// The table of an exclusive or.
pub fn xor_table(a: u64, b: u64) -> u64
    ensures { HasBits result (λ i. xor (table_bit a i) (table_bit b i)) }
{
    a ^ b
}

/// How many assignments so many leaves have.
pub fn assignments(leaves: usize) -> u32
    requires { leaves ≤ 6 }
    ensures count { result ≡ 2 ^ leaves }
    ensures few { result ≤ 64 }
{
    1 << leaves
}

/// Whether two tables agree for all assignments of at most six leaves.
pub fn same_table(a: u64, b: u64, leaves: usize) -> bool
    requires { leaves ≤ 6 }
    ensures { result ≡ agree (2 ^ leaves) (table_bit a) (table_bit b) }
{
    let width = assignments(leaves);
    cut(a as u128, width) == cut(b as u128, width)
}
