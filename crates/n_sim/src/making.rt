ghost use Rattle.std.specs.Prelude.{◌≡◌, ◌≤◌, ◌<◌, ◌+◌, ◌&&◌, ◌/◌, ◌^◌, ℕ, List, Bool, true, false, length, IfOk, IfSome, IsTrue, Some, slice_get};
ghost use Rattle.std.specs.Bool.{xor};
ghost use Rattle.lz_circuit.specs.Values.{value_at, majority};
ghost use Rattle.n_cells.specs.Leaves.{most_leaves};
ghost use Rattle.n_cells.specs.Netlist.{AllBelow};
ghost use Rattle.n_cells.specs.Run.{index_of, table_bit};
ghost use Rattle.n_sim.specs.Steps.{AreBackwards, StepBelow, Extends, Holds, step_bit};

use crate::step::Step;
use crate::wires::short;
use lz_base::{Items, Num, OutOfMemory};

// Among so many last steps an equal one is looked for.
const NEAR: usize = 64;

// The place whose bit a step has anyway.
fn known(step: Step) -> Option<u32>
    ensures below { (high : ℕ) → StepBelow high step → IfSome result (λ place. place < high) }
    ensures value { (values : List Bool) → value_at values 0 ≡ false → value_at values 1 ≡ true → IfSome result (λ place. value_at values place ≡ step_bit values step) }
{
    if step.change == 0 {
        Some(step.base)
    } else if step.by == 0 {
        Some(step.base)
    } else if step.base == 0 && step.change == 1 {
        Some(step.by)
    } else if step.base == 0 && step.by == 1 {
        Some(step.change)
    } else {
        None
    }
}

// Whether two steps are the same.
fn same(a: Step, b: Step) -> bool
    ensures { IsTrue result → a ≡ b }
{
    a.base == b.base && a.change == b.change && a.by == b.by
}

// The index of an equal step among the last ones.
fn find(steps: &[Step], step: Step) -> Option<usize>
    ensures { IfSome result (λ i. slice_get steps.now i ≡ Some step) }
{
    for i in steps.len().saturating_sub(NEAR)..steps.len() {
        if same(steps[i], step) {
            return Some(i);
        }
    }
    None
}

// The place of a step. For 2^32 places and more there is no room.
fn place(first: usize, index: usize) -> Result<u32, OutOfMemory>
    ensures { IfOk result (λ place. place ≡ first + index) }
{
    match first.checked_add(index) {
        Some(place) => short(place as Num),
        None => Err(OutOfMemory),
    }
}

// The place of a step's bit, for which the step is appended where no other one has it.
fn put(first: usize, steps: &mut Items<Step>, step: Step) -> Result<u32, OutOfMemory>
    requires back { AreBackwards first steps.old }
    requires some { 2 ≤ first }
    requires there { StepBelow (first + length steps.old) step }
    ensures extends { IfOk result (λ _. Extends first steps.old steps.new) }
    ensures holds { IfOk result (λ place. Holds first steps.new place (λ values. step_bit values step)) }
{
    if let Some(place) = known(step) {
        return Ok(place);
    }
    if let Some(index) = find(steps.as_slice(), step) {
        let found = place(first, index)?;
        return Ok(found);
    }
    let at = place(first, steps.len())?;
    steps.push(step)?;
    Ok(at)
}

// The place of the bit that a table shows over the bits at these places, the first one lowest. Its upper half is the
// lower half, changed by the exclusive or of both where the last bit is 1.
pub(crate) fn put_table(
    first: usize,
    steps: &mut Items<Step>,
    table: u64,
    leaves: &[u32],
) -> Result<u32, OutOfMemory>
    requires back { AreBackwards first steps.old }
    requires some { 2 ≤ first }
    requires few { length leaves.now ≤ most_leaves }
    requires there { AllBelow (first + length steps.old) leaves.now }
    ensures extends { IfOk result (λ _. Extends first steps.old steps.new) }
    ensures holds { IfOk result (λ place. Holds first steps.new place (λ values. table_bit table (index_of values leaves.now))) }
{
    let Some((last, others)) = leaves.split_last() else {
        return Ok((table % 2) as u32);
    };
    let changed = table ^ upper_half(table, others.len());
    let base = put_table(first, steps, table, others)?;
    let change = put_table(first, steps, changed, others)?;
    let place = put(
        first,
        steps,
        Step {
            base,
            change,
            by: *last,
        },
    )?;
    Ok(place)
}

// The upper half of a table that has so many leaves below its last one.
fn upper_half(table: u64, others: usize) -> u64
    requires { others < most_leaves }
    ensures { result ≡ table / 2 ^ (2 ^ others) }
{
    table >> (1_u32 << others)
}

// The place of the exclusive or of two bits.
fn put_xor(first: usize, steps: &mut Items<Step>, a: u32, b: u32) -> Result<u32, OutOfMemory>
    requires back { AreBackwards first steps.old }
    requires some { 2 ≤ first }
    requires a_there { a < first + length steps.old }
    requires b_there { b < first + length steps.old }
    ensures extends { IfOk result (λ _. Extends first steps.old steps.new) }
    ensures holds { IfOk result (λ place. Holds first steps.new place (λ values. xor (value_at values a) (value_at values b))) }
{
    let place = put(
        first,
        steps,
        Step {
            base: a,
            change: b,
            by: 1,
        },
    )?;
    Ok(place)
}

// The places of the exclusive or and of the majority of three bits.
pub(crate) fn put_carry(
    first: usize,
    steps: &mut Items<Step>,
    a: u32,
    b: u32,
    c: u32,
) -> Result<(u32, u32), OutOfMemory>
    requires back { AreBackwards first steps.old }
    requires some { 2 ≤ first }
    requires a_there { a < first + length steps.old }
    requires b_there { b < first + length steps.old }
    requires c_there { c < first + length steps.old }
    ensures extends { IfOk result (λ _. Extends first steps.old steps.new) }
    ensures sum { IfOk result (λ r. Holds first steps.new r.0 (λ values. xor (value_at values a) (xor (value_at values b) (value_at values c)))) }
    ensures carry { IfOk result (λ r. Holds first steps.new r.1 (λ values. majority (value_at values a) (value_at values b) (value_at values c))) }
{
    let either = put_xor(first, steps, b, c)?;
    let sum = put_xor(first, steps, a, either)?;
    let both = put(
        first,
        steps,
        Step {
            base: 0,
            change: b,
            by: c,
        },
    )?;
    let carry = put(
        first,
        steps,
        Step {
            base: both,
            change: a,
            by: either,
        },
    )?;
    Ok((sum, carry))
}
