ghost use Rattle.std.specs.Prelude.{◌≡◌, ◌≤◌, ◌<◌, ◌+◌, ℕ, List, Bool, length, map, take, IfOk, OnOk};
ghost use Rattle.lz_circuit.specs.Values.{value_at};
ghost use Rattle.n_cells.specs.Leaves.{most_leaves};
ghost use Rattle.n_cells.specs.Netlist.{AllBelow, FlopsBelow, IsWellFormed, ReadsBelow, first_net, net_count};
ghost use Rattle.n_cells.specs.Run.{index_of, table_bit};
ghost use Rattle.n_sim.specs.Steps.{AreBackwards, Computes, Extends, Holds, IsLaidOut, joined, moved, place_at};

use crate::making::{put_carry, put_table};
use crate::room::count_front;
use crate::step::Step;
use crate::wires::short;
use lz_base::{Items, Num, OutOfMemory};
use n_cells::{Cell, Flop, Netlist};
use std::alloc::Global;

// The steps that compute the words of a netlist's nets, the places of the words of the outputs' bits, and the flip-flops,
// which take the words at places in place of nets.
#[derive(Debug, Drop)]
pub(crate) struct Plan {
    pub(crate) steps: Items<Step>,
    pub(crate) shown: Items<u32>,
    pub(crate) flops: Items<Flop>,
}

// The steps, and the place of each net.
#[derive(Drop)]
struct Laid {
    steps: Items<Step>,
    places: Items<u32>,
}

// The places of nets before the cells, which stand in the order of the nets.
fn front_places(alloc: Global, first: usize) -> Result<Items<u32>, OutOfMemory>
    ensures count { IfOk result (λ places. length places ≡ first) }
    ensures there { IfOk result (AllBelow first) }
    ensures same { IfOk result (λ places. (front : List Bool) → length front ≡ first → map (value_at front) places ≡ front) }
{
    let mut places = Items::new(alloc);
    for i in 0..first {
        let place = short(i as Num)?;
        places.push(place)?;
    }
    Ok(places)
}

// The place of a net.
fn place_of(places: &[u32], net: Num) -> u32
    requires { net < length places.now }
    ensures { result ≡ place_at places.now net }
{
    places[net as usize]
}

// The places of these nets.
#[tactic(auto, using(crate::proofs::Cells::below_at))]
fn places_of(alloc: Global, places: &[u32], nets: &[Num]) -> Result<Items<u32>, OutOfMemory>
    requires { AllBelow (length places.now) nets.now }
    ensures { IfOk result (λ found. found ≡ map (place_at places.now) nets.now) }
{
    let mut found = Items::new(alloc);
    for net in nets {
        found.push(place_of(places, *net))?;
    }
    Ok(found)
}

// The place of the bit of a table over these nets.
fn put_lut(
    alloc: Global,
    first: usize,
    steps: &mut Items<Step>,
    places: &[u32],
    leaves: &[Num],
    table: u64,
) -> Result<u32, OutOfMemory>
    requires back { AreBackwards first steps.old }
    requires some { 2 ≤ first }
    requires few { length leaves.now ≤ most_leaves }
    requires there { AllBelow (length places.now) leaves.now }
    requires places { AllBelow (first + length steps.old) places.now }
    ensures extends { IfOk result (λ _. Extends first steps.old steps.new) }
    ensures holds { IfOk result (λ place. Holds first steps.new place (λ values. table_bit table (index_of values (map (place_at places.now) leaves.now)))) }
{
    let leaves = places_of(alloc, places, leaves)?;
    let place = put_table(first, steps, table, leaves.as_slice())?;
    Ok(place)
}

// Appends the steps of a cell, and the places of its nets.
fn put_cell(
    alloc: Global,
    first: usize,
    laid: &mut Laid,
    netlist: &Netlist,
    index: usize,
) -> Result<(), OutOfMemory>
    requires formed { IsWellFormed netlist.now }
    requires first { first ≡ first_net netlist.now.inputs netlist.now.flops }
    requires index { index < length netlist.now.cells }
    requires before { Computes first laid.old.steps laid.old.places (take index netlist.now.cells) }
    ensures { OnOk result (Computes first laid.new.steps laid.new.places (take (index + 1) netlist.now.cells)) }
{
    let places = laid.places.as_slice();
    match netlist.cell(index) {
        Cell::Lut { leaves, table } => {
            let place = put_lut(alloc, first, &mut laid.steps, places, leaves, table)?;
            laid.places.push(place)?;
        }
        Cell::Carry(a, b, c) => {
            let (a, b, c) = (
                place_of(places, a),
                place_of(places, b),
                place_of(places, c),
            );
            let (sum, carry) = put_carry(first, &mut laid.steps, a, b, c)?;
            laid.places.push(sum)?;
            laid.places.push(carry)?;
        }
    }
    Ok(())
}

// The steps of all cells, cell after cell.
fn put_cells(alloc: Global, netlist: &Netlist, first: usize) -> Result<Laid, OutOfMemory>
    requires { first ≡ first_net netlist.now.inputs netlist.now.flops }
    ensures cells { IfOk result (λ laid. Computes first laid.steps laid.places netlist.now.cells) }
    ensures formed { IsWellFormed netlist.now }
{
    let count = netlist.cell_count();
    let mut laid = Laid {
        steps: Items::new(alloc),
        places: front_places(alloc, first)?,
    };
    for index in 0..count {
        put_cell(alloc, first, &mut laid, netlist, index)?;
    }
    Ok(laid)
}

// The places of the outputs' nets, output after output.
fn shown_places(alloc: Global, netlist: &Netlist, places: &[u32]) -> Result<Items<u32>, OutOfMemory>
    requires formed { IsWellFormed netlist.now }
    requires count { length places.now ≡ net_count netlist.now }
    ensures { IfOk result (λ shown. shown ≡ map (place_at places.now) (joined netlist.now.nets)) }
{
    let mut shown = Items::new(alloc);
    for i in 0..netlist.outputs().len() {
        shown.append(places_of(alloc, places, netlist.output_nets(i))?)?;
    }
    Ok(shown)
}

// The flip-flops, with places in place of nets.
#[tactic(auto, using(crate::proofs::Edges::net_there, crate::proofs::Edges::enable_there))]
fn moved_flops(alloc: Global, flops: &[Flop], places: &[u32]) -> Result<Items<Flop>, OutOfMemory>
    requires { FlopsBelow (length places.now) flops.now }
    ensures { IfOk result (λ moved_flops. moved_flops ≡ map (moved places.now) flops.now) }
{
    let mut found = Items::new(alloc);
    for flop in flops {
        found.push(Flop {
            first: flop.first,
            net: Num::from(place_of(places, flop.net)),
            enable: Num::from(place_of(places, flop.enable)),
        })?;
    }
    Ok(found)
}

// A netlist's cells, outputs and flip-flops, laid out. For 2^32 places and more there is no room.
pub(crate) fn make_plan(alloc: Global, netlist: &Netlist) -> Result<Plan, OutOfMemory>
    ensures formed { OnOk result (IsWellFormed netlist.now) }
    ensures plan { IfOk result (λ plan. (places : List ℕ) × IsLaidOut netlist.now plan.steps plan.shown plan.flops places) }
{
    let laid = put_cells(alloc, netlist, count_front(netlist)?)?;
    let shown = shown_places(alloc, netlist, laid.places.as_slice())?;
    let flops = moved_flops(alloc, netlist.flops(), laid.places.as_slice())?;
    let Laid { steps, places: _ } = laid;
    Ok(Plan {
        steps,
        shown,
        flops,
    })
}
