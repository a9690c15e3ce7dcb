//! The order in which the nets of a module are computed, and that they need be computed only once in a cycle.
//!
//! It stands on `v_meaning` for what a cycle is, on `v_uses` for what each assign reads, on `v_depends` for an order of the
//! assigns by the names that they read, and on `lz_machine` for what it is that machines do the same. Promised are: `order`
//! answers an order in which the nets of a module settle that breaks no rule and whose processes are all clocked; an
//! expression looks only at the nets that it reads; nets settle in one way, which is to compute each once in such an order;
//! a cycle of such a module is one in which they settle once and the processes take their steps one process after another,
//! whatever the schedule; and declared names are numbered from 0, kind by kind.
#![tactic(auto)]

mod law;
mod ordering;

pub use law::{
    any_order_cycles, every_schedule_does_the_same, first_values_fit, modules_cycle_in_text_order,
    names_are_numbered, nets_settle_in_one_way, processes_are_apart, processes_are_steady,
    reads_decide, schedules_are_counted, text_order_cycles,
};
pub use ordering::order;
