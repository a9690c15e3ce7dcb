ghost use Rattle.std.specs.Prelude.{◌≡◌, ◌≤◌, ◌<◌, ◌^◌, ◌+◌, length, true};
ghost use Rattle.std.specs.List.{list_all};
ghost use Rattle.v_meaning.specs.Acts.{sequence};
ghost use Rattle.v_meaning.specs.Statements.{assign_acts};
ghost use Rattle.v_core.specs.SitedCores.{is_sited_stmt};
ghost use Rattle.v_core.specs.declared.statement.TypedStmt.{TypedStmt};
ghost use Rattle.v_core.specs.Formed.{formed};
ghost use Rattle.v_core.specs.FormedCores.{is_formed_stmt};
ghost use Rattle.v_core.specs.Sited.{is_sited};
ghost use Rattle.v_core.specs.Statements.{acts_in, target_in, writes_in};
ghost use Rattle.v_core.specs.Values.{typed_value};
ghost use Rattle.v_values.specs.Kept.{is_kept_target};
ghost use Rattle.v_values.specs.Moments.{fit};
ghost use Rattle.v_values.specs.Queues as queues;
ghost use Rattle.v_values.specs.Writes.{all_fit};
ghost use Rattle.v_machine.specs.Executed.{all_acts_in, stepping, write_count, write_counts};
ghost use Rattle.v_order.specs.Counting.{steps_of};
ghost use Rattle.v_order.specs.Stepping.{finished};

use crate::cases::taken_arm;
use v_core::{Typed, TypedStmt, TypedTarget};
use v_meaning::Entry;
use v_syntax::AssignKind;
use v_values::{Moment, Queue, assign, defer, value};

// An assignment: a blocking one writes at once, a nonblocking one puts its writes behind the queue (IEEE Std 1364-2005, 9.2).
fn carry_out(
    target: &TypedTarget,
    kind: AssignKind,
    source: &Typed,
    names: &[Entry],
    now: &mut Moment,
    queue: &mut Queue,
)
    requires kept { is_kept_target target.now names.now now.old.shape.sites ≡ true }
    requires formed { (formed source.now names.now).kept ≡ true }
    requires sited { is_sited source.now names.now now.old.shape.sites ≡ true }
    requires fits { fit now.old.shape names.now ≡ true }
    requires room { length queue.old.writes + queues.write_count target.now ≤ queue.old.room }
    requires queued { all_fit now.old.shape queue.old.writes ≡ true }
    ensures finishes { stepping now.new queue.new ≡ finished (assign_acts kind (λ v. writes_in (target_in target.now names.now) (typed_value source.now names.now v) v)) (stepping now.old queue.old) }
    ensures queued { all_fit now.old.shape queue.new.writes ≡ true }
    ensures shape { now.new.shape ≡ now.old.shape }
    ensures few { length queue.new.writes ≤ length queue.old.writes + queues.write_count target.now }
    ensures room { queue.new.room ≡ queue.old.room }
{
    let word = value(source, names, now);
    match kind {
        AssignKind::Blocking => assign(target, word, names, now, queue),
        AssignKind::Nonblocking => defer(target, word, names, now, queue),
    }
}

/// Executes a statement from its first step to its end, with the nets as they are: its blocking writes are done, and its
/// nonblocking ones stand behind the queue afterwards (IEEE Std 1364-2005, 9). It answers how many steps were taken. The statement keeps to its widths, its sites
/// and the names have as many bits as their words, and the queue has room for its writes. It takes no memory; each
/// statement and each expression is visited once at most.
#[cycle(executing)]
pub fn execute(body: &TypedStmt, names: &[Entry], now: &mut Moment, queue: &mut Queue) -> usize
    requires counted { write_count body.now < 2 ^ 64 }
    requires formed { is_formed_stmt body.now names.now ≡ true }
    requires sited { is_sited_stmt body.now names.now now.old.shape.sites ≡ true }
    requires fits { fit now.old.shape names.now ≡ true }
    requires room { length queue.old.writes + write_count body.now ≤ queue.old.room }
    requires queued { all_fit now.old.shape queue.old.writes ≡ true }
    ensures finishes { stepping now.new queue.new ≡ finished (acts_in body.now names.now) (stepping now.old queue.old) }
    ensures queued { all_fit now.old.shape queue.new.writes ≡ true }
    ensures shape { now.new.shape ≡ now.old.shape }
    ensures few { length queue.new.writes ≤ length queue.old.writes + write_count body.now }
    ensures room { queue.new.room ≡ queue.old.room }
    ensures steps { result ≡ steps_of (acts_in body.now names.now) now.old.view }
    ensures bound { result ≤ write_count body.now }
{
    match body {
        TypedStmt::Null => 0,
        TypedStmt::Block(all) => execute_all(all.as_slice(), names, now, queue),
        TypedStmt::If(condition, one, other) => {
            if value(condition, names, now) == 0 {
                1 + execute(other.get(), names, now, queue)
            } else {
                1 + execute(one.get(), names, now, queue)
            }
        }
        TypedStmt::Case { subject, arms } => {
            let word = value(subject, names, now);
            let arms = arms.as_slice();
            match taken_arm(arms, word, names, now) {
                Some(i) => 1 + execute(&arms[i].body, names, now, queue),
                None => 1,
            }
        }
        TypedStmt::Assign {
            target,
            kind,
            value,
        } => {
            carry_out(target.get(), *kind, value, names, now, queue);
            1
        }
    }
}

// Statements one after another (9.8.1).
#[cycle(executing)]
fn execute_all(all: &[TypedStmt], names: &[Entry], now: &mut Moment, queue: &mut Queue) -> usize
    requires counted { write_counts all.now < 2 ^ 64 }
    requires formed { list_all (λ (x : TypedStmt). is_formed_stmt x names.now) all.now ≡ true }
    requires sited { list_all (λ (x : TypedStmt). is_sited_stmt x names.now now.old.shape.sites) all.now ≡ true }
    requires fits { fit now.old.shape names.now ≡ true }
    requires room { length queue.old.writes + write_counts all.now ≤ queue.old.room }
    requires queued { all_fit now.old.shape queue.old.writes ≡ true }
    ensures finishes { stepping now.new queue.new ≡ finished (sequence (all_acts_in all.now names.now)) (stepping now.old queue.old) }
    ensures queued { all_fit now.old.shape queue.new.writes ≡ true }
    ensures shape { now.new.shape ≡ now.old.shape }
    ensures few { length queue.new.writes ≤ length queue.old.writes + write_counts all.now }
    ensures room { queue.new.room ≡ queue.old.room }
    ensures steps { result ≡ steps_of (sequence (all_acts_in all.now names.now)) now.old.view }
    ensures bound { result ≤ write_counts all.now }
{
    let mut steps = 0usize;
    for one in all {
        steps += execute(one, names, now, queue);
    }
    steps
}
