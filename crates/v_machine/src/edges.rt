ghost use Rattle.std.specs.Prelude.{◌≡◌, ◌≤◌, ◌<◌, ◌^◌, ◌+◌, [], ◌∷◌, ◌++◌, if◌then◌else◌, length, true, vec_capacity};
ghost use Rattle.std.specs.List.{list_all};
ghost use Rattle.v_core.specs.SitedCores.{is_sited_stmt};
ghost use Rattle.v_core.specs.declared.modules.TypedProcess.{TypedProcess};
ghost use Rattle.v_core.specs.Cores.{acts_where};
ghost use Rattle.v_core.specs.FormedCores.{is_formed_stmt};
ghost use Rattle.v_core.specs.Statements.{acts_in};
ghost use Rattle.v_values.specs.Moments.{fit};
ghost use Rattle.v_values.specs.Writes.{all_fit};
ghost use Rattle.v_order.specs.Counting.{steps_in_order, steps_of};
ghost use Rattle.v_order.specs.Stepping.{all_finished, finished, next_of};
ghost use Rattle.v_machine.specs.Executed.{stepping, write_count};
ghost use Rattle.v_machine.specs.Runnable.{process_counts};

use crate::executing::execute;
use v_core::TypedProcess;
use v_meaning::Entry;
use v_values::{Moment, Queue};

// A clocked process takes all its steps, and how many these are stands behind the other counts; another one takes none.
fn take_steps(
    process: &TypedProcess,
    names: &[Entry],
    now: &mut Moment,
    queue: &mut Queue,
    counts: &mut Vec<usize>,
)
    requires formed { is_formed_stmt process.now.body names.now ≡ true }
    requires sited { is_sited_stmt process.now.body names.now now.old.shape.sites ≡ true }
    requires fits { fit now.old.shape names.now ≡ true }
    requires counted { write_count process.now.body < 2 ^ 64 }
    requires room { length queue.old.writes + write_count process.now.body ≤ queue.old.room }
    requires queued { all_fit now.old.shape queue.old.writes ≡ true }
    requires place { length counts.old.items < vec_capacity counts.old }
    ensures finishes { stepping now.new queue.new ≡ (if process.now.clocked then finished (acts_in process.now.body names.now) (stepping now.old queue.old) else stepping now.old queue.old) }
    ensures queued { all_fit now.old.shape queue.new.writes ≡ true }
    ensures shape { now.new.shape ≡ now.old.shape }
    ensures few { length queue.new.writes ≤ length queue.old.writes + write_count process.now.body }
    ensures room { queue.new.room ≡ queue.old.room }
    ensures counts { counts.new.items ≡ counts.old.items ++ (if process.now.clocked then steps_of (acts_in process.now.body names.now) now.old.view ∷ [] else []) }
    ensures places { vec_capacity counts.new ≡ vec_capacity counts.old }
{
    if process.clocked {
        let steps = execute(&process.body, names, now, queue);
        counts.push_reserved(steps);
    }
}

/// The clocked processes take all their steps, one process after another, and it is counted how many each takes. It takes no
/// memory.
pub fn take_all_steps(
    processes: &[TypedProcess],
    names: &[Entry],
    now: &mut Moment,
    queue: &mut Queue,
    counts: &mut Vec<usize>,
)
    requires formed { list_all (λ (p : TypedProcess). is_formed_stmt p.body names.now) processes.now ≡ true }
    requires sited { list_all (λ (p : TypedProcess). is_sited_stmt p.body names.now now.old.shape.sites) processes.now ≡ true }
    requires fits { fit now.old.shape names.now ≡ true }
    requires counted { process_counts processes.now < 2 ^ 64 }
    requires room { length queue.old.writes + process_counts processes.now ≤ queue.old.room }
    requires queued { all_fit now.old.shape queue.old.writes ≡ true }
    requires places { length processes.now ≤ vec_capacity counts.old }
    ensures finishes { stepping now.new queue.new ≡ all_finished (acts_where (λ (p : TypedProcess). p.clocked) names.now processes.now) (stepping now.old queue.old) }
    ensures queued { all_fit now.old.shape queue.new.writes ≡ true }
    ensures shape { now.new.shape ≡ now.old.shape }
    ensures room { queue.new.room ≡ queue.old.room }
    ensures counts { counts.new.items ≡ steps_in_order (acts_where (λ (p : TypedProcess). p.clocked) names.now processes.now) now.old.view }
    ensures places { vec_capacity counts.new ≡ vec_capacity counts.old }
{
    counts.clear();
    for process in processes {
        take_steps(process, names, now, queue, counts);
    }
}

/// The edge of the clock: the clocked processes take all their steps, one process after another, and then the writes that
/// wait are done (IEEE Std 1364-2005, 9.2.2 and 11.4). It takes no memory.
pub fn edge(
    processes: &[TypedProcess],
    names: &[Entry],
    now: &mut Moment,
    queue: &mut Queue,
    counts: &mut Vec<usize>,
)
    requires formed { list_all (λ (p : TypedProcess). is_formed_stmt p.body names.now) processes.now ≡ true }
    requires sited { list_all (λ (p : TypedProcess). is_sited_stmt p.body names.now now.old.shape.sites) processes.now ≡ true }
    requires fits { fit now.old.shape names.now ≡ true }
    requires counted { process_counts processes.now < 2 ^ 64 }
    requires room { process_counts processes.now ≤ queue.old.room }
    requires empty { queue.old.writes ≡ [] }
    requires places { length processes.now ≤ vec_capacity counts.old }
    ensures next { now.new.view.store ≡ next_of (all_finished (acts_where (λ (p : TypedProcess). p.clocked) names.now processes.now) (record { view = now.old.view; queue = [] })) }
    ensures shape { now.new.shape ≡ now.old.shape }
    ensures empty { queue.new.writes ≡ [] }
    ensures room { queue.new.room ≡ queue.old.room }
    ensures places { vec_capacity counts.new ≡ vec_capacity counts.old }
{
    take_all_steps(processes, names, now, queue, counts);
    queue.apply_from(0, now);
}
