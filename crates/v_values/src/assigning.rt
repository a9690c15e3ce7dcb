ghost use Rattle.std.specs.Prelude.{◌≡◌, ◌≤◌, ◌+◌, ◌++◌, length, true};
ghost use Rattle.v_meaning.specs.Views.{applied};
ghost use Rattle.v_core.specs.Statements.{target_in};
ghost use Rattle.v_core.specs.Statements as core;
ghost use Rattle.v_values.specs.Kept.{is_kept_target};
ghost use Rattle.v_values.specs.Moments.{fit};
ghost use Rattle.v_values.specs.Queues.{write_count};
ghost use Rattle.v_values.specs.Writes.{all_fit};

use crate::moment::Moment;
use crate::queue::Queue;
use crate::targets::{enqueue, target_width};
use lz_base::cut;
use v_core::TypedTarget;
use v_meaning::Entry;

/// A nonblocking assignment (IEEE Std 1364-2005, 9.2.2): puts the writes of a value, which is cut to the target's width,
/// behind a queue that has room for one of each part. It takes no memory.
pub fn defer(target: &TypedTarget, value: u128, names: &[Entry], now: &Moment, queue: &mut Queue)
    requires kept { is_kept_target target.now names.now now.now.shape.sites ≡ true }
    requires fits { fit now.now.shape names.now ≡ true }
    requires room { length queue.old.writes + write_count target.now ≤ queue.old.room }
    ensures writes { queue.new.writes ≡ queue.old.writes ++ core.writes_in (target_in target.now names.now) value now.now.view }
    ensures fit { all_fit now.now.shape (core.writes_in (target_in target.now names.now) value now.now.view) ≡ true }
    ensures few { length queue.new.writes ≤ length queue.old.writes + write_count target.now }
    ensures room { queue.new.room ≡ queue.old.room }
{
    let width = target_width(target);
    let bits = cut(value, width);
    enqueue(target, bits, names, now, queue);
}

/// A blocking assignment (9.2.1): the indices of the target are evaluated before anything of it is written. The queue has
/// room for one write of each part, and is as it was afterwards. It takes no memory.
pub fn assign(
    target: &TypedTarget,
    value: u128,
    names: &[Entry],
    now: &mut Moment,
    queue: &mut Queue,
)
    requires kept { is_kept_target target.now names.now now.old.shape.sites ≡ true }
    requires fits { fit now.old.shape names.now ≡ true }
    requires room { length queue.old.writes + write_count target.now ≤ queue.old.room }
    ensures view { now.new.view ≡ applied now.old.view (core.writes_in (target_in target.now names.now) value now.old.view) }
    ensures shape { now.new.shape ≡ now.old.shape }
    ensures same { queue.new ≡ queue.old }
{
    let first = queue.len();
    defer(target, value, names, now, queue);
    queue.apply_from(first, now);
}
