ghost use Rattle.std.specs.Prelude.{◌≡◌, [], length, map, true, slice_get};
ghost use Rattle.std.specs.List.{list_all};
ghost use Rattle.v_meaning.specs.Names.{word_of};
ghost use Rattle.v_core.specs.declared.modules.TypedAssign.{TypedAssign};
ghost use Rattle.v_core.specs.Cores.{assign_in};
ghost use Rattle.v_core.specs.Formed.{formed};
ghost use Rattle.v_core.specs.Sited.{is_sited};
ghost use Rattle.v_core.specs.Values.{entry_at};
ghost use Rattle.v_values.specs.Moments.{fit};
ghost use Rattle.v_values.specs.Seen.{values_of, widths_of};
ghost use Rattle.v_order.specs.Settling.{all_computed, elements_at, with_found};
ghost use Rattle.v_machine.specs.Runnable.{is_measured};

use lz_base::{Word, cut};
use v_core::TypedAssign;
use v_meaning::Entry;
use v_values::{Moment, named, value};

// The net of the assign of a number gets its value (IEEE Std 1364-2005, 6.1); nothing where there are not so many.
fn compute(assigns: &[TypedAssign], number: usize, names: &[Entry], now: &mut Moment)
    requires formed { list_all (λ (a : TypedAssign). (formed a.value names.now).kept) assigns.now ≡ true }
    requires sited { list_all (λ (a : TypedAssign). is_sited a.value names.now now.old.shape.sites) assigns.now ≡ true }
    requires measured { list_all (is_measured now.old.shape) assigns.now ≡ true }
    requires fits { fit now.old.shape names.now ≡ true }
    ensures view { now.new.view ≡ all_computed now.old.view (with_found (slice_get (map (assign_in names.now) assigns.now) number) []) }
    ensures shape { now.new.shape ≡ now.old.shape }
{
    if number < assigns.len() {
        let assign = &assigns[number];
        let word = value(&assign.value, names, now);
        now.set_net(assign.net, cut(word, assign.width));
    }
}

/// The nets of these assigns, by their numbers, get their values one after another. It takes no memory.
pub fn settle(assigns: &[TypedAssign], order: &[usize], names: &[Entry], now: &mut Moment)
    requires formed { list_all (λ (a : TypedAssign). (formed a.value names.now).kept) assigns.now ≡ true }
    requires sited { list_all (λ (a : TypedAssign). is_sited a.value names.now now.old.shape.sites) assigns.now ≡ true }
    requires measured { list_all (is_measured now.old.shape) assigns.now ≡ true }
    requires fits { fit now.old.shape names.now ≡ true }
    ensures view { now.new.view ≡ all_computed now.old.view (elements_at (map (assign_in names.now) assigns.now) order.now) }
    ensures shape { now.new.shape ≡ now.old.shape }
{
    for number in order {
        compute(assigns, *number, names, now);
    }
}

/// Shows the words of the names of these numbers. It takes no memory.
pub fn show(outputs: &[u32], names: &[Entry], now: &Moment, out: &mut [Word])
    requires widths { widths_of out.old ≡ map (λ n. (entry_at names.now n).width) outputs.now }
    requires fits { fit now.now.shape names.now ≡ true }
    ensures values { values_of out.new ≡ map (λ n. word_of (entry_at names.now n).kind now.now.view) outputs.now }
    ensures widths { widths_of out.new ≡ widths_of out.old }
{
    for i in 0..out.len() {
        let word = out[i];
        out[i] = Word::new(word.width, named(names, outputs[i], now));
    }
}
