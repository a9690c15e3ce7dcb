ghost use Rattle.std.specs.Prelude.{◌≡◌, ◌<◌, List, length, true, IfSome};
ghost use Rattle.std.specs.List.{list_all, list_any};
ghost use Rattle.v_meaning.specs.Acts.{Acts, End};
ghost use Rattle.v_core.specs.declared.statement.TypedArm.{TypedArm};
ghost use Rattle.v_core.specs.declared.statement.TypedItem.{TypedItem};
ghost use Rattle.v_core.specs.Formed.{formed};
ghost use Rattle.v_core.specs.Sited.{is_sited};
ghost use Rattle.v_core.specs.Statements.{default_among, is_met_in, items_in, taken_in};
ghost use Rattle.v_values.specs.Moments.{fit};
ghost use Rattle.v_machine.specs.Cases.{are_compared, are_kept_arms};
ghost use Rattle.v_machine.specs.Executed.{acts_at, arms_in};

use v_core::{TypedArm, TypedItem, TypedLabel};
use v_meaning::Entry;
use v_values::{Moment, value};

// Whether an item agrees with the subject but for the bits that are not compared (IEEE Std 1364-2005, 9.5.1).
fn agrees(item: &TypedItem, subject: u128, names: &[Entry], now: &Moment) -> bool
    requires formed { (formed item.now.value names.now).kept ≡ true }
    requires sited { is_sited item.now.value names.now now.now.shape.sites ≡ true }
    requires fits { fit now.now.shape names.now ≡ true }
    ensures { result ≡ is_met_in names.now now.now.view subject item.now }
{
    let word = value(&item.value, names, now);
    subject | item.ignored == word | item.ignored
}

// Whether one of several items agrees with the subject.
fn one_agrees(items: &[TypedItem], subject: u128, names: &[Entry], now: &Moment) -> bool
    requires kept { are_compared items.now names.now now.now.shape.sites ≡ true }
    requires fits { fit now.now.shape names.now ≡ true }
    ensures { result ≡ list_any (is_met_in names.now now.now.view subject) items.now }
{
    for item in items {
        if agrees(item, subject, names, now) {
            return true;
        }
    }
    false
}

// Whether an arm has an item that agrees with the subject.
fn is_met(label: &TypedLabel, subject: u128, names: &[Entry], now: &Moment) -> bool
    requires kept { are_compared (items_in label.now) names.now now.now.shape.sites ≡ true }
    requires fits { fit now.now.shape names.now ≡ true }
    ensures { result ≡ list_any (is_met_in names.now now.now.view subject) (items_in label.now) }
{
    match label {
        TypedLabel::Items(items) => one_agrees(items.as_slice(), subject, names, now),
        TypedLabel::Default => false,
    }
}

// The number of the first arm with an item that agrees with the subject.
fn met_arm(arms: &[TypedArm], subject: u128, names: &[Entry], now: &Moment) -> Option<usize>
    requires kept { are_kept_arms arms.now names.now now.now.shape.sites ≡ true }
    requires fits { fit now.now.shape names.now ≡ true }
    ensures taken { (otherwise : Acts) → taken_in (is_met_in names.now now.now.view subject) (arms_in arms.now) names.now otherwise ≡ acts_at result arms.now names.now otherwise }
    ensures within { IfSome result (λ i. i < length arms.now) }
{
    for i in 0..arms.len() {
        if is_met(&arms[i].label, subject, names, now) {
            return Some(i);
        }
    }
    None
}

// The number of the first default.
fn default_arm(arms: &[TypedArm]) -> Option<usize>
    ensures default { (names : List Entry) → default_among (arms_in arms.now) names ≡ acts_at result arms.now names End }
    ensures within { IfSome result (λ i. i < length arms.now) }
{
    for i in 0..arms.len() {
        if let TypedLabel::Default = &arms[i].label {
            return Some(i);
        }
    }
    None
}

/// The number of the arm that a case takes: of the first arm with an item that agrees with the subject, else of the default,
/// wherever it stands (IEEE Std 1364-2005, 9.5). It takes no memory.
pub fn taken_arm(arms: &[TypedArm], subject: u128, names: &[Entry], now: &Moment) -> Option<usize>
    requires kept { are_kept_arms arms.now names.now now.now.shape.sites ≡ true }
    requires fits { fit now.now.shape names.now ≡ true }
    ensures taken { taken_in (is_met_in names.now now.now.view subject) (arms_in arms.now) names.now (default_among (arms_in arms.now) names.now) ≡ acts_at result arms.now names.now End }
    ensures within { IfSome result (λ i. i < length arms.now) }
{
    match met_arm(arms, subject, names, now) {
        Some(i) => Some(i),
        None => default_arm(arms),
    }
}
