ghost use Rattle.std.specs.Prelude.{◌≡◌, None, IfOk};
ghost use Rattle.v_meaning.specs.Uses as m;
ghost use Rattle.v_meaning.specs.Names.{entry_of};
ghost use Rattle.v_meaning.specs.ProcessRules.{is_any_input, is_clock, is_other, wrong_clock};
ghost use Rattle.v_scope.specs.Firsts.{least_from};
ghost use Rattle.v_uses.specs.Seen.{seen_of};
ghost use Rattle.v_uses.specs.Gathered.{uses_in};
ghost use Rattle.v_rules.specs.Groups.{idents_in, is_wrong_in};

use crate::idents::{assign_reads, assign_targets, event_names, process_reads, targets, writes};
use crate::places::first_among;
use lz_base::{Name, OutOfMemory};
use std::alloc::Global;
use v_meaning::Kind;
use v_names::Names;
use v_syntax::Ident;
use v_uses::Uses;

// Whether a name of this kind is an input.
fn is_any_input(kind: Kind) -> bool
    ensures { result ≡ is_any_input kind }
{
    matches!(kind, Kind::Clock | Kind::Input(_))
}

// Whether a name is not the first one of these.
fn is_other(events: &[&Ident], name: &Name) -> bool
    ensures { result ≡ is_other (idents_in events.now) name.now }
{
    match events.split_first() {
        Some((first, _)) => first.name != *name,
        None => false,
    }
}

// Whether a name, which stands in one of these events, is no input of width 1 or not that of the first event.
fn is_wrong_event(names: &Names, events: &[&Ident], name: &Name) -> bool
    ensures { result ≡ is_wrong_in names.now (idents_in events.now) name.now }
{
    let known = names.known(name);
    !(is_any_input(known.kind) && known.width == 1) || is_other(events, name)
}

// Whether a name is the clock.
fn is_clock(names: &Names, name: &Name) -> bool
    ensures { result ≡ is_clock (entry_of names.now name.now).kind }
{
    matches!(names.known(name).kind, Kind::Clock)
}

// The least place of an event that names no input of width 1, or another name than the first event, or of the clock's name
// in an expression or target.
pub(crate) fn first_wrong_clock(
    alloc: Global,
    names: &Names,
    uses: &Uses<'_>,
) -> Result<Option<u64>, OutOfMemory>
    ensures { IfOk result (λ first. (u : m.Uses) → u.names ≡ names.now → uses_in uses.now ≡ seen_of u → first ≡ least_from None (wrong_clock u)) }
{
    let found = event_names(alloc, uses)?;
    let events = found.as_slice();
    let first = first_among(events, None, |ident| {
        is_wrong_event(names, events, &ident.name)
    });
    let is_clock = |ident: &Ident| is_clock(names, &ident.name);
    let first = first_among(
        &assign_targets(alloc, uses.assigns.as_slice())?,
        first,
        is_clock,
    );
    let first = first_among(&assign_reads(alloc, uses)?, first, is_clock);
    let targets = targets(alloc, &writes(alloc, uses)?)?;
    let first = first_among(&targets, first, is_clock);
    Ok(first_among(&process_reads(alloc, uses)?, first, is_clock))
}
