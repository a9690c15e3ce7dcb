ghost use Rattle.std.specs.Prelude.{◌≡◌, ℕ, List};
ghost use Rattle.lz_base.specs.WordValue.{WordValue};
ghost use Rattle.t_choices.specs.declared.choice_texts.Choices.{Choices};
ghost use Rattle.v_meaning.specs.Designs.{Design};
ghost use Rattle.v_run.specs.Runs.{RunsBy, RunsInAnyOrder, RunsInTextOrder};

/// Law: over one stimulus and under the same choices a design shows at most one trace in text order.
pub fn one_trace()
    ensures { (d : Design) (choices : Choices) (stimulus one other : List (List WordValue)) → RunsInTextOrder d choices stimulus one → RunsInTextOrder d choices stimulus other → one ≡ other }
{}

/// Law: the trace that a design shows in any order of the steps is what all schedules show that are complete in their cycles,
/// and what it shows in text order (IEEE Std 1364-2005, 11.4.2).
pub fn every_schedule_shows_it()
    ensures by { (d : Design) (choices : Choices) (schedules : List (List ℕ)) (stimulus one other : List (List WordValue)) → RunsInAnyOrder d choices stimulus one → RunsBy schedules d choices stimulus other → other ≡ one }
    ensures text { (d : Design) (choices : Choices) (stimulus one other : List (List WordValue)) → RunsInAnyOrder d choices stimulus one → RunsInTextOrder d choices stimulus other → other ≡ one }
{}
