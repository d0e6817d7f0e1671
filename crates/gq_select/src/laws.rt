//! What a range means, said without a walk over the selections.
ghost use Rattle.gq_select.specs.Choice.{LastIsMeant, NothingIsMeant, RunsAreRuns, FirstRunIsFound, NoRunIsFound};

/// The selection that a range means is of the kind, holds the range, and none of the kind that holds it begins later; none
/// is meant exactly where none of the kind holds the range.
pub fn what_is_meant_begins_last()
    ensures one { LastIsMeant }
    ensures none { NothingIsMeant }
{}

/// A set's selections are those before the run, the run, and those behind it: the run's first one begins where the place does,
/// as none before it, and its last one ends where the place does, as none before that in the run. There is a run exactly
/// where they are such.
pub fn runs_go_from_place_to_place()
    ensures in_set { RunsAreRuns }
    ensures in_sets { FirstRunIsFound }
    ensures none { NoRunIsFound }
{}
