//! What the definition of a run's turns means.
ghost use Rattle.gq_crew.specs.Output.{TurnsExist};

/// For all that a run may take there are turns, where readings may give anything.
pub fn turns_exist()
    ensures { TurnsExist }
{}
