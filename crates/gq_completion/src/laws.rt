//! What the set that an offset stands in means.
ghost use Rattle.gq_completion.specs.Laws.{InnermostEnclosesAlone};

/// The braces of the innermost set enclose the offset, and those of no set in it do.
pub fn innermost_encloses_alone()
    ensures { InnermostEnclosesAlone }
{}
