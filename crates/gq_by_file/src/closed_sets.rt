//! Laws of the faults that rest on names and on spreads.
ghost use Rattle.gq_by_file.specs.Closed.Laws.{ClosedSetsStay, FaultsAreOfClosedSets, FaultsOfClosedSetsAreFaults, FaultsStayInLargerSets, OtherFilesAreUnseen};
ghost use Rattle.gq_by_file.specs.Closed.Laws.{ClosedSetsMove, ClosedSetsMoveBack, NumbersOfSetsAreUnseen};
ghost use Rattle.gq_by_file.specs.Closed.Laws.{FaultsAcrossAreByNamesOrSpreads, FaultsByNamesAreByRules};

/// What rests on several files rests on names alone, or on what spreads lead to.
pub fn faults_across_are_by_names_or_spreads()
    ensures { FaultsAcrossAreByNamesOrSpreads }
{}

/// The faults that rest on names alone are those of four rules.
pub fn faults_by_names_are_by_rules()
    ensures { FaultsByNamesAreByRules }
{}

/// What rests on spreads and is told of a closed set of files stands in it, and is told of the project.
pub fn faults_of_closed_sets_are_faults()
    ensures { FaultsOfClosedSetsAreFaults }
{}

/// What rests on spreads and is told of a project is told of each closed set with one certain file.
pub fn faults_are_of_closed_sets()
    ensures { FaultsAreOfClosedSets }
{}

/// What rests on spreads and is told of a closed set is told of each larger set.
pub fn faults_stay_in_larger_sets()
    ensures { FaultsStayInLargerSets }
{}

/// Another file in the place of one outside a set of files is not seen in it.
pub fn other_files_are_unseen()
    ensures { OtherFilesAreUnseen }
{}

/// A closed set stays so where a file outside is replaced, if no fragment of the new one is spread in the set.
pub fn closed_sets_stay()
    ensures { ClosedSetsStay }
{}

/// A closed set stays so where a file is put in, if no fragment of the new one is spread in the set.
pub fn closed_sets_move()
    ensures { ClosedSetsMove }
{}

/// So it does where that file is taken out again.
pub fn closed_sets_move_back()
    ensures { ClosedSetsMoveBack }
{}

/// Whether something that rests on spreads is told of a set of files does not depend on the numbers that they have.
pub fn numbers_of_sets_are_unseen()
    ensures { NumbersOfSetsAreUnseen }
{}
