//! Laws of the faults that rest on one file.
ghost use Rattle.gq_by_file.specs.OneFile.Laws.{FaultsAreToldByFiles, LocalFaultsAreOfTheirFile, LocalFaultsOfProjectsStay, LocalFaultsStay};
ghost use Rattle.gq_by_file.specs.OneFile.Laws.{NumbersOfEntriesAreUnseen, NumbersOfFilesAreUnseen, UnreadAndMixedAreOfTheirFile};

/// The faults of a project that rest on one file are those of each file alone, over the same type system.
pub fn local_faults_are_of_their_file()
    ensures { LocalFaultsAreOfTheirFile }
{}

/// What is wrong in a file alone does not depend on its number among the files.
pub fn numbers_of_files_are_unseen()
    ensures { NumbersOfFilesAreUnseen }
{}

/// No rule sees in which files the type system is defined.
pub fn numbers_of_entries_are_unseen()
    ensures { NumbersOfEntriesAreUnseen }
{}

/// A file that does not change keeps what rests on it, where the type system has the same definitions.
pub fn local_faults_stay()
    ensures { LocalFaultsStay }
{}

/// The same of two projects as they are read.
pub fn local_faults_of_projects_stay()
    ensures { LocalFaultsOfProjectsStay }
{}

/// That a file has no tree, or is mixed, does not depend on the files beside it.
pub fn unread_and_mixed_are_of_their_file()
    ensures { UnreadAndMixedAreOfTheirFile }
{}

/// What is told of a project is what is told first or, where nothing is, what each file tells alone and what rests on
/// several files.
pub fn faults_are_told_by_files()
    ensures { FaultsAreToldByFiles }
{}
