//! What the definitions of documents and of changes mean.
ghost use Rattle.gq_project.specs.Laws.{ChangesKeepOrder, PutIsFound, CloseIsGone, DocumentsAreAMap};

/// The keys still ascend after a change.
pub fn changes_keep_order()
    ensures { ChangesKeepOrder }
{}

/// A document that was put is found by its key, and each other key finds what it found before.
pub fn put_is_found()
    ensures { PutIsFound }
{}

/// A key that was closed finds nothing, and each other key finds what it found before.
pub fn close_is_gone()
    ensures { CloseIsGone }
{}

/// Two lists in order in which each key finds the same are the same list.
pub fn documents_are_a_map()
    ensures { DocumentsAreAMap }
{}
