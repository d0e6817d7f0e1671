//! What the lists of selections hold.
ghost use Rattle.std.specs.Prelude.{◌↔◌, Contains, List};
ghost use Rattle.gq_types.specs.Entries.{EntryOf};
ghost use Rattle.gq_document.specs.Definitions.{OperationOf, FragmentOf};
ghost use Rattle.gq_document.specs.Selections.{SelectedOf, operation_selections, fragment_selections, IsOfOperation, IsOfFragment};

/// The list of an operation's selections holds each selection that stands in it.
pub fn operation_selections_are()
    ensures { (es : List EntryOf) (o : OperationOf) (s : SelectedOf) → Contains (operation_selections es o) s ↔ IsOfOperation es o s }
{}

/// The list of a fragment's selections holds each selection that stands in it.
pub fn fragment_selections_are()
    ensures { (es : List EntryOf) (f : FragmentOf) (s : SelectedOf) → Contains (fragment_selections es f) s ↔ IsOfFragment es f s }
{}
