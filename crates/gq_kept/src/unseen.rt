//! What stays known where the type system becomes another one in fields that are not selected.
ghost use Rattle.std.specs.Prelude.{◌≡◌, ◌&&◌, true, false, List, IfSome, is_some, not};
ghost use Rattle.gq_tree.specs.Readings.{ParsedOf};
ghost use Rattle.gq_types.specs.Entries.{EntryOf};
ghost use Rattle.gq_kept.specs.Helping.ByDocument.{AreByDocument};
ghost use Rattle.gq_kept.specs.Helping.Unseen.{AreMarkedBy};

use crate::by_document::ByDocument;
use gq_laws::places::{other_fields_do_not_matter_to_rules, types_look_alike_but};

/// Whether all is forgotten where the types change: not, where what is known stays but of documents that see it.
pub(crate) fn is_forgotten(changes_types: bool, unseen: bool) -> bool
    ensures { result ≡ (changes_types && not unseen) }
{
    changes_types && !unseen
}

/// Whether the type system is what it was but for fields in which it differs, so that documents are marked. What is known of documents stays then, where none
/// of these fields is selected, and of others faults are forgotten; else all that is known stays.
pub(crate) fn keep_unseen(marks: &Option<Vec<bool>>, found: &mut ByDocument) -> bool
    ensures marked { result ≡ true → (es us : List EntryOf) (rs : List ParsedOf) → IfSome marks.now (λ some. AreMarkedBy es us rs some.items)
        → AreByDocument es rs found.old → AreByDocument us rs found.new }
    ensures is { result ≡ is_some marks.now }
    ensures same { result ≡ false → found.new ≡ found.old }
{
    types_look_alike_but();
    other_fields_do_not_matter_to_rules();
    match marks {
        Some(marks) => {
            found.faults.keep_unmarked(marks);
            true
        }
        None => false,
    }
}
