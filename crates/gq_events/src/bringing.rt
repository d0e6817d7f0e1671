//! What is kept of the documents, brought to those that the session has now.
ghost use Rattle.std.specs.Prelude.{◌≡◌, ◌≢◌, ℕ, List, find, OnOk, OnErr};
ghost use Rattle.gq_project.specs.Documents.{has_key};
ghost use Rattle.gq_events.specs.Documents.{docs_of};
ghost use Rattle.gq_events.specs.Keeping.{AgreeBut};

use crate::documents::{SessionDocuments, copy_document};
use gq_kept::Kept;
use gq_text::{NoMemory, OwnedText};
use std::alloc::Global;

/// Brings what is kept to the documents as they are now, which are the same but under these keys. No other text is copied,
/// read or looked at. Where memory is refused, some of that is done.
pub(crate) fn bring(
    alloc: Global,
    documents: &SessionDocuments,
    changed: &[OwnedText],
    kept: &mut Kept,
) -> Result<(), NoMemory>
    requires { AgreeBut changed.now kept.old.documents (docs_of documents.now) }
    ensures ok { OnOk result (kept.new.documents ≡ docs_of documents.now) }
    ensures err { AgreeBut changed.now kept.new.documents (docs_of documents.now) }
{
    for key in changed {
        bring_one(alloc, documents, key.as_str(), kept)?;
    }
    documents.texts_fit();
    let _in_order = kept.project().documents();
    Ok(())
}

/// Replaces, adds or drops the document of that key, so that it is as it is now.
fn bring_one(
    alloc: Global,
    documents: &SessionDocuments,
    key: &str,
    kept: &mut Kept,
) -> Result<(), NoMemory>
    ensures now { OnOk result (find (has_key key.now) kept.new.documents ≡ find (has_key key.now) (docs_of documents.now)) }
    ensures others { (other : List ℕ) → other ≢ key.now → find (has_key other) kept.new.documents ≡ find (has_key other) kept.old.documents }
{
    match documents.get(key) {
        Some(document) => {
            let copy = copy_document(alloc, document)?;
            kept.replace_file(alloc, copy, None)
        }
        None => kept.drop_file(alloc, key),
    }
}
