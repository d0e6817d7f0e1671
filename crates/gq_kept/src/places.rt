//! Where documents stand, or would stand, in the order of their keys.
ghost use Rattle.std.specs.Prelude.{IfOk, IfErr};
ghost use Rattle.gq_project.specs.Documents.{IsInOrder};
ghost use Rattle.gq_project.specs.Helping.Places.{IsPlaceOf, IsGapFor};

use gq_project::Doc;

/// Where the document of that key stands, or where it would go.
pub(crate) fn place_or_gap(documents: &[Doc], key: &str) -> Result<usize, usize>
    requires { IsInOrder documents.now }
    ensures found { IfOk result (IsPlaceOf (λ doc. doc.key) key.now documents.now) }
    ensures absent { IfErr result (IsGapFor (λ doc. doc.key) key.now documents.now) }
{
    documents.binary_search_by(|doc| doc.key.as_str().cmp(&key))
}

/// How many of the others have keys that none of the documents has, and would stand at that place among them or before it.
pub(crate) fn come_before(documents: &[Doc], others: &[Doc], last: usize) -> usize
    requires { IsInOrder documents.now }
{
    let mut count: usize = 0;
    for other in others {
        if let Err(at) = place_or_gap(documents, other.key.as_str()) {
            if at <= last {
                count = count.saturating_add(1);
            }
        }
    }
    count
}
