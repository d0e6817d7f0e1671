//! Documents of tests.
use gq_project::Doc;
use gq_text::{NoMemory, OwnedText};
use std::alloc::Global;

/// The document of that key, which is its URI too.
pub(crate) fn document(
    alloc: Global,
    key: &str,
    version: Option<i64>,
    text: &str,
) -> Result<Doc, NoMemory> {
    Ok(Doc {
        key: OwnedText::from_str(alloc, key)?,
        uri: OwnedText::from_str(alloc, key)?,
        version,
        text: OwnedText::from_str(alloc, text)?,
    })
}

/// The same of a file that no client has open.
pub(crate) fn file(alloc: Global, key: &str, text: &str) -> Result<Doc, NoMemory> {
    document(alloc, key, None, text)
}
