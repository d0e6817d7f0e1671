//! What is told of a fault: the key of its document, its place, and the rule.
ghost use Rattle.std.specs.Prelude.{◌≡◌, ◌<◌, length, IfOk};
ghost use Rattle.gq_fault.specs.Tells.{found_of, told};

use crate::code::Code;
use crate::fault::Fault;
use gq_project::Doc;
use gq_text::{Items, NoMemory, OwnedText, Span};
use std::alloc::Global;

/// The rule that does not hold at a place of the document of that key.
#[derive(Debug, Drop, PartialEq, Eq)]
pub struct Found {
    pub key: OwnedText,
    pub span: Span,
    pub code: Code,
}

/// The faults, each with the key of its document in place of its number. A fault of no document is passed over: without
/// documents there is no place to tell of.
pub fn found_at(alloc: Global, faults: &[Fault], documents: &[Doc]) -> Result<Vec<Found>, NoMemory>
    ensures { IfOk result (λ found. found.items ≡ told documents.now faults.now) }
{
    let mut all = Items::new(alloc);
    for fault in faults {
        if fault.file < documents.len() {
            all.push(found_one(alloc, fault, documents)?)?;
        }
    }
    Ok(all.into_vec())
}

fn found_one(alloc: Global, fault: &Fault, documents: &[Doc]) -> Result<Found, NoMemory>
    requires { fault.now.file < length documents.now }
    ensures { IfOk result (λ found. found ≡ found_of documents.now fault.now) }
{
    Ok(Found {
        key: documents[fault.file].key.copied(alloc)?,
        span: Span {
            start: fault.start,
            end: fault.end,
        },
        code: fault.code,
    })
}
