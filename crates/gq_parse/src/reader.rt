//! The trees of the documents of a project.
ghost use Rattle.gq_parse.specs.Parsed.{IsParsed, AreParsed};
ghost use Rattle.std.specs.Prelude.{◌≤◌, IfOk, length};
ghost use Rattle.std.specs.Thread.{IsSync};
ghost use Rattle.gq_tree.specs.Readings.{parsed_view, readings_view, unshared_view};

use crate::{Fault, parse};
use gq_project::Doc;
use gq_text::NoMemory;
use gq_tree::{Parsed, share_all};
use std::alloc::Global;
use std::sync::Arc;
use std::thread::{Threads, join};

/// The readings of these documents, one for each, in their order.
pub fn read(alloc: Global, documents: &[Doc]) -> Result<Vec<Parsed>, NoMemory>
    ensures { IfOk result (λ readings. AreParsed documents.now (unshared_view readings.items)) }
{
    let mut readings = Vec::new(alloc);
    for document in documents {
        readings.push(read_text(alloc, document.text.as_str())?)?;
    }
    Ok(readings)
}

/// The same, where each reading may have several owners.
pub fn read_shared(alloc: Global, documents: &[Doc]) -> Result<Vec<Arc<Parsed>>, NoMemory>
    ensures { IfOk result (λ readings. AreParsed documents.now (readings_view readings.items)) }
{
    let readings = read(alloc, documents)?;
    let shared = share_all(alloc, readings)?;
    Ok(shared)
}

/// How often the documents are halved for threads.
const HALVINGS: usize = 2;

/// The same, read in four threads, each of which reads documents that stand side by side.
pub fn read_by_threads<R: Threads + Sync>(
    rt: &R,
    alloc: Global,
    documents: &[Doc],
) -> Result<Vec<Parsed>, NoMemory>
    ensures { IfOk result (λ readings. AreParsed documents.now (unshared_view readings.items)) }
{
    read_halves(rt, alloc, documents, HALVINGS)
}

/// How many bytes the texts of the documents have.
fn bytes_of(documents: &[Doc]) -> usize {
    let mut bytes: usize = 0;
    for document in documents {
        bytes = bytes.saturating_add(document.text.as_str().len());
    }
    bytes
}

/// Where to cut the documents in two parts with about as many bytes.
fn middle_of(documents: &[Doc]) -> usize
    ensures { result ≤ length documents.now }
{
    let half = bytes_of(documents) / 2;
    let mut bytes: usize = 0;
    for index in 0..documents.len() {
        bytes = bytes.saturating_add(documents[index].text.as_str().len());
        if bytes > half {
            return index;
        }
    }
    documents.len()
}

/// The same, halved that often.
#[cycle(halves)]
fn read_halves<R: Threads + Sync>(
    rt: &R,
    alloc: Global,
    documents: &[Doc],
    halvings: usize,
) -> Result<Vec<Parsed>, NoMemory>
    ensures { IfOk result (λ readings. AreParsed documents.now (unshared_view readings.items)) }
{
    if halvings == 0 || documents.len() < 2 {
        return read(alloc, documents);
    }
    let left = halvings - 1;
    let (front, back) = documents.split_at(middle_of(documents));
    let read_front = || -> Result<Vec<Parsed>, NoMemory>
        requires { IsSync R.row }
        ensures { IfOk result (λ readings. AreParsed front.entry.now (unshared_view readings.items)) }
    { read_halves(rt, alloc, front, left) };
    let read_back = || -> Result<Vec<Parsed>, NoMemory>
        requires { IsSync R.row }
        ensures { IfOk result (λ readings. AreParsed back.entry.now (unshared_view readings.items)) }
    { read_halves(rt, alloc, back, left) };
    let (front, back) = join(rt, read_front, read_back);
    let mut readings = front?;
    readings.append(&mut back?)?;
    Ok(readings)
}

/// The reading of one text.
pub fn read_text(alloc: Global, text: &str) -> Result<Parsed, NoMemory>
    ensures { IfOk result (λ reading. IsParsed text.now (parsed_view reading)) }
{
    match parse(alloc, text) {
        Ok(document) => Ok(Parsed::Tree(document)),
        Err(Fault::Syntax { place }) => Ok(Parsed::Syntax { place }),
        Err(Fault::Limit { place }) => Ok(Parsed::Limit { place }),
        Err(Fault::NoMemory) => Err(NoMemory),
    }
}
