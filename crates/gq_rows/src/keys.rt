//! The keys of URIs.
use crate::no_answer::NoAnswer;
use crate::row::Row;
use crate::telling::Telling;
use gq_rpc::key_of;
use std::alloc::Global;

/// Tells the key of a URI, or `none`.
pub fn tell_key(alloc: Global, row: &Row<'_>, telling: &mut Telling) -> Result<(), NoAnswer> {
    let uri = row.asked(alloc)?;
    match key_of(alloc, uri.as_str())? {
        Some(key) => telling.put(key.as_str()),
        None => telling.put("none"),
    }
    Ok(())
}
