//! Arguments in the order of their names.
ghost use Rattle.std.specs.Prelude.{◌≡◌, ◌≤◌, Some, length, insert, IfOk, IfSome, IsTrue};
ghost use Rattle.std.specs.Option.{option_map};
ghost use Rattle.gq_table_text.specs.Helping.Places.{place_of};

use gq_table::Entry;
use gq_text::NoMemory;
use std::cmp::Ordering;

/// Where an entry of that name goes: in front of the first one with a later name. Nothing where one of that name comes first.
fn place_of(entries: &[Entry], name: &str) -> Option<usize>
    ensures is { IfSome result (λ at. place_of name.now entries.now ≡ Some at) }
    ensures within { IfSome result (λ at. at ≤ length entries.now) }
{
    for (at, entry) in entries.iter().enumerate() {
        match name.cmp(entry.name.as_str()) {
            Ordering::Less => return Some(at),
            Ordering::Equal => return None,
            Ordering::Greater => {}
        }
    }
    Some(entries.len())
}

/// Puts an entry in its place, and tells whether its name was not there.
pub(crate) fn put(entries: &mut Vec<Entry>, entry: Entry) -> Result<bool, NoMemory>
    ensures { IfOk result (λ is_new. IsTrue is_new → option_map (λ at. insert entries.old.items at entry) (place_of entry.name entries.old.items) ≡ Some entries.new.items) }
{
    let Some(at) = place_of(entries, entry.name.as_str()) else {
        return Ok(false);
    };
    entries.insert(at, entry)?;
    Ok(true)
}
