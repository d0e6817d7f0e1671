//! Documents without a tree.
ghost use Rattle.std.specs.Prelude.{◌≡◌, ◌++◌, OnOk};
ghost use Rattle.gq_tree.specs.Readings.{parsed_view};
ghost use Rattle.gq_document.specs.ReadBy.{read_by};
ghost use Rattle.gq_rules.specs.Helping.Places.{unread_at, each_from};

use gq_document::AsParsed;
use gq_fault::{Code, Fault};
use gq_text::NoMemory;
use gq_tree::Parsed;

/// The fault of a document whose text has no tree: the place of the fault, which marks no text.
fn add_unread_at(file: usize, reading: &Parsed, faults: &mut Vec<Fault>) -> Result<(), NoMemory>
    ensures { OnOk result (faults.new.items ≡ faults.old.items ++ unread_at file (parsed_view reading.now)) }
{
    let (code, place) = match reading {
        Parsed::Tree(_) => return Ok(()),
        Parsed::Syntax { place } => (Code::Syntax, *place),
        Parsed::Limit { place } => (Code::OverLimit, *place),
    };
    faults.push(Fault {
        file,
        start: place,
        code,
        end: place,
    })?;
    Ok(())
}

/// The faults of the documents that have no tree (section 2.2).
pub fn add_unread<R: AsParsed>(readings: &[R], faults: &mut Vec<Fault>) -> Result<(), NoMemory>
    ensures { OnOk result (faults.new.items ≡ faults.old.items ++ each_from unread_at 0 (read_by R.as_parsed readings.now)) }
{
    for file in 0..readings.len() {
        add_unread_at(file, readings[file].as_parsed(), faults)?;
    }
    Ok(())
}
