//! Whether the index of a project stays what it is where a document is replaced.
ghost use Rattle.std.specs.Prelude.{◌≡◌, ◌<◌, ◌∷◌, [], true, false, None, if◌then◌else◌, length, map, slice_index_or};
ghost use Rattle.gq_tree.specs.Readings.{definitions_read, parsed_view, shared_view, readings_view};
ghost use Rattle.gq_tree.specs.Views.{def_view};
ghost use Rattle.gq_kept.specs.Helping.Unindexed.{AddNothing};

use gq_index::Index;
use gq_tree::{Definition, Parsed};
use std::mem;
use std::sync::Arc;

/// Whether it is an operation or a fragment.
fn is_executable(definition: &Definition) -> bool
    ensures { result ≡ false → AddNothing (def_view definition.now ∷ []) }
{
    match definition {
        Definition::Operation(_) => true,
        Definition::Fragment(_) => true,
        Definition::TypeSystem(_) => false,
    }
}

/// Whether one of these is an operation or a fragment.
fn one_is_executable(definitions: &[Definition]) -> bool
    ensures { result ≡ false → AddNothing (map def_view definitions.now) }
{
    for definition in definitions {
        if is_executable(definition) {
            return true;
        }
    }
    false
}

/// Whether a document that is read so has an operation or a fragment.
fn has_executables(reading: &Parsed) -> bool
    ensures { result ≡ false → AddNothing (definitions_read (parsed_view reading.now)) }
{
    match reading {
        Parsed::Tree(document) => one_is_executable(&document.definitions),
        Parsed::Syntax { .. } => false,
        Parsed::Limit { .. } => false,
    }
}

/// Whether an index stays what it is where the document at that place is read so from then on: neither what it was read as nor what it is
/// read as has an operation or a fragment.
pub(crate) fn stays_indexed(readings: &[Arc<Parsed>], at: usize, after: &Arc<Parsed>) -> bool
    requires { at < length readings.now }
    ensures { result ≡ true → AddNothing (slice_index_or (map definitions_read (readings_view readings.now)) at []) × AddNothing (definitions_read (shared_view after.now)) }
{
    !has_executables(&readings[at]) && !has_executables(after)
}

/// Takes the index away, where it does not stay what it is, and answers it.
pub(crate) fn forget_unless(stays: bool, index: &mut Option<Index>) -> Option<Index>
    ensures { index.new ≡ (if stays then index.old else None) }
{
    if stays {
        None
    } else {
        mem::replace(index, None)
    }
}
