//! What is told of a fragment (GraphQL, October 2021, section 2.8).
ghost use Rattle.std.specs.Prelude.{◌≡◌, IfOk};
ghost use Rattle.std.specs.Option.{option_map};
ghost use Rattle.gq_index.specs.Indexed.{IsIndexOf};
ghost use Rattle.gq_index.specs.Views.{definitions_view};
ghost use Rattle.gq_query.specs.Helping.Own.{all_definitions};
ghost use Rattle.gq_query.specs.Words.{fragment_words, fragment_told};

use crate::own::own_definitions;
use crate::words::fragment_words;
use gq_index::{Executable, Index};
use gq_text::{NoMemory, OwnedText};
use gq_tree::{Definition, Fragment, Parsed};
use std::alloc::Global;
use std::sync::Arc;

/// The words of the first definition of the fragment of that name, which stands in the document that the index names.
pub(crate) fn fragment_told(
    alloc: Global,
    readings: &[Arc<Parsed>],
    index: &Index,
    name: &str,
) -> Result<Option<OwnedText>, NoMemory>
    ensures { IfOk result (λ told. IsIndexOf (all_definitions readings.now) index.now → told ≡ fragment_told (all_definitions readings.now) name.now) }
{
    match index.definitions(name).first() {
        Some(place) => {
            let own = own_definitions(alloc, readings, place.file)?;
            told_among(alloc, &own, name)
        }
        None => Ok(None),
    }
}

/// The words of the first fragment of that name among these definitions.
fn told_among(
    alloc: Global,
    definitions: &[Executable<'_>],
    name: &str,
) -> Result<Option<OwnedText>, NoMemory>
    ensures { IfOk result (λ told. told ≡ fragment_told (definitions_view definitions.now) name.now) }
{
    match fragment_named(definitions, name) {
        Some(fragment) => {
            let on = fragment.on.text.as_str();
            Ok(Some(fragment_words(alloc, fragment.name.text.as_str(), on)?))
        }
        None => Ok(None),
    }
}

/// The first fragment of that name.
fn fragment_named<'a>(definitions: &[Executable<'a>], name: &str) -> Option<&'a Fragment>
    ensures { option_map (λ f. fragment_words f.now.name.text f.now.on.text) result ≡ fragment_told (definitions_view definitions.now) name.now }
{
    for one in definitions {
        if let Definition::Fragment(fragment) = one.definition {
            if name == fragment.name.text.as_str() {
                return Some(fragment);
            }
        }
    }
    None
}
