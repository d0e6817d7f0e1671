//! Fragments by their names (GraphQL, October 2021, section 2.8).
ghost use Rattle.std.specs.Prelude.{◌≡◌, find, flat_map, map};
ghost use Rattle.std.specs.Option.{option_map};
ghost use Rattle.std.specs.Str.{bytes_eq};
ghost use Rattle.gq_tree.specs.Views.{def_view};
ghost use Rattle.gq_tree.specs.Readings.{in_document, parsed_view, readings_view};
ghost use Rattle.gq_document.specs.Definitions.{fragments_of, fragment_in};
ghost use Rattle.gq_reshape.specs.Helping.Fragments.{fragment_found};

use gq_tree::{Definition, Fragment, Parsed};
use std::sync::Arc;

/// A fragment, and the number of its document.
#[derive(Clone, Copy)]
pub(crate) struct FragmentIn<'a> {
    pub(crate) file: usize,
    pub(crate) definition: &'a Fragment,
}

/// The definition, if it is a fragment of that name.
fn fragment_of<'a>(file: usize, definition: &'a Definition, name: &str) -> Option<FragmentIn<'a>>
    ensures { option_map fragment_found result ≡ find (λ f. bytes_eq f.name.text name.now) (fragment_in file (def_view definition.now)) }
{
    match definition {
        Definition::Fragment(definition) => {
            if definition.name.text.as_str() == name {
                Some(FragmentIn { file, definition })
            } else {
                None
            }
        }
        Definition::Operation(_) => None,
        Definition::TypeSystem(_) => None,
    }
}

/// The first fragment of that name among these definitions of a document.
fn fragment_among<'a>(
    file: usize,
    definitions: &'a [Definition],
    name: &str,
) -> Option<FragmentIn<'a>>
    ensures { option_map fragment_found result ≡ find (λ f. bytes_eq f.name.text name.now) (flat_map (fragment_in file) (map def_view definitions.now)) }
{
    for definition in definitions {
        if let Some(found) = fragment_of(file, definition, name) {
            return Some(found);
        }
    }
    None
}

/// That of a document as it is read.
fn fragment_read<'a>(file: usize, reading: &'a Parsed, name: &str) -> Option<FragmentIn<'a>>
    ensures { option_map fragment_found result ≡ find (λ f. bytes_eq f.name.text name.now) (in_document fragment_in file (parsed_view reading.now)) }
{
    match reading {
        Parsed::Tree(document) => fragment_among(file, &document.definitions, name),
        Parsed::Syntax { .. } => None,
        Parsed::Limit { .. } => None,
    }
}

/// The first fragment of that name in the documents.
pub(crate) fn fragment_called<'a>(readings: &'a [Arc<Parsed>], name: &str) -> Option<FragmentIn<'a>>
    ensures { option_map fragment_found result ≡ find (λ f. bytes_eq f.name.text name.now) (fragments_of (readings_view readings.now)) }
{
    for (file, reading) in readings.iter().enumerate() {
        if let Some(found) = fragment_read(file, reading, name) {
            return Some(found);
        }
    }
    None
}
