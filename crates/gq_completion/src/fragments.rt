//! The names of the fragments of a project (GraphQL, October 2021, section 2.8).
ghost use Rattle.std.specs.Prelude.{◌≡◌, ◌↔◌, ◌++◌, ℕ, List, IfOk, OnOk, Contains, flat_map};
ghost use Rattle.gq_tree.specs.Readings.{parsed_view, readings_view};
ghost use Rattle.gq_tree.specs.Views.{def_view, document_view};
ghost use Rattle.gq_parse.specs.Parsed.{AreParsed};
ghost use Rattle.gq_project.specs.declared.document.Doc.{Doc};
ghost use Rattle.gq_completion.specs.Completions.{IsFragmentName};
ghost use Rattle.gq_completion.specs.Helping.Fragments.{fragment_name, fragments_in};

use gq_parse::laws::one_tree;
use gq_text::{NoMemory, OwnedText};
use gq_tree::{Definition, Document, Parsed};
use std::alloc::Global;
use std::sync::Arc;

fn put_name(
    alloc: Global,
    definition: &Definition,
    names: &mut Vec<OwnedText>,
) -> Result<(), NoMemory>
    ensures { OnOk result (names.new.items ≡ names.old.items ++ fragment_name (def_view definition.now)) }
{
    match definition {
        Definition::Fragment(fragment) => {
            names.push(OwnedText::from_str(alloc, fragment.name.text.as_str())?)?;
            Ok(())
        }
        Definition::Operation(_) => Ok(()),
        Definition::TypeSystem(_) => Ok(()),
    }
}

fn put_names(alloc: Global, document: &Document, names: &mut Vec<OwnedText>) -> Result<(), NoMemory>
    ensures { OnOk result (names.new.items ≡ names.old.items ++ flat_map fragment_name (document_view document.now)) }
{
    for definition in &document.definitions {
        put_name(alloc, definition, names)?;
    }
    Ok(())
}

/// Puts the names of the fragments of a text that reads so behind the others; one without a tree has none.
fn put_names_in(alloc: Global, reading: &Parsed, names: &mut Vec<OwnedText>) -> Result<(), NoMemory>
    ensures { OnOk result (names.new.items ≡ names.old.items ++ fragments_in (parsed_view reading.now)) }
{
    match reading {
        Parsed::Tree(document) => put_names(alloc, document, names),
        Parsed::Syntax { .. } => Ok(()),
        Parsed::Limit { .. } => Ok(()),
    }
}

/// The names of the fragments of documents that read so.
pub(crate) fn fragment_names(
    alloc: Global,
    readings: &[Arc<Parsed>],
) -> Result<Vec<OwnedText>, NoMemory>
    ensures { IfOk result (λ names. (documents : List Doc) → AreParsed documents (readings_view readings.now) →
        (label : List ℕ) → Contains names.items label ↔ IsFragmentName documents label) }
{
    one_tree();
    let mut names = Vec::new(alloc);
    for reading in readings {
        put_names_in(alloc, reading, &mut names)?;
    }
    Ok(names)
}
