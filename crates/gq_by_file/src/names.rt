//! The names in each file: of the operations and fragments that it defines, and of the fragments that are spread in it.
ghost use Rattle.std.specs.Prelude.{◌≡◌, ◌++◌, ◌↔◌, true, IfOk, OnOk, flat_map, map};
ghost use Rattle.std.specs.Option.{option_map};
ghost use Rattle.gq_tree.specs.Names.{names_at, spread_names};
ghost use Rattle.gq_tree.specs.Readings.{parsed_view};
ghost use Rattle.gq_tree.specs.Views.{def_view, name_of, sels_view};
ghost use Rattle.gq_document.specs.ReadBy.{read_by};
ghost use Rattle.gq_by_file.specs.Closed.Laws.{spreads_in};
ghost use Rattle.gq_by_file.specs.Names.{AreNames, AreNamesIn, fragment_names_in, operation_names_in, text_of_name, texts_of};
ghost use Rattle.gq_by_file.specs.Helping.SameNames.{AreSameNames};

use gq_document::AsParsed;
use gq_text::{NoMemory, SmallText};
use gq_tree::{Definition, Name, Parsed, Selection, spread_names};
use std::alloc::Global;

/// The names of the operations that a file defines, of the fragments that are spread in it, and of those that it defines, each
/// as often as it stands there.
#[derive(Drop)]
pub struct FileNames {
    /// Those of operations; one without a name has none.
    pub operations: Vec<Option<SmallText>>,
    pub spreads: Vec<SmallText>,
    pub fragments: Vec<SmallText>,
}

impl FileNames {
    /// The names in a document as it is read; one without a tree has none.
    pub fn of(alloc: Global, reading: &Parsed) -> Result<FileNames, NoMemory>
        ensures { IfOk result (AreNamesIn (parsed_view reading.now)) }
    {
        let mut names = FileNames {
            operations: Vec::new(alloc),
            spreads: Vec::new(alloc),
            fragments: Vec::new(alloc),
        };
        match reading {
            Parsed::Tree(document) => names.put_all(alloc, &document.definitions)?,
            Parsed::Syntax { .. } => {}
            Parsed::Limit { .. } => {}
        }
        Ok(names)
    }

    /// Whether both are the same names, in the same order.
    pub(crate) fn are_same(&self, other: &FileNames) -> bool
        ensures { result ≡ true ↔ AreSameNames self.now other.now }
    {
        self.operations == other.operations
            && self.spreads == other.spreads
            && self.fragments == other.fragments
    }

    fn put_all(&mut self, alloc: Global, definitions: &[Definition]) -> Result<(), NoMemory>
        ensures operations { OnOk result (self.new.operations.items ≡ self.old.operations.items ++ map text_of_name (flat_map operation_names_in (map def_view definitions.now))) }
        ensures spreads { OnOk result (self.new.spreads.items ≡ self.old.spreads.items ++ texts_of (flat_map spreads_in (map def_view definitions.now))) }
        ensures fragments { OnOk result (self.new.fragments.items ≡ self.old.fragments.items ++ texts_of (flat_map fragment_names_in (map def_view definitions.now))) }
    {
        for definition in definitions {
            self.put(alloc, definition)?;
        }
        Ok(())
    }

    fn put(&mut self, alloc: Global, definition: &Definition) -> Result<(), NoMemory>
        ensures operations { OnOk result (self.new.operations.items ≡ self.old.operations.items ++ map text_of_name (operation_names_in (def_view definition.now))) }
        ensures spreads { OnOk result (self.new.spreads.items ≡ self.old.spreads.items ++ texts_of (spreads_in (def_view definition.now))) }
        ensures fragments { OnOk result (self.new.fragments.items ≡ self.old.fragments.items ++ texts_of (fragment_names_in (def_view definition.now))) }
    {
        match definition {
            Definition::Operation(operation) => {
                let name = text_or_none(alloc, &operation.name)?;
                self.operations.push(name)?;
                put_spreads(alloc, &operation.set.items, &mut self.spreads)
            }
            Definition::Fragment(fragment) => {
                let name = SmallText::from_str(alloc, fragment.name.text.as_str())?;
                self.fragments.push(name)?;
                put_spreads(alloc, &fragment.set.items, &mut self.spreads)
            }
            Definition::TypeSystem(_) => Ok(()),
        }
    }
}

/// The text of a name, where there is one.
fn text_or_none(alloc: Global, name: &Option<Name>) -> Result<Option<SmallText>, NoMemory>
    ensures { IfOk result (λ text. text ≡ text_of_name (option_map name_of name.now)) }
{
    match name {
        Some(name) => Ok(Some(SmallText::from_str(alloc, name.text.as_str())?)),
        None => Ok(None),
    }
}

/// Puts the names of the spreads that stand in the selections behind the others.
fn put_spreads(
    alloc: Global,
    selections: &[Selection],
    texts: &mut Vec<SmallText>,
) -> Result<(), NoMemory>
    ensures { OnOk result (texts.new.items ≡ texts.old.items ++ texts_of (spread_names (sels_view selections.now))) }
{
    put_texts(alloc, &spread_names(alloc, selections)?, texts)
}

/// Puts these names behind the others.
fn put_texts(alloc: Global, names: &[&Name], texts: &mut Vec<SmallText>) -> Result<(), NoMemory>
    ensures { OnOk result (texts.new.items ≡ texts.old.items ++ texts_of (names_at names.now)) }
{
    for name in names {
        texts.push(SmallText::from_str(alloc, name.text.as_str())?)?;
    }
    Ok(())
}

/// The names in each of the documents.
pub fn names_of_all<R: AsParsed>(alloc: Global, readings: &[R]) -> Result<Vec<FileNames>, NoMemory>
    ensures { IfOk result (λ all. AreNames (read_by R.as_parsed readings.now) all.items) }
{
    let mut all = Vec::with_capacity(alloc, readings.len())?;
    for reading in readings {
        all.push(FileNames::of(alloc, reading.as_parsed())?)?;
    }
    Ok(all)
}
