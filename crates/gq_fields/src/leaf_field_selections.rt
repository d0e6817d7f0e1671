//! Selections below leaves, and composite fields without selections (GraphQL, October 2021, section 5.3.3).
ghost use Rattle.std.specs.Prelude.{◌≡◌, ◌++◌, OnOk, Some, is_some};
ghost use Rattle.gq_tree.specs.Views.{name_of, braces_of};
ghost use Rattle.gq_types.specs.Look.{types_view};
ghost use Rattle.gq_document.specs.Views.{field_view, selected_field_view};
ghost use Rattle.gq_fields.specs.Helping.LeafFieldSelectionsPlaces.{differ, wrong_at_kind, wrong_of_field};

use gq_document::SelectedField;
use gq_fault::{Code, Fault, add_fault_at};
use gq_text::NoMemory;
use gq_tree::{Name, SelectionSet};
use gq_types::Types;

fn has_set(set: &Option<Box<SelectionSet>>) -> bool
    ensures { result ≡ is_some (braces_of set.now) }
{
    match set {
        Some(_) => true,
        None => false,
    }
}

/// Adds a fault at the name of a field of that definition, if it has a set where its type is a leaf, or none where its type
/// is composite.
fn add_wrong_selections_of(
    types: &Types,
    file: usize,
    name: &Name,
    has_set: bool,
    definition: SelectedField<'_>,
    faults: &mut Vec<Fault>,
) -> Result<(), NoMemory>
    ensures { OnOk result (faults.new.items ≡ faults.old.items ++ wrong_of_field (types_view types.now) file (name_of name.now) has_set (Some (field_view definition.entry))) }
{
    match types.kind(definition.base_name()) {
        Some(kind) => {
            if has_set != kind.is_composite() {
                add_fault_at(file, Code::WrongSelections, name, faults)?;
            }
            Ok(())
        }
        None => Ok(()),
    }
}

/// Adds a fault at the name of a field that has selections below it where its type is a leaf, or none where its type is
/// composite. `found` is its definition.
pub(crate) fn add_wrong_selections(
    types: &Types,
    file: usize,
    found: Option<SelectedField<'_>>,
    name: &Name,
    set: &Option<Box<SelectionSet>>,
    faults: &mut Vec<Fault>,
) -> Result<(), NoMemory>
    ensures { OnOk result (faults.new.items ≡ faults.old.items ++ wrong_of_field (types_view types.now) file (name_of name.now) (is_some (braces_of set.now)) (selected_field_view found.entry)) }
{
    match found {
        Some(definition) => {
            add_wrong_selections_of(types, file, name, has_set(set), definition, faults)
        }
        None => Ok(()),
    }
}
