//! Fields that are not defined (GraphQL, October 2021, section 5.3.1).
ghost use Rattle.std.specs.Prelude.{◌≡◌, ◌++◌, OnOk};
ghost use Rattle.gq_tree.specs.Views.{name_of};
ghost use Rattle.gq_types.specs.Look.{types_view, text_of};
ghost use Rattle.gq_document.specs.Selections.{selected_field};
ghost use Rattle.gq_document.specs.Views.{selected_field_view};
ghost use Rattle.gq_fields.specs.Helping.FieldSelectionsPlaces.{unknown_field_on};

use gq_document::SelectedField;
use gq_fault::{Code, Fault, add_fault_at};
use gq_text::NoMemory;
use gq_tree::Name;
use gq_types::Types;

/// Adds a fault at the name of a field that the type of its parent does not have. `found` is the field that the type has of
/// that name.
pub(crate) fn add_unknown_field(
    types: &Types,
    file: usize,
    parent: Option<&str>,
    found: Option<SelectedField<'_>>,
    name: &Name,
    faults: &mut Vec<Fault>,
) -> Result<(), NoMemory>
    requires { selected_field_view found ≡ selected_field (types_view types.now) (text_of parent) name.now.text }
    ensures { OnOk result (faults.new.items ≡ faults.old.items ++ unknown_field_on (types_view types.now) file (text_of parent.entry) (name_of name.now)) }
{
    let Some(type_name) = parent else {
        return Ok(());
    };
    if found.is_none() && types.kind(type_name).is_some() {
        add_fault_at(file, Code::UnknownField, name, faults)?;
    }
    Ok(())
}
