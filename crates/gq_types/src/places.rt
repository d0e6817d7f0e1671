//! What stands at places in the entries of a type system.
ghost use Rattle.std.specs.Prelude.{◌≡◌, map};
ghost use Rattle.std.specs.Arc.{arc_value};
ghost use Rattle.gq_tree.specs.Views.{input_view, type_system_view};
ghost use Rattle.gq_types.specs.Entries.{entries_view};
ghost use Rattle.gq_types.specs.Joined.{body_in, fields_in_body, inputs_in_body};
ghost use Rattle.gq_types.specs.Look.{field_of, input_of};
ghost use Rattle.gq_types.specs.Helping.Tables.{stands_at};

use crate::entry::Entry;
use crate::entry_parts::fields_of;
use crate::parts::Place;
use gq_tree::{FieldDefinition, InputValueDefinition, TypeBody, TypeSystemDefinition};

/// The field of an object type or interface at that place.
pub(crate) fn field_at(entries: &[Entry], place: Place) -> Option<&FieldDefinition>
    ensures { field_of result ≡ stands_at fields_in_body (entries_view entries.now) place }
{
    let entry = entries.get(place.entry)?;
    fields_of(&entry.definition).get(place.index)
}

/// The field of an input object at that place.
pub(crate) fn input_at(entries: &[Entry], place: Place) -> Option<&InputValueDefinition>
    ensures { input_of result ≡ stands_at inputs_in_body (entries_view entries.now) place }
{
    let entry = entries.get(place.entry)?;
    inputs_in(entry).get(place.index)
}

/// The fields of an input object; none of any other definition.
pub(crate) fn inputs_in(entry: &Entry) -> &[InputValueDefinition]
    ensures { map input_view result.now ≡ inputs_in_body (body_in (type_system_view (arc_value entry.now.definition))) }
{
    match &*entry.definition {
        TypeSystemDefinition::Type(one) => match &one.body {
            TypeBody::InputObject(fields) => fields.as_slice(),
            _ => &[],
        },
        _ => &[],
    }
}
