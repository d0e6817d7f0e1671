//! Type extensions: what is extended must be defined, and must be of the extension's kind.
ghost use Rattle.std.specs.Prelude.{◌≡◌, ◌++◌, OnOk};
ghost use Rattle.std.specs.Arc.{arc_value};
ghost use Rattle.gq_tree.specs.Views.{type_system_view};
ghost use Rattle.gq_type_system.specs.Helping.BadExtensionPlaces.{bad_extension};
ghost use Rattle.gq_types.specs.Look.{types_view};

use gq_fault::{Code, Fault};
use gq_text::NoMemory;
use gq_tree::TypeSystemDefinition;
use gq_types::{Entry, TypeKind, Types};

/// The fault of the entry, if it extends a type where no type of its kind has that name (section 3.4.3).
pub(crate) fn add_bad_extension(
    types: &Types,
    entry: &Entry,
    faults: &mut Vec<Fault>,
) -> Result<(), NoMemory>
    ensures { OnOk result (faults.new.items ≡ faults.old.items ++ bad_extension (types_view types.now) entry.now.file (type_system_view (arc_value entry.now.definition))) }
{
    let TypeSystemDefinition::Type(one) = &*entry.definition else {
        return Ok(());
    };
    if one.extends && types.kind(one.name.text.as_str()) != Some(TypeKind::of(&one.body)) {
        faults.push(Fault {
            file: entry.file,
            start: one.name.span.start,
            code: Code::BadExtension,
            end: one.name.span.end,
        })?;
    }
    Ok(())
}
