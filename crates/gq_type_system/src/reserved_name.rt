//! Names that are reserved for introspection.
ghost use Rattle.std.specs.Prelude.{◌≡◌, ◌++◌, OnOk, nat_eq, codes};
ghost use Rattle.std.specs.Arc.{arc_value};
ghost use Rattle.std.specs.List.{starts_with};
ghost use Rattle.gq_tree.specs.Views.{name_of, type_system_view};
ghost use Rattle.gq_type_system.specs.Helping.ReservedNamePlaces.{reserved_name, reserved_names_in};
ghost use Rattle.gq_type_system.specs.Uses.{defined_names};
ghost use Rattle.gq_type_system.specs.Helping.UsesViews.{names_view};

use crate::uses::put_defined_names;
use gq_fault::{Code, Fault};
use gq_text::NoMemory;
use gq_tree::Name;
use gq_types::Entry;

/// Whether the text begins with two underscores.
fn is_reserved(text: &str) -> bool
    ensures { result ≡ starts_with nat_eq text.now (codes "__") }
{
    text.starts_with("__")
}

/// The fault of a name that is defined in that document, if it is reserved.
fn add_reserved_name(file: usize, name: &Name, faults: &mut Vec<Fault>) -> Result<(), NoMemory>
    ensures { OnOk result (faults.new.items ≡ faults.old.items ++ reserved_name file (name_of name.now)) }
{
    if is_reserved(name.text.as_str()) {
        faults.push(Fault {
            file,
            start: name.span.start,
            code: Code::ReservedName,
            end: name.span.end,
        })?;
    }
    Ok(())
}

/// The faults of those names that are reserved.
fn add_reserved_names_in(
    file: usize,
    names: &[&Name],
    faults: &mut Vec<Fault>,
) -> Result<(), NoMemory>
    ensures { OnOk result (faults.new.items ≡ faults.old.items ++ reserved_names_in file (names_view names.now)) }
{
    for name in names {
        add_reserved_name(file, name, faults)?;
    }
    Ok(())
}

/// The faults of the names that an entry defines and that begin with two underscores (section 3.3, "Reserved names"). The list of names
/// is emptied first.
pub(crate) fn add_reserved_names_of<'a>(
    entry: &'a Entry,
    names: &mut Vec<&'a Name>,
    faults: &mut Vec<Fault>,
) -> Result<(), NoMemory>
    ensures { OnOk result (faults.new.items ≡ faults.old.items ++ reserved_names_in entry.now.file (defined_names (type_system_view (arc_value entry.now.definition)))) }
{
    names.clear();
    put_defined_names(&entry.definition, names)?;
    add_reserved_names_in(entry.file, names, faults)
}
