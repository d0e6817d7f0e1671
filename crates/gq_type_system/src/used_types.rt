//! Names of types that are used: those that nothing defines (section 3.4.1), and those where a type of another kind has to stand (sections
//! 3.4.2, 3.6, 3.7 and 3.8).
ghost use Rattle.std.specs.Prelude.{◌≡◌, ◌++◌, OnOk};
ghost use Rattle.std.specs.Arc.{arc_value};
ghost use Rattle.gq_tree.specs.Views.{type_system_view};
ghost use Rattle.gq_types.specs.Look.{types_view};
ghost use Rattle.gq_fault.specs.FaultPlaces.{fault_at};
ghost use Rattle.gq_type_system.specs.Uses.{used_types};
ghost use Rattle.gq_type_system.specs.WrongKind.{suits};
ghost use Rattle.gq_type_system.specs.Helping.UsesViews.{use_view, uses_view};
ghost use Rattle.gq_type_system.specs.Helping.UnknownTypePlaces.{unknown_type, unknown_types_in};
ghost use Rattle.gq_type_system.specs.Helping.WrongKindPlaces.{wrong_kind, wrong_kinds_in};

use crate::uses::{Use, Wants, put_used_types};
use gq_fault::{Code, Fault};
use gq_text::NoMemory;
use gq_types::{Entry, TypeKind, Types};

/// Whether a type of that kind may stand where that is wanted.
fn suits(wants: Wants, kind: TypeKind) -> bool
    ensures { result ≡ suits wants kind }
{
    match wants {
        Wants::OutputType => kind.is_output(),
        Wants::InputType => kind.is_input(),
        Wants::ObjectMember => kind == TypeKind::Object,
        Wants::InterfaceType => kind == TypeKind::Interface,
        Wants::RootOperationType => true,
    }
}

/// The fault of the name of a type that is used in that document.
fn fault_of(file: usize, code: Code, one: &Use<'_>) -> Fault
    ensures { result ≡ fault_at file code (use_view one.now).name }
{
    Fault {
        file,
        start: one.name.span.start,
        code,
        end: one.name.span.end,
    }
}

/// Puts the fault of the name of a type that is used in that document, among those that nothing defines or among those of another kind
/// than what is wanted.
fn put_fault_of(
    types: &Types,
    file: usize,
    one: &Use<'_>,
    unknown: &mut Vec<Fault>,
    wrong: &mut Vec<Fault>,
) -> Result<(), NoMemory>
    ensures unknown { OnOk result (unknown.new.items ≡ unknown.old.items ++ unknown_type (types_view types.now) file (use_view one.now)) }
    ensures wrong { OnOk result (wrong.new.items ≡ wrong.old.items ++ wrong_kind (types_view types.now) file (use_view one.now)) }
{
    match types.kind(one.name.text.as_str()) {
        Some(kind) => {
            if !suits(one.wants, kind) {
                wrong.push(fault_of(file, Code::WrongKindOfType, one))?;
            }
        }
        None => unknown.push(fault_of(file, Code::UnknownType, one))?,
    }
    Ok(())
}

/// The same of each of those uses.
fn put_faults_in(
    types: &Types,
    file: usize,
    uses: &[Use<'_>],
    unknown: &mut Vec<Fault>,
    wrong: &mut Vec<Fault>,
) -> Result<(), NoMemory>
    ensures unknown { OnOk result (unknown.new.items ≡ unknown.old.items ++ unknown_types_in (types_view types.now) file (uses_view uses.now)) }
    ensures wrong { OnOk result (wrong.new.items ≡ wrong.old.items ++ wrong_kinds_in (types_view types.now) file (uses_view uses.now)) }
{
    for one in uses {
        put_fault_of(types, file, one, unknown, wrong)?;
    }
    Ok(())
}

/// The same of each type that an entry uses. The list of uses is emptied first.
pub(crate) fn put_faults_of<'a>(
    types: &Types,
    entry: &'a Entry,
    uses: &mut Vec<Use<'a>>,
    unknown: &mut Vec<Fault>,
    wrong: &mut Vec<Fault>,
) -> Result<(), NoMemory>
    ensures unknown { OnOk result (unknown.new.items ≡ unknown.old.items ++ unknown_types_in (types_view types.now) entry.now.file (used_types (type_system_view (arc_value entry.now.definition)))) }
    ensures wrong { OnOk result (wrong.new.items ≡ wrong.old.items ++ wrong_kinds_in (types_view types.now) entry.now.file (used_types (type_system_view (arc_value entry.now.definition)))) }
{
    uses.clear();
    put_used_types(&entry.definition, uses)?;
    put_faults_in(types, entry.file, uses, unknown, wrong)
}
