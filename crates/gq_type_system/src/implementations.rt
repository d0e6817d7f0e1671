//! How a type implements the interfaces that it declares (GraphQL, October 2021, sections 3.6.1 and 3.7).
ghost use Rattle.std.specs.Prelude.{◌≡◌, ◌++◌, IfSome, OnOk, map};
ghost use Rattle.std.specs.Arc.{arc_value};
ghost use Rattle.std.specs.List.{list_any};
ghost use Rattle.std.specs.Option.{option_map};
ghost use Rattle.gq_tree.specs.Same.{same_types};
ghost use Rattle.gq_tree.specs.Views.{name_of, type_view, input_view, field_definition_view, type_system_view};
ghost use Rattle.gq_type_system.specs.Helping.ImplementationsPlaces.{breaks_argument_named, breaks_arguments, requires_named, requires_further, breaks_own_field, breaks_field_named, breaks_fields};
ghost use Rattle.gq_type_system.specs.Helping.ImplementationsPlaces.{lacks_further, lacks_interfaces, breaks_interface, breaks_implementation, told_of, bad_implementation};
ghost use Rattle.gq_types.specs.Look.{types_view};
ghost use Rattle.gq_types.specs.Names.{field_named};
ghost use Rattle.gq_types.specs.SubtypesTests.{covers, may_be_subtype_name};

use gq_fault::{Code, Fault};
use gq_text::NoMemory;
use gq_tree::{FieldDefinition, Name, TypeBody, TypeRef, TypeSystemDefinition};
use gq_types::{Arguments, DefinedField, Entry, TypeKind, Types, is_required};

/// The fault of the entry with that number, if it defines an object type or interface that does not implement an interface as it must. The work
/// is the sum over its interfaces of their fields and interfaces.
pub(crate) fn add_bad_implementation(
    types: &Types,
    number: usize,
    entry: &Entry,
    faults: &mut Vec<Fault>,
) -> Result<(), NoMemory>
    ensures { OnOk result (faults.new.items ≡ faults.old.items ++ bad_implementation (types_view types.now) number entry.now.file (type_system_view (arc_value entry.now.definition))) }
{
    let TypeSystemDefinition::Type(one) = &*entry.definition else {
        return Ok(());
    };
    if one.extends {
        return Ok(());
    }
    match one.body {
        TypeBody::Object(_) | TypeBody::Interface(_) => {
            add_if_broken(types, number, entry.file, &one.name, faults)
        }
        TypeBody::Scalar | TypeBody::Union(_) | TypeBody::Enum(_) | TypeBody::InputObject(_) => {
            Ok(())
        }
    }
}

fn add_if_broken(
    types: &Types,
    number: usize,
    file: usize,
    name: &Name,
    faults: &mut Vec<Fault>,
) -> Result<(), NoMemory>
    ensures { OnOk result (faults.new.items ≡ faults.old.items ++ told_of (types_view types.now) number file (name_of name.now)) }
{
    if breaks_implementation(types, number, name.text.as_str()) {
        faults.push(Fault {
            file,
            start: name.span.start,
            code: Code::BadImplementation,
            end: name.span.end,
        })?;
    }
    Ok(())
}

fn breaks_implementation(types: &Types, number: usize, name: &str) -> bool
    ensures { result ≡ breaks_implementation (types_view types.now) number name.now }
{
    let parts = types.joined(number);
    for part in parts {
        if breaks_some_interface(types, number, name, types.interfaces_at(*part)) {
            return true;
        }
    }
    false
}

fn breaks_some_interface(types: &Types, number: usize, name: &str, interfaces: &[Name]) -> bool
    ensures { result ≡ list_any (λ i. breaks_interface (types_view types.now) number name.now i.text) (map name_of interfaces.now) }
{
    for interface in interfaces {
        if breaks_interface(types, number, name, interface.text.as_str()) {
            return true;
        }
    }
    false
}

fn breaks_interface(types: &Types, number: usize, name: &str, interface: &str) -> bool
    ensures { result ≡ breaks_interface (types_view types.now) number name.now interface.now }
{
    if interface == name {
        return true;
    }
    if !types.has_kind(interface, TypeKind::Interface) {
        return false;
    }
    match types.type_number(interface) {
        Some(other) => {
            if lacks_interfaces(types, number, other) {
                return true;
            }
            breaks_fields(types, number, interface, other)
        }
        None => false,
    }
}

fn lacks_interfaces(types: &Types, number: usize, other: usize) -> bool
    ensures { result ≡ lacks_interfaces (types_view types.now) number other }
{
    let parts = types.joined(other);
    for part in parts {
        if lacks_some(types, number, types.interfaces_at(*part)) {
            return true;
        }
    }
    false
}

fn lacks_some(types: &Types, number: usize, interfaces: &[Name]) -> bool
    ensures { result ≡ list_any (λ i. lacks_further (types_view types.now) number i.text) (map name_of interfaces.now) }
{
    for further in interfaces {
        if lacks_further(types, number, further.text.as_str()) {
            return true;
        }
    }
    false
}

fn lacks_further(types: &Types, number: usize, further: &str) -> bool
    ensures { result ≡ lacks_further (types_view types.now) number further.now }
{
    types.has_kind(further, TypeKind::Interface) && !types.declares_in(number, further)
}

fn breaks_fields(types: &Types, number: usize, interface: &str, other: usize) -> bool
    ensures { result ≡ breaks_fields (types_view types.now) number interface.now other }
{
    let parts = types.joined(other);
    for part in parts {
        if breaks_some_field(types, number, interface, types.fields_at(*part)) {
            return true;
        }
    }
    false
}

fn breaks_some_field(
    types: &Types,
    number: usize,
    interface: &str,
    fields: &[FieldDefinition],
) -> bool
    ensures { result ≡ list_any (λ f. breaks_field_named (types_view types.now) number interface.now f.name.text) (map field_definition_view fields.now) }
{
    for field in fields {
        if breaks_field_named(types, number, interface, field.name.text.as_str()) {
            return true;
        }
    }
    false
}

fn breaks_field_named(types: &Types, number: usize, interface: &str, name: &str) -> bool
    ensures { result ≡ breaks_field_named (types_view types.now) number interface.now name.now }
{
    match field_on(types, interface, name) {
        Some(wanted) => match types.defined_field(number, name) {
            Some(own) => breaks_own_field(types, wanted, own),
            None => true,
        },
        None => false,
    }
}

/// The field of that name of the type of that name.
fn field_on<'a>(types: &'a Types, type_name: &str, name: &str) -> Option<DefinedField<'a>>
    ensures definition { option_map (λ f. field_definition_view f.definition.now) result ≡ field_named (types_view types.now) type_name.now name.now }
    ensures arguments { IfSome result (λ f. map input_view f.arguments.all.now ≡ (field_definition_view f.definition.now).arguments) }
{
    let number = types.type_number(type_name)?;
    types.defined_field(number, name)
}

fn breaks_own_field(types: &Types, wanted: DefinedField<'_>, own: DefinedField<'_>) -> bool
    requires wanted { map input_view wanted.arguments.all.now ≡ (field_definition_view wanted.definition.now).arguments }
    requires own { map input_view own.arguments.all.now ≡ (field_definition_view own.definition.now).arguments }
    ensures { result ≡ breaks_own_field (types_view types.now) (field_definition_view wanted.entry.definition.now) (field_definition_view own.entry.definition.now) }
{
    !is_covered(types, &own.definition.type_ref, &wanted.definition.type_ref)
        || breaks_arguments(wanted.arguments, own.arguments)
        || requires_further(wanted.arguments, own.arguments)
}

fn is_covered(types: &Types, sub: &TypeRef, super_type: &TypeRef) -> bool
    ensures { result ≡ covers (may_be_subtype_name (types_view types.now)) (type_view sub.now) (type_view super_type.now) }
{
    types.may_be_subtype(sub, super_type)
}

fn breaks_arguments(wanted: Arguments<'_>, own: Arguments<'_>) -> bool
    ensures { result ≡ breaks_arguments (map input_view wanted.entry.all.now) (map input_view own.entry.all.now) (map input_view wanted.entry.all.now) }
{
    let all = wanted.all();
    for argument in all {
        if breaks_argument_named(wanted, own, argument.name.text.as_str()) {
            return true;
        }
    }
    false
}

fn breaks_argument_named(wanted: Arguments<'_>, own: Arguments<'_>, name: &str) -> bool
    ensures { result ≡ breaks_argument_named (map input_view wanted.entry.all.now) (map input_view own.entry.all.now) name.now }
{
    match wanted.named(name) {
        Some(wanted_argument) => match own.named(name) {
            Some(own_argument) => !is_same_type(&wanted_argument.type_ref, &own_argument.type_ref),
            None => true,
        },
        None => false,
    }
}

fn requires_further(wanted: Arguments<'_>, own: Arguments<'_>) -> bool
    ensures { result ≡ requires_further (map input_view wanted.entry.all.now) (map input_view own.entry.all.now) (map input_view own.entry.all.now) }
{
    let all = own.all();
    for further in all {
        if requires_named(wanted, own, further.name.text.as_str()) {
            return true;
        }
    }
    false
}

fn requires_named(wanted: Arguments<'_>, own: Arguments<'_>, name: &str) -> bool
    ensures { result ≡ requires_named (map input_view wanted.entry.all.now) (map input_view own.entry.all.now) name.now }
{
    match own.named(name) {
        Some(argument) => is_required(argument) && wanted.named(name).is_none(),
        None => false,
    }
}

#[tactic(auto, using(gq_tree::proofs::Trees::types))]
fn is_same_type(a: &TypeRef, b: &TypeRef) -> bool
    ensures { result ≡ same_types (type_view a.now) (type_view b.now) }
{
    match a {
        TypeRef::Named(a) => match b {
            TypeRef::Named(b) => a.text.as_str() == b.text.as_str(),
            TypeRef::List(_) => false,
            TypeRef::NonNull(_) => false,
        },
        TypeRef::List(a) => match b {
            TypeRef::Named(_) => false,
            TypeRef::List(b) => is_same_type(a, b),
            TypeRef::NonNull(_) => false,
        },
        TypeRef::NonNull(a) => match b {
            TypeRef::Named(_) => false,
            TypeRef::List(_) => false,
            TypeRef::NonNull(b) => is_same_type(a, b),
        },
    }
}
