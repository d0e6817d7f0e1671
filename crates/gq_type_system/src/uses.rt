//! The names that a definition or extension defines, and the names of types that it uses.
ghost use Rattle.std.specs.Prelude.{◌≡◌, ◌++◌, OnOk, flat_map, map};
ghost use Rattle.gq_tree.specs.Views.{name_of, input_view, field_definition_view, enum_value_view, root_view, body_view, type_system_view};
ghost use Rattle.gq_type_system.specs.Uses.{field_names, names_in_body, defined_names, input_use, field_uses, uses_in_body, used_types, named_uses, root_use};
ghost use Rattle.gq_tree.specs.NamedTypes.{named_type};
ghost use Rattle.gq_type_system.specs.declared.uses.Wants.TheVariants.{InterfaceType};
ghost use Rattle.gq_type_system.specs.Helping.UsesViews.{names_view, use_view, uses_view};

use gq_text::NoMemory;
use gq_tree::{
    EnumValueDefinition, FieldDefinition, FieldsAndInterfaces, InputValueDefinition, Name,
    RootOperationType, TypeBody, TypeRef, TypeSystemDefinition, named_type,
};

/// What has to stand where a type is named.
#[derive(Clone, Copy, Debug, PartialEq, Eq)]
pub enum Wants {
    /// The type of a field.
    OutputType,
    /// The type of an argument or of an input field.
    InputType,
    /// A member of a union.
    ObjectMember,
    /// What an object type or an interface implements.
    InterfaceType,
    /// The type of a root operation.
    RootOperationType,
}

/// The name of a type where it is used.
#[derive(Clone, Copy)]
pub struct Use<'a> {
    pub name: &'a Name,
    pub wants: Wants,
}

fn put_input_names<'a>(
    inputs: &'a [InputValueDefinition],
    names: &mut Vec<&'a Name>,
) -> Result<(), NoMemory>
    ensures { OnOk result (names_view names.new.items ≡ names_view names.old.items ++ map (λ i. i.name) (map input_view inputs.now)) }
{
    for input in inputs {
        names.push(&input.name)?;
    }
    Ok(())
}

fn put_value_names<'a>(
    values: &'a [EnumValueDefinition],
    names: &mut Vec<&'a Name>,
) -> Result<(), NoMemory>
    ensures { OnOk result (names_view names.new.items ≡ names_view names.old.items ++ map (λ v. v.name) (map enum_value_view values.now)) }
{
    for value in values {
        names.push(&value.name)?;
    }
    Ok(())
}

#[tactic(auto, using(gq_tree::proofs::Trees::gathers))]
fn put_field_names<'a>(
    fields: &'a [FieldDefinition],
    names: &mut Vec<&'a Name>,
) -> Result<(), NoMemory>
    ensures { OnOk result (names_view names.new.items ≡ names_view names.old.items ++ flat_map field_names (map field_definition_view fields.now)) }
{
    for field in fields {
        names.push(&field.name)?;
        put_input_names(&field.arguments, names)?;
    }
    Ok(())
}

#[tactic(auto, using(gq_tree::proofs::Trees::gathers))]
fn put_names_in_body<'a>(body: &'a TypeBody, names: &mut Vec<&'a Name>) -> Result<(), NoMemory>
    ensures { OnOk result (names_view names.new.items ≡ names_view names.old.items ++ names_in_body (body_view body.now)) }
{
    match body {
        TypeBody::Scalar | TypeBody::Union(_) => Ok(()),
        TypeBody::Object(parts) => put_field_names(&parts.fields, names),
        TypeBody::Interface(parts) => put_field_names(&parts.fields, names),
        TypeBody::Enum(values) => put_value_names(values, names),
        TypeBody::InputObject(fields) => put_input_names(fields, names),
    }
}

/// Puts the names that a definition or extension defines behind the others.
#[tactic(auto, using(gq_tree::proofs::Trees::gathers))]
pub fn put_defined_names<'a>(
    definition: &'a TypeSystemDefinition,
    names: &mut Vec<&'a Name>,
) -> Result<(), NoMemory>
    ensures { OnOk result (names_view names.new.items ≡ names_view names.old.items ++ defined_names (type_system_view definition.now)) }
{
    match definition {
        TypeSystemDefinition::Schema(_) => Ok(()),
        TypeSystemDefinition::Type(one) => {
            if !one.extends {
                names.push(&one.name)?;
            }
            put_names_in_body(&one.body, names)
        }
        TypeSystemDefinition::Directive(one) => {
            names.push(&one.name)?;
            put_input_names(&one.arguments, names)
        }
    }
}

fn put_input_uses<'a>(
    inputs: &'a [InputValueDefinition],
    uses: &mut Vec<Use<'a>>,
) -> Result<(), NoMemory>
    ensures { OnOk result (uses_view uses.new.items ≡ uses_view uses.old.items ++ map input_use (map input_view inputs.now)) }
{
    for input in inputs {
        uses.push(Use {
            name: named_type(&input.type_ref),
            wants: Wants::InputType,
        })?;
    }
    Ok(())
}

#[tactic(auto, using(gq_tree::proofs::Trees::gathers))]
fn put_field_uses<'a>(
    fields: &'a [FieldDefinition],
    uses: &mut Vec<Use<'a>>,
) -> Result<(), NoMemory>
    ensures { OnOk result (uses_view uses.new.items ≡ uses_view uses.old.items ++ flat_map field_uses (map field_definition_view fields.now)) }
{
    for field in fields {
        uses.push(Use {
            name: named_type(&field.type_ref),
            wants: Wants::OutputType,
        })?;
        put_input_uses(&field.arguments, uses)?;
    }
    Ok(())
}

fn put_named_uses<'a>(
    names: &'a [Name],
    wants: Wants,
    uses: &mut Vec<Use<'a>>,
) -> Result<(), NoMemory>
    ensures { OnOk result (uses_view uses.new.items ≡ uses_view uses.old.items ++ named_uses wants (map name_of names.now)) }
{
    for name in names {
        uses.push(Use { name, wants })?;
    }
    Ok(())
}

fn put_root_uses<'a>(
    roots: &'a [RootOperationType],
    uses: &mut Vec<Use<'a>>,
) -> Result<(), NoMemory>
    ensures { OnOk result (uses_view uses.new.items ≡ uses_view uses.old.items ++ map root_use (map root_view roots.now)) }
{
    for root in roots {
        uses.push(Use {
            name: &root.name,
            wants: Wants::RootOperationType,
        })?;
    }
    Ok(())
}

#[tactic(auto, using(gq_tree::proofs::Trees::gathers))]
fn put_uses_of_fields<'a>(
    parts: &'a FieldsAndInterfaces,
    uses: &mut Vec<Use<'a>>,
) -> Result<(), NoMemory>
    ensures { OnOk result (uses_view uses.new.items ≡ uses_view uses.old.items ++ named_uses InterfaceType
        (map name_of parts.now.interfaces.items) ++ flat_map field_uses (map field_definition_view parts.now.fields.items)) }
{
    put_named_uses(&parts.interfaces, Wants::InterfaceType, uses)?;
    put_field_uses(&parts.fields, uses)
}

#[tactic(auto, using(gq_tree::proofs::Trees::gathers))]
fn put_uses_in_body<'a>(body: &'a TypeBody, uses: &mut Vec<Use<'a>>) -> Result<(), NoMemory>
    ensures { OnOk result (uses_view uses.new.items ≡ uses_view uses.old.items ++ uses_in_body (body_view body.now)) }
{
    match body {
        TypeBody::Scalar | TypeBody::Enum(_) => Ok(()),
        TypeBody::Object(parts) => put_uses_of_fields(parts, uses),
        TypeBody::Interface(parts) => put_uses_of_fields(parts, uses),
        TypeBody::Union(members) => put_named_uses(members, Wants::ObjectMember, uses),
        TypeBody::InputObject(fields) => put_input_uses(fields, uses),
    }
}

/// Puts the names of types that a definition or extension uses behind the others.
#[tactic(auto, using(gq_tree::proofs::Trees::gathers))]
pub fn put_used_types<'a>(
    definition: &'a TypeSystemDefinition,
    uses: &mut Vec<Use<'a>>,
) -> Result<(), NoMemory>
    ensures { OnOk result (uses_view uses.new.items ≡ uses_view uses.old.items ++ used_types (type_system_view definition.now)) }
{
    match definition {
        TypeSystemDefinition::Schema(one) => put_root_uses(&one.roots, uses),
        TypeSystemDefinition::Type(one) => put_uses_in_body(&one.body, uses),
        TypeSystemDefinition::Directive(one) => put_input_uses(&one.arguments, uses),
    }
}
