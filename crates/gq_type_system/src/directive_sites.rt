//! The places of a definition or extension that may have directives, and its arguments and input fields.
ghost use Rattle.std.specs.Prelude.{◌≡◌, ◌++◌, OnOk, flat_map, map};
ghost use Rattle.std.specs.Option.{option_map};
ghost use Rattle.gq_tree.specs.Views.{input_view, field_definition_view, enum_value_view, body_view, type_system_view};
ghost use Rattle.gq_type_system.specs.DirectivesAndDefaults.{argument_site, field_sites, value_site, input_field_site, sites_in_body, sites_in, type_location, own_site, all_inputs};
ghost use Rattle.gq_type_system.specs.Helping.DirectivesAndDefaultsPlaces.{site_view, sites_view, inputs_view};

use gq_text::NoMemory;
use gq_tree::{
    Directive, DirectiveLocation, EnumValueDefinition, FieldDefinition, InputValueDefinition,
    TypeBody, TypeSystemDefinition,
};

/// A place that may have directives: its location (section 3.13), and the directives that it has.
#[derive(Clone, Copy)]
pub struct DirectiveSite<'a> {
    pub location: DirectiveLocation,
    pub directives: &'a [Directive],
}

fn put_argument_sites<'a>(
    arguments: &'a [InputValueDefinition],
    sites: &mut Vec<DirectiveSite<'a>>,
) -> Result<(), NoMemory>
    ensures { OnOk result (sites_view sites.new.items ≡ sites_view sites.old.items ++ map argument_site (map input_view arguments.now)) }
{
    for argument in arguments {
        sites.push(DirectiveSite {
            location: DirectiveLocation::ArgumentDefinition,
            directives: &argument.directives,
        })?;
    }
    Ok(())
}

#[tactic(auto, using(gq_tree::proofs::Trees::gathers))]
fn put_field_sites<'a>(
    fields: &'a [FieldDefinition],
    sites: &mut Vec<DirectiveSite<'a>>,
) -> Result<(), NoMemory>
    ensures { OnOk result (sites_view sites.new.items ≡ sites_view sites.old.items ++ flat_map field_sites (map field_definition_view fields.now)) }
{
    for field in fields {
        sites.push(DirectiveSite {
            location: DirectiveLocation::FieldDefinition,
            directives: &field.directives,
        })?;
        put_argument_sites(&field.arguments, sites)?;
    }
    Ok(())
}

fn put_value_sites<'a>(
    values: &'a [EnumValueDefinition],
    sites: &mut Vec<DirectiveSite<'a>>,
) -> Result<(), NoMemory>
    ensures { OnOk result (sites_view sites.new.items ≡ sites_view sites.old.items ++ map value_site (map enum_value_view values.now)) }
{
    for value in values {
        sites.push(DirectiveSite {
            location: DirectiveLocation::EnumValue,
            directives: &value.directives,
        })?;
    }
    Ok(())
}

fn put_input_field_sites<'a>(
    fields: &'a [InputValueDefinition],
    sites: &mut Vec<DirectiveSite<'a>>,
) -> Result<(), NoMemory>
    ensures { OnOk result (sites_view sites.new.items ≡ sites_view sites.old.items ++ map input_field_site (map input_view fields.now)) }
{
    for field in fields {
        sites.push(DirectiveSite {
            location: DirectiveLocation::InputFieldDefinition,
            directives: &field.directives,
        })?;
    }
    Ok(())
}

#[tactic(auto, using(gq_tree::proofs::Trees::gathers))]
fn put_sites_in_body<'a>(
    body: &'a TypeBody,
    sites: &mut Vec<DirectiveSite<'a>>,
) -> Result<(), NoMemory>
    ensures { OnOk result (sites_view sites.new.items ≡ sites_view sites.old.items ++ sites_in_body (body_view body.now)) }
{
    match body {
        TypeBody::Scalar | TypeBody::Union(_) => Ok(()),
        TypeBody::Object(parts) => put_field_sites(&parts.fields, sites),
        TypeBody::Interface(parts) => put_field_sites(&parts.fields, sites),
        TypeBody::Enum(values) => put_value_sites(values, sites),
        TypeBody::InputObject(fields) => put_input_field_sites(fields, sites),
    }
}

/// Puts all places in a definition or extension that may have directives behind the others. It itself is not among them.
#[tactic(auto, using(gq_tree::proofs::Trees::gathers))]
pub fn put_sites<'a>(
    definition: &'a TypeSystemDefinition,
    sites: &mut Vec<DirectiveSite<'a>>,
) -> Result<(), NoMemory>
    ensures { OnOk result (sites_view sites.new.items ≡ sites_view sites.old.items ++ sites_in (type_system_view definition.now)) }
{
    match definition {
        TypeSystemDefinition::Schema(_) => Ok(()),
        TypeSystemDefinition::Type(one) => put_sites_in_body(&one.body, sites),
        TypeSystemDefinition::Directive(one) => put_argument_sites(&one.arguments, sites),
    }
}

/// The location of a type.
fn type_location(body: &TypeBody) -> DirectiveLocation
    ensures { result ≡ type_location (body_view body.now) }
{
    match body {
        TypeBody::Scalar => DirectiveLocation::Scalar,
        TypeBody::Object(_) => DirectiveLocation::Object,
        TypeBody::Interface(_) => DirectiveLocation::Interface,
        TypeBody::Union(_) => DirectiveLocation::Union,
        TypeBody::Enum(_) => DirectiveLocation::Enum,
        TypeBody::InputObject(_) => DirectiveLocation::InputObject,
    }
}

/// A definition or extension itself as such a place. The definition of a directive is none.
pub fn own_site(definition: &TypeSystemDefinition) -> Option<DirectiveSite<'_>>
    ensures { option_map site_view result ≡ own_site (type_system_view definition.now) }
{
    match definition {
        TypeSystemDefinition::Schema(one) => Some(DirectiveSite {
            location: DirectiveLocation::Schema,
            directives: &one.directives,
        }),
        TypeSystemDefinition::Type(one) => Some(DirectiveSite {
            location: type_location(&one.body),
            directives: &one.directives,
        }),
        TypeSystemDefinition::Directive(_) => None,
    }
}

fn put_each_input<'a>(
    more: &'a [InputValueDefinition],
    inputs: &mut Vec<&'a InputValueDefinition>,
) -> Result<(), NoMemory>
    ensures { OnOk result (inputs_view inputs.new.items ≡ inputs_view inputs.old.items ++ map input_view more.now) }
{
    for input in more {
        inputs.push(input)?;
    }
    Ok(())
}

#[tactic(auto, using(gq_tree::proofs::Trees::gathers))]
fn put_arguments_of_fields<'a>(
    fields: &'a [FieldDefinition],
    inputs: &mut Vec<&'a InputValueDefinition>,
) -> Result<(), NoMemory>
    ensures { OnOk result (inputs_view inputs.new.items ≡ inputs_view inputs.old.items ++ flat_map (λ f. f.arguments) (map field_definition_view fields.now)) }
{
    for field in fields {
        put_each_input(&field.arguments, inputs)?;
    }
    Ok(())
}

/// Puts the arguments of fields and of directives and the input fields of a definition or extension behind the others.
#[tactic(auto, using(gq_tree::proofs::Trees::gathers))]
pub fn put_inputs<'a>(
    definition: &'a TypeSystemDefinition,
    inputs: &mut Vec<&'a InputValueDefinition>,
) -> Result<(), NoMemory>
    ensures { OnOk result (inputs_view inputs.new.items ≡ inputs_view inputs.old.items ++ all_inputs (type_system_view definition.now)) }
{
    match definition {
        TypeSystemDefinition::Schema(_) => Ok(()),
        TypeSystemDefinition::Type(one) => match &one.body {
            TypeBody::Scalar | TypeBody::Union(_) | TypeBody::Enum(_) => Ok(()),
            TypeBody::Object(parts) => put_arguments_of_fields(&parts.fields, inputs),
            TypeBody::Interface(parts) => put_arguments_of_fields(&parts.fields, inputs),
            TypeBody::InputObject(fields) => put_each_input(fields, inputs),
        },
        TypeSystemDefinition::Directive(one) => put_each_input(&one.arguments, inputs),
    }
}
