//! What every schema has without defining it: the scalars of section 3.5 and the directives of section 3.13.
ghost use Rattle.std.specs.Prelude.{◌≡◌, ◌++◌, ◌∷◌, [], IfOk, Some, None, codes};
ghost use Rattle.std.specs.Option.{option_map};
ghost use Rattle.gq_text.specs.declared.place.Span.{Span};
ghost use Rattle.gq_tree.specs.Plain.{NameOf, TypeOf, named, non_null};
ghost use Rattle.gq_tree.specs.Views.{name_of, type_view, value_view, input_view};
ghost use Rattle.gq_tree.specs.declared.type_system.DirectiveLocation.TheVariants as location;
ghost use Rattle.gq_types.specs.Entries.{entry_view, entries_view};
ghost use Rattle.gq_types.specs.Typename.{typename_type};
ghost use Rattle.gq_types.specs.BuiltIn.{nowhere, name, scalar, argument, directive, no_longer_supported, built_in, is_built_in_scalar};

use crate::entry::Entry;
use gq_text::{NoMemory, SmallText, Span};
use gq_tree::{
    DirectiveDefinition, DirectiveLocation, InputValueDefinition, Literal, Name, TypeBody,
    TypeDefinition, TypeRef, TypeSystemDefinition, Value,
};
use std::alloc::Global;
use std::sync::Arc;

/// Whether it is the name of a scalar that is built in (section 3.5).
pub fn is_built_in_scalar(name: &str) -> bool
    ensures { result ≡ is_built_in_scalar name.now }
{
    name == "Int" || name == "Float" || name == "String" || name == "Boolean" || name == "ID"
}

/// The type of `__typename` (section 4.4), which is built in too.
pub(crate) fn typename_type(alloc: Global) -> Result<TypeRef, NoMemory>
    ensures { IfOk result (λ t. type_view t ≡ typename_type) }
{
    non_null_type(alloc, "String")
}

/// These definitions and extensions behind those that are built in.
pub fn with_built_in(alloc: Global, mut entries: Vec<Entry>) -> Result<Vec<Entry>, NoMemory>
    ensures { IfOk result (λ all. entries_view all.items ≡ built_in ++ entries_view entries.items) }
{
    let mut all = built_in(alloc)?;
    all.append(&mut entries)?;
    Ok(all)
}

/// The scalars and directives that are built in.
pub(crate) fn built_in(alloc: Global) -> Result<Vec<Entry>, NoMemory>
    ensures { IfOk result (λ es. entries_view es.items ≡ built_in) }
{
    let int = scalar(alloc, "Int")?;
    let float = scalar(alloc, "Float")?;
    let string = scalar(alloc, "String")?;
    let boolean = scalar(alloc, "Boolean")?;
    let id = scalar(alloc, "ID")?;
    let skip = selection_directive(alloc, "skip")?;
    let include = selection_directive(alloc, "include")?;
    let deprecated = deprecated(alloc)?;
    let specified_by = specified_by(alloc)?;
    Ok(vec![in alloc;
        int,
        float,
        string,
        boolean,
        id,
        skip,
        include,
        deprecated,
        specified_by,
    ]?)
}

fn nowhere() -> Span
    ensures { result ≡ nowhere }
{
    Span { start: 0, end: 0 }
}

fn name(alloc: Global, text: &str) -> Result<Name, NoMemory>
    ensures { IfOk result (λ n. name_of n ≡ name text.now) }
{
    let text = SmallText::from_str(alloc, text)?;
    Ok(Name {
        text,
        span: nowhere(),
    })
}

fn scalar(alloc: Global, text: &str) -> Result<Entry, NoMemory>
    ensures { IfOk result (λ e. entry_view e ≡ scalar text.now) }
{
    let name = name(alloc, text)?;
    let scalar = TypeSystemDefinition::Type(TypeDefinition {
        extends: false,
        description: None,
        name,
        directives: Vec::new(alloc),
        body: TypeBody::Scalar,
        span: nowhere(),
    });
    let definition = Arc::new(alloc, scalar)?;
    Ok(Entry {
        file: 0,
        definition,
    })
}

fn named_type(alloc: Global, text: &str) -> Result<TypeRef, NoMemory>
    ensures { IfOk result (λ t. type_view t ≡ named (name text.now)) }
{
    Ok(TypeRef::Named(name(alloc, text)?))
}

fn non_null_type(alloc: Global, text: &str) -> Result<TypeRef, NoMemory>
    ensures { IfOk result (λ t. type_view t ≡ non_null (named (name text.now))) }
{
    let inner = named_type(alloc, text)?;
    Ok(TypeRef::NonNull(Box::new(alloc, inner)?))
}

fn argument(
    alloc: Global,
    text: &str,
    type_ref: TypeRef,
    default: Option<Value>,
) -> Result<InputValueDefinition, NoMemory>
    ensures { IfOk result (λ i. input_view i ≡ argument text.now (type_view type_ref) (option_map value_view default)) }
{
    let name = name(alloc, text)?;
    Ok(InputValueDefinition {
        description: None,
        name,
        type_ref,
        default,
        directives: Vec::new(alloc),
    })
}

fn directive(
    alloc: Global,
    text: &str,
    only: InputValueDefinition,
    locations: Vec<DirectiveLocation>,
) -> Result<Entry, NoMemory>
    ensures { IfOk result (λ e. entry_view e ≡ directive text.now (input_view only) locations.items) }
{
    let name = name(alloc, text)?;
    let arguments = vec![in alloc; only]?;
    let directive = TypeSystemDefinition::Directive(DirectiveDefinition {
        description: None,
        name,
        arguments,
        repeatable: false,
        locations,
        span: nowhere(),
    });
    let definition = Arc::new(alloc, directive)?;
    Ok(Entry {
        file: 0,
        definition,
    })
}

/// `@skip` or `@include` (sections 3.13.1 and 3.13.2).
fn selection_directive(alloc: Global, text: &str) -> Result<Entry, NoMemory>
    ensures { IfOk result (λ e. entry_view e ≡
        directive text.now (argument (codes "if") (non_null (named (name (codes "Boolean")))) None)
        (location.Field ∷ location.FragmentSpread ∷ location.InlineFragment ∷ [])) }
{
    let type_ref = non_null_type(alloc, "Boolean")?;
    let condition = argument(alloc, "if", type_ref, None)?;
    let locations = vec![in alloc;
        DirectiveLocation::Field,
        DirectiveLocation::FragmentSpread,
        DirectiveLocation::InlineFragment,
    ]?;
    directive(alloc, text, condition, locations)
}

/// `@deprecated` (section 3.13.3).
fn deprecated(alloc: Global) -> Result<Entry, NoMemory>
    ensures { IfOk result (λ e. entry_view e ≡
        directive (codes "deprecated") (argument (codes "reason") (named (name (codes "String"))) (Some no_longer_supported))
        (location.FieldDefinition ∷ location.EnumValue ∷ location.ArgumentDefinition ∷ location.InputFieldDefinition ∷ [])) }
{
    let type_ref = named_type(alloc, "String")?;
    let default = no_longer_supported(alloc)?;
    let reason = argument(alloc, "reason", type_ref, Some(default))?;
    let locations = vec![in alloc;
        DirectiveLocation::FieldDefinition,
        DirectiveLocation::EnumValue,
        DirectiveLocation::ArgumentDefinition,
        DirectiveLocation::InputFieldDefinition,
    ]?;
    directive(alloc, "deprecated", reason, locations)
}

/// The default reason of `@deprecated`.
fn no_longer_supported(alloc: Global) -> Result<Value, NoMemory>
    ensures { IfOk result (λ v. value_view v ≡ no_longer_supported) }
{
    let text = SmallText::from_str(alloc, "\"No longer supported\"")?;
    let span = nowhere();
    Ok(Value::String(Literal { text, span }))
}

/// `@specifiedBy` (section 3.13.4).
fn specified_by(alloc: Global) -> Result<Entry, NoMemory>
    ensures { IfOk result (λ e. entry_view e ≡ directive (codes "specifiedBy") (argument (codes "url") (non_null (named (name (codes "String")))) None) (location.Scalar ∷ [])) }
{
    let type_ref = non_null_type(alloc, "String")?;
    let url = argument(alloc, "url", type_ref, None)?;
    let locations = vec![in alloc; DirectiveLocation::Scalar]?;
    directive(alloc, "specifiedBy", url, locations)
}
