//! Type system definitions and extensions, by descent. Each function answers the phrase that stands at an index, and the
//! index behind it.
ghost use Rattle.std.specs.Prelude.{◌≡◌, ◌≢◌, ◌+◌, ◌<◌, ◌≤◌, length, IfOk, IfErr};
ghost use Rattle.std.specs.Option.{option_map};
ghost use Rattle.gq_tree.specs.Views.{literal_view, body_view, type_system_view};
ghost use Rattle.gq_parse.specs.TypeSystem.{IsTypeSystemDefinition};
ghost use Rattle.gq_parse.specs.Helping.From.{from};
ghost use Rattle.gq_parse.specs.Helping.Phrases.{Lacks};
ghost use Rattle.gq_parse.specs.Helping.Parts.{has_parts, IsSchemaExtended, IsTypeExtended, IsExtended, IsSchemaDescribed, IsTypeDescribed, IsDirectiveOrType, IsDescribed};

use crate::directive_definitions::directive_definition;
use crate::fields::description;
use crate::phrases::{Miss, covered, keyword};
use crate::schema_definitions::schema;
use crate::type_definitions::type_body;
use gq_lex::Token;
use gq_tree::{Literal, SchemaDefinition, TypeBody, TypeDefinition, TypeSystemDefinition};
use std::alloc::Global;

/// A type system definition or extension.
pub(crate) fn type_system_definition(
    alloc: Global,
    tokens: &[Token<'_>],
    at: usize,
) -> Result<(TypeSystemDefinition, usize), Miss>
    requires { at ≤ length tokens.now }
    ensures found { IfOk result (λ x. IsTypeSystemDefinition (type_system_view x.0) (from tokens.now at) (from tokens.now x.1)) }
    ensures within { IfOk result (λ x. (at < x.1) × (x.1 ≤ length tokens.now)) }
    ensures none { IfErr result (λ miss. miss ≢ Miss.NoMemory → Lacks IsTypeSystemDefinition (from tokens.now at)) }
{
    match keyword("extend", tokens, at) {
        Some((_, behind)) => extension(alloc, tokens, at, behind),
        None => {
            let (description, behind) = description(alloc, tokens, at)?;
            described(alloc, tokens, at, description, behind)
        }
    }
}

// An extension whose word `extend` stands at the first index, from behind that word on.
fn extension(
    alloc: Global,
    tokens: &[Token<'_>],
    first: usize,
    at: usize,
) -> Result<(TypeSystemDefinition, usize), Miss>
    requires { (first ≤ at) × (at ≤ length tokens.now) }
    ensures found { IfOk result (λ x. IsExtended (from tokens.now first) (type_system_view x.0) (from tokens.now at) (from tokens.now x.1)) }
    ensures within { IfOk result (λ x. (at < x.1) × (x.1 ≤ length tokens.now)) }
    ensures none { IfErr result (λ miss. miss ≢ Miss.NoMemory → Lacks (IsExtended (from tokens.now first)) (from tokens.now at)) }
{
    match keyword("schema", tokens, at) {
        Some(_) => schema_extension(alloc, tokens, first, at),
        None => type_extension(alloc, tokens, first, at),
    }
}

fn schema_extension(
    alloc: Global,
    tokens: &[Token<'_>],
    first: usize,
    at: usize,
) -> Result<(TypeSystemDefinition, usize), Miss>
    requires { (first ≤ at) × (at ≤ length tokens.now) }
    ensures found { IfOk result (λ x. IsSchemaExtended (from tokens.now first) (type_system_view x.0) (from tokens.now at) (from tokens.now x.1)) }
    ensures within { IfOk result (λ x. (at < x.1) × (x.1 ≤ length tokens.now)) }
    ensures none { IfErr result (λ miss. miss ≢ Miss.NoMemory → Lacks (IsSchemaExtended (from tokens.now first)) (from tokens.now at)) }
{
    let (directives, roots, end) = schema(alloc, tokens, at)?;
    if directives.is_empty() && roots.is_empty() {
        return Err(Miss::NoPhrase { at: end });
    }
    let span = covered(tokens, first, end);
    let extension = SchemaDefinition {
        extends: true,
        description: None,
        directives,
        roots,
        span,
    };
    Ok((TypeSystemDefinition::Schema(extension), end))
}

fn type_extension(
    alloc: Global,
    tokens: &[Token<'_>],
    first: usize,
    at: usize,
) -> Result<(TypeSystemDefinition, usize), Miss>
    requires { (first ≤ at) × (at ≤ length tokens.now) }
    ensures found { IfOk result (λ x. IsTypeExtended (from tokens.now first) (type_system_view x.0) (from tokens.now at) (from tokens.now x.1)) }
    ensures within { IfOk result (λ x. (at < x.1) × (x.1 ≤ length tokens.now)) }
    ensures none { IfErr result (λ miss. miss ≢ Miss.NoMemory → Lacks (IsTypeExtended (from tokens.now first)) (from tokens.now at)) }
{
    let (name, directives, body, end) = type_body(alloc, tokens, at)?;
    if directives.is_empty() && !has_parts(&body) {
        return Err(Miss::NoPhrase { at: end });
    }
    let span = covered(tokens, first, end);
    let extension = TypeDefinition {
        extends: true,
        description: None,
        name,
        directives,
        body,
        span,
    };
    Ok((TypeSystemDefinition::Type(extension), end))
}

// Whether a type has something behind its name and its directives.
fn has_parts(body: &TypeBody) -> bool
    ensures { result ≡ has_parts (body_view body.now) }
{
    match body {
        TypeBody::Scalar => false,
        TypeBody::Object(parts) => !parts.interfaces.is_empty() || !parts.fields.is_empty(),
        TypeBody::Interface(parts) => !parts.interfaces.is_empty() || !parts.fields.is_empty(),
        TypeBody::Union(members) => !members.is_empty(),
        TypeBody::Enum(values) => !values.is_empty(),
        TypeBody::InputObject(fields) => !fields.is_empty(),
    }
}

// A definition whose description began at the first index, from its keyword on.
fn described(
    alloc: Global,
    tokens: &[Token<'_>],
    first: usize,
    description: Option<Literal>,
    at: usize,
) -> Result<(TypeSystemDefinition, usize), Miss>
    requires { (first ≤ at) × (at ≤ length tokens.now) }
    ensures found { IfOk result (λ x. IsDescribed (from tokens.now first) (option_map literal_view description) (type_system_view x.0) (from tokens.now at) (from tokens.now x.1)) }
    ensures within { IfOk result (λ x. (at < x.1) × (x.1 ≤ length tokens.now)) }
    ensures none { IfErr result (λ miss. miss ≢ Miss.NoMemory → Lacks (IsDescribed (from tokens.now first) (option_map literal_view description)) (from tokens.now at)) }
{
    match keyword("schema", tokens, at) {
        Some(_) => schema_definition(alloc, tokens, first, description, at),
        None => directive_or_type(alloc, tokens, first, description, at),
    }
}

fn directive_or_type(
    alloc: Global,
    tokens: &[Token<'_>],
    first: usize,
    description: Option<Literal>,
    at: usize,
) -> Result<(TypeSystemDefinition, usize), Miss>
    requires { (first ≤ at) × (at ≤ length tokens.now) }
    ensures found { IfOk result (λ x. IsDirectiveOrType (from tokens.now first) (option_map literal_view description) (type_system_view x.0) (from tokens.now at) (from tokens.now x.1)) }
    ensures within { IfOk result (λ x. (at < x.1) × (x.1 ≤ length tokens.now)) }
    ensures none { IfErr result (λ miss. miss ≢ Miss.NoMemory → Lacks (IsDirectiveOrType (from tokens.now first) (option_map literal_view description)) (from tokens.now at)) }
{
    match keyword("directive", tokens, at) {
        Some(_) => directive_definition(alloc, tokens, first, description, at),
        None => type_definition(alloc, tokens, first, description, at),
    }
}

fn schema_definition(
    alloc: Global,
    tokens: &[Token<'_>],
    first: usize,
    description: Option<Literal>,
    at: usize,
) -> Result<(TypeSystemDefinition, usize), Miss>
    requires { (first ≤ at) × (at ≤ length tokens.now) }
    ensures found { IfOk result (λ x. IsSchemaDescribed (from tokens.now first) (option_map literal_view description) (type_system_view x.0) (from tokens.now at) (from tokens.now x.1)) }
    ensures within { IfOk result (λ x. (at < x.1) × (x.1 ≤ length tokens.now)) }
    ensures none { IfErr result (λ miss. miss ≢ Miss.NoMemory → Lacks (IsSchemaDescribed (from tokens.now first) (option_map literal_view description)) (from tokens.now at)) }
{
    let (directives, roots, end) = schema(alloc, tokens, at)?;
    if roots.is_empty() {
        return Err(Miss::NoPhrase { at: end });
    }
    let span = covered(tokens, first, end);
    let definition = SchemaDefinition {
        extends: false,
        description,
        directives,
        roots,
        span,
    };
    Ok((TypeSystemDefinition::Schema(definition), end))
}

fn type_definition(
    alloc: Global,
    tokens: &[Token<'_>],
    first: usize,
    description: Option<Literal>,
    at: usize,
) -> Result<(TypeSystemDefinition, usize), Miss>
    requires { (first ≤ at) × (at ≤ length tokens.now) }
    ensures found { IfOk result (λ x. IsTypeDescribed (from tokens.now first) (option_map literal_view description) (type_system_view x.0) (from tokens.now at) (from tokens.now x.1)) }
    ensures within { IfOk result (λ x. (at < x.1) × (x.1 ≤ length tokens.now)) }
    ensures none { IfErr result (λ miss. miss ≢ Miss.NoMemory → Lacks (IsTypeDescribed (from tokens.now first) (option_map literal_view description)) (from tokens.now at)) }
{
    let (name, directives, body, end) = type_body(alloc, tokens, at)?;
    let span = covered(tokens, first, end);
    let definition = TypeDefinition {
        extends: false,
        description,
        name,
        directives,
        body,
        span,
    };
    Ok((TypeSystemDefinition::Type(definition), end))
}
