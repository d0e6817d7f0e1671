//! The definitions of types, from their keyword on. Each function answers the phrase that stands at an index, and the
//! index behind it.
ghost use Rattle.std.specs.Prelude.{◌≡◌, ◌≢◌, ℕ, List, ◌+◌, ◌<◌, ◌≤◌, length, map, IfOk, IfErr, IfSome, IfNone};
ghost use Rattle.gq_text.specs.declared.place.Span.{Span};
ghost use Rattle.gq_tree.specs.Plain.{NameOf, DirectiveOf, BodyOf};
ghost use Rattle.gq_tree.specs.Views.{name_of, directive_view, field_definition_view, body_view};
ghost use Rattle.gq_parse.specs.Grammar.{Tokens, IsKeyword};
ghost use Rattle.gq_parse.specs.TypeSystem.{IsTypeBody};
ghost use Rattle.gq_parse.specs.Helping.From.{from};
ghost use Rattle.gq_parse.specs.Helping.Parts.{kind_word, kind_named, IsNamed, IsFielded, IsBodyBehind, LacksNamed, LacksFielded, LacksBehind, LacksBody};

use crate::directives::directives;
use crate::fields::{enum_values, field_definitions, input_values};
use crate::names::{implements, members};
use crate::phrases::{Miss, name, punctuator, token_at};
use gq_lex::{Kind, Token};
use gq_text::Span;
use gq_tree::{Directive, FieldsAndInterfaces, Name, TypeBody};
use std::alloc::Global;

/// What a type is, by its keyword.
#[derive(Clone, Copy, Debug, PartialEq, Eq)]
pub(crate) enum TypeKind {
    Scalar,
    Object,
    Interface,
    Union,
    Enum,
    InputObject,
}

/// A type from its keyword on: its name, its directives and its parts.
pub(crate) fn type_body(
    alloc: Global,
    tokens: &[Token<'_>],
    at: usize,
) -> Result<(Name, Vec<Directive>, TypeBody, usize), Miss>
    requires { at ≤ length tokens.now }
    ensures found { IfOk result (λ x. IsTypeBody (name_of x.0) (map directive_view x.1.items) (body_view x.2) (from tokens.now at) (from tokens.now x.3)) }
    ensures within { IfOk result (λ x. (at < x.3) × (x.3 ≤ length tokens.now)) }
    ensures none { IfErr result (λ miss. miss ≢ Miss.NoMemory → LacksBody (from tokens.now at)) }
{
    let Some((kind, _, behind)) = type_keyword(tokens, at) else {
        return Err(Miss::NoPhrase { at });
    };
    let (name, directives, body, end) = body_behind(alloc, kind, tokens, behind)?;
    Ok((name, directives, body, end))
}

// The keyword of a type, and its place.
fn type_keyword(tokens: &[Token<'_>], at: usize) -> Option<(TypeKind, Span, usize)>
    ensures found { IfSome result (λ x. IsKeyword (kind_word x.0) x.1 (from tokens.now at) (from tokens.now x.2)) }
    ensures within { IfSome result (λ x. (at < x.2) × (x.2 ≤ length tokens.now)) }
    ensures none { IfNone result (LacksBody (from tokens.now at)) }
{
    let end = punctuator(Kind::Name, tokens, at)?;
    let token = token_at(tokens, at)?;
    let kind = kind_named(token.text)?;
    Some((kind, token.span, end))
}

fn kind_named(word: &str) -> Option<TypeKind>
    ensures { result ≡ kind_named word.now }
{
    if word == "scalar" {
        Some(TypeKind::Scalar)
    } else if word == "type" {
        Some(TypeKind::Object)
    } else if word == "interface" {
        Some(TypeKind::Interface)
    } else if word == "union" {
        Some(TypeKind::Union)
    } else if word == "enum" {
        Some(TypeKind::Enum)
    } else if word == "input" {
        Some(TypeKind::InputObject)
    } else {
        None
    }
}

// What stands behind the keyword of a type.
fn body_behind(
    alloc: Global,
    kind: TypeKind,
    tokens: &[Token<'_>],
    at: usize,
) -> Result<(Name, Vec<Directive>, TypeBody, usize), Miss>
    requires { at ≤ length tokens.now }
    ensures found { IfOk result (λ x. IsBodyBehind kind (name_of x.0) (map directive_view x.1.items) (body_view x.2) (from tokens.now at) (from tokens.now x.3)) }
    ensures within { IfOk result (λ x. (at < x.3) × (x.3 ≤ length tokens.now)) }
    ensures none { IfErr result (λ miss. miss ≢ Miss.NoMemory → LacksBehind kind (from tokens.now at)) }
{
    match kind {
        TypeKind::Scalar => scalar(alloc, tokens, at),
        TypeKind::Object => object(alloc, tokens, at),
        TypeKind::Interface => interface(alloc, tokens, at),
        TypeKind::Union => union_type(alloc, tokens, at),
        TypeKind::Enum => enum_type(alloc, tokens, at),
        TypeKind::InputObject => input_object(alloc, tokens, at),
    }
}

fn scalar(
    alloc: Global,
    tokens: &[Token<'_>],
    at: usize,
) -> Result<(Name, Vec<Directive>, TypeBody, usize), Miss>
    requires { at ≤ length tokens.now }
    ensures found { IfOk result (λ x. IsBodyBehind TypeKind.Scalar (name_of x.0) (map directive_view x.1.items) (body_view x.2) (from tokens.now at) (from tokens.now x.3)) }
    ensures within { IfOk result (λ x. (at < x.3) × (x.3 ≤ length tokens.now)) }
    ensures none { IfErr result (λ miss. miss ≢ Miss.NoMemory → LacksBehind TypeKind.Scalar (from tokens.now at)) }
{
    let (name, directives, end) = named(alloc, tokens, at)?;
    Ok((name, directives, TypeBody::Scalar, end))
}

fn object(
    alloc: Global,
    tokens: &[Token<'_>],
    at: usize,
) -> Result<(Name, Vec<Directive>, TypeBody, usize), Miss>
    requires { at ≤ length tokens.now }
    ensures found { IfOk result (λ x. IsBodyBehind TypeKind.Object (name_of x.0) (map directive_view x.1.items) (body_view x.2) (from tokens.now at) (from tokens.now x.3)) }
    ensures within { IfOk result (λ x. (at < x.3) × (x.3 ≤ length tokens.now)) }
    ensures none { IfErr result (λ miss. miss ≢ Miss.NoMemory → LacksBehind TypeKind.Object (from tokens.now at)) }
{
    let (name, directives, parts, end) = fielded(alloc, tokens, at)?;
    Ok((name, directives, TypeBody::Object(parts), end))
}

fn interface(
    alloc: Global,
    tokens: &[Token<'_>],
    at: usize,
) -> Result<(Name, Vec<Directive>, TypeBody, usize), Miss>
    requires { at ≤ length tokens.now }
    ensures found { IfOk result (λ x. IsBodyBehind TypeKind.Interface (name_of x.0) (map directive_view x.1.items) (body_view x.2) (from tokens.now at) (from tokens.now x.3)) }
    ensures within { IfOk result (λ x. (at < x.3) × (x.3 ≤ length tokens.now)) }
    ensures none { IfErr result (λ miss. miss ≢ Miss.NoMemory → LacksBehind TypeKind.Interface (from tokens.now at)) }
{
    let (name, directives, parts, end) = fielded(alloc, tokens, at)?;
    Ok((name, directives, TypeBody::Interface(parts), end))
}

fn union_type(
    alloc: Global,
    tokens: &[Token<'_>],
    at: usize,
) -> Result<(Name, Vec<Directive>, TypeBody, usize), Miss>
    requires { at ≤ length tokens.now }
    ensures found { IfOk result (λ x. IsBodyBehind TypeKind.Union (name_of x.0) (map directive_view x.1.items) (body_view x.2) (from tokens.now at) (from tokens.now x.3)) }
    ensures within { IfOk result (λ x. (at < x.3) × (x.3 ≤ length tokens.now)) }
    ensures none { IfErr result (λ miss. miss ≢ Miss.NoMemory → LacksBehind TypeKind.Union (from tokens.now at)) }
{
    let (name, directives, behind) = named(alloc, tokens, at)?;
    let (members, end) = members(alloc, tokens, behind)?;
    Ok((name, directives, TypeBody::Union(members), end))
}

fn enum_type(
    alloc: Global,
    tokens: &[Token<'_>],
    at: usize,
) -> Result<(Name, Vec<Directive>, TypeBody, usize), Miss>
    requires { at ≤ length tokens.now }
    ensures found { IfOk result (λ x. IsBodyBehind TypeKind.Enum (name_of x.0) (map directive_view x.1.items) (body_view x.2) (from tokens.now at) (from tokens.now x.3)) }
    ensures within { IfOk result (λ x. (at < x.3) × (x.3 ≤ length tokens.now)) }
    ensures none { IfErr result (λ miss. miss ≢ Miss.NoMemory → LacksBehind TypeKind.Enum (from tokens.now at)) }
{
    let (name, directives, behind) = named(alloc, tokens, at)?;
    let (values, end) = enum_values(alloc, tokens, behind)?;
    Ok((name, directives, TypeBody::Enum(values), end))
}

fn input_object(
    alloc: Global,
    tokens: &[Token<'_>],
    at: usize,
) -> Result<(Name, Vec<Directive>, TypeBody, usize), Miss>
    requires { at ≤ length tokens.now }
    ensures found { IfOk result (λ x. IsBodyBehind TypeKind.InputObject (name_of x.0) (map directive_view x.1.items) (body_view x.2) (from tokens.now at) (from tokens.now x.3)) }
    ensures within { IfOk result (λ x. (at < x.3) × (x.3 ≤ length tokens.now)) }
    ensures none { IfErr result (λ miss. miss ≢ Miss.NoMemory → LacksBehind TypeKind.InputObject (from tokens.now at)) }
{
    let (name, directives, behind) = named(alloc, tokens, at)?;
    let (fields, end) = input_values(alloc, Kind::BraceOpen, Kind::BraceClose, tokens, behind)?;
    Ok((name, directives, TypeBody::InputObject(fields), end))
}

// A name and directives.
fn named(
    alloc: Global,
    tokens: &[Token<'_>],
    at: usize,
) -> Result<(Name, Vec<Directive>, usize), Miss>
    requires { at ≤ length tokens.now }
    ensures found { IfOk result (λ x. IsNamed (name_of x.0) (map directive_view x.1.items) (from tokens.now at) (from tokens.now x.2)) }
    ensures within { IfOk result (λ x. (at < x.2) × (x.2 ≤ length tokens.now)) }
    ensures none { IfErr result (λ miss. miss ≢ Miss.NoMemory → LacksNamed (from tokens.now at)) }
{
    let (name, behind) = name(alloc, tokens, at)?;
    let (directives, end) = directives(alloc, true, tokens, behind)?;
    Ok((name, directives, end))
}

// A name, interfaces, directives and fields.
fn fielded(
    alloc: Global,
    tokens: &[Token<'_>],
    at: usize,
) -> Result<(Name, Vec<Directive>, FieldsAndInterfaces, usize), Miss>
    requires { at ≤ length tokens.now }
    ensures found { IfOk result (λ x. IsFielded (name_of x.0) (map name_of x.2.interfaces.items) (map directive_view x.1.items)
        (map field_definition_view x.2.fields.items) (from tokens.now at) (from tokens.now x.3)) }
    ensures within { IfOk result (λ x. (at < x.3) × (x.3 ≤ length tokens.now)) }
    ensures none { IfErr result (λ miss. miss ≢ Miss.NoMemory → LacksFielded (from tokens.now at)) }
{
    let (name, behind) = name(alloc, tokens, at)?;
    let (interfaces, behind) = implements(alloc, tokens, behind)?;
    let (directives, behind) = directives(alloc, true, tokens, behind)?;
    let (fields, end) = field_definitions(alloc, tokens, behind)?;
    let parts = FieldsAndInterfaces { interfaces, fields };
    Ok((name, directives, parts, end))
}
