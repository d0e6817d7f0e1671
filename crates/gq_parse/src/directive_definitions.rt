//! The definitions of directives. Each function answers the phrase that stands at an index, and the index behind it.
ghost use Rattle.std.specs.Prelude.{◌≡◌, ◌≢◌, ◌+◌, ◌<◌, ◌≤◌, ◌++◌, ◌∷◌, [], length, IfOk, IfErr, OnOk, IfSome, IfNone};
ghost use Rattle.std.specs.Option.{option_map};
ghost use Rattle.gq_lex.specs.declared.token.Kind.TheVariants as kind;
ghost use Rattle.gq_tree.specs.Views.{literal_view, type_system_view};
ghost use Rattle.gq_parse.specs.TypeSystem.{Separated, Delimited, IsLocation, IsRepeatable};
ghost use Rattle.gq_parse.specs.Helping.From.{from};
ghost use Rattle.gq_parse.specs.Helping.Phrases.{Lacks};
ghost use Rattle.gq_parse.specs.Helping.Locations.{executable_location, type_system_location, location_named};
ghost use Rattle.gq_parse.specs.Helping.Parts.{IsDirectiveDescribed};

use crate::fields::input_values;
use crate::phrases::{Miss, covered, keyword, name, punctuator, token_at};
use gq_lex::{Kind, Token};
use gq_tree::{DirectiveDefinition, DirectiveLocation, Literal, TypeSystemDefinition};
use std::alloc::Global;

/// The definition of a directive whose description began at the first index, from its keyword on.
pub(crate) fn directive_definition(
    alloc: Global,
    tokens: &[Token<'_>],
    first: usize,
    description: Option<Literal>,
    at: usize,
) -> Result<(TypeSystemDefinition, usize), Miss>
    requires { (first ≤ at) × (at ≤ length tokens.now) }
    ensures found { IfOk result (λ x. IsDirectiveDescribed (from tokens.now first) (option_map literal_view description) (type_system_view x.0) (from tokens.now at) (from tokens.now x.1)) }
    ensures within { IfOk result (λ x. (at < x.1) × (x.1 ≤ length tokens.now)) }
    ensures none { IfErr result (λ miss. miss ≢ Miss.NoMemory → Lacks (IsDirectiveDescribed (from tokens.now first) (option_map literal_view description)) (from tokens.now at)) }
{
    let Some((_, end)) = keyword("directive", tokens, at) else {
        return Err(Miss::NoPhrase { at });
    };
    let Some(behind) = punctuator(Kind::At, tokens, end) else {
        return Err(Miss::NoPhrase { at: end });
    };
    let (name, behind) = name(alloc, tokens, behind)?;
    let (arguments, end) = input_values(alloc, Kind::ParenOpen, Kind::ParenClose, tokens, behind)?;
    let Some((repeatable, behind)) = repeatable(tokens, end) else {
        return Err(Miss::NoPhrase { at: end });
    };
    let (locations, end) = led_locations(alloc, tokens, behind)?;
    let span = covered(tokens, first, end);
    let definition = DirectiveDefinition {
        description,
        name,
        arguments,
        repeatable,
        locations,
        span,
    };
    Ok((TypeSystemDefinition::Directive(definition), end))
}

// Whether `repeatable` stands before `on`.
fn repeatable(tokens: &[Token<'_>], at: usize) -> Option<(bool, usize)>
    ensures found { IfSome result (λ x. IsRepeatable x.0 (from tokens.now at) (from tokens.now x.1)) }
    ensures within { IfSome result (λ x. (at < x.1) × (x.1 ≤ length tokens.now)) }
    ensures none { IfNone result (Lacks IsRepeatable (from tokens.now at)) }
{
    if let Some((_, end)) = keyword("on", tokens, at) {
        return Some((false, end));
    }
    let (_, behind) = keyword("repeatable", tokens, at)?;
    let (_, end) = keyword("on", tokens, behind)?;
    Some((true, end))
}

// Locations with `|` between them, and before the first one too where it stands there.
fn led_locations(
    alloc: Global,
    tokens: &[Token<'_>],
    at: usize,
) -> Result<(Vec<DirectiveLocation>, usize), Miss>
    requires { at ≤ length tokens.now }
    ensures found { IfOk result (λ x. Delimited IsLocation kind.Pipe x.0.items (from tokens.now at) (from tokens.now x.1)) }
    ensures within { IfOk result (λ x. (at < x.1) × (x.1 ≤ length tokens.now)) }
    ensures none { IfErr result (λ miss. miss ≢ Miss.NoMemory → Lacks (Delimited IsLocation kind.Pipe) (from tokens.now at)) }
{
    match punctuator(Kind::Pipe, tokens, at) {
        Some(behind) => separated_locations(alloc, tokens, behind),
        None => separated_locations(alloc, tokens, at),
    }
}

fn separated_locations(
    alloc: Global,
    tokens: &[Token<'_>],
    start: usize,
) -> Result<(Vec<DirectiveLocation>, usize), Miss>
    requires { start ≤ length tokens.now }
    ensures found { IfOk result (λ x. Separated IsLocation kind.Pipe x.0.items (from tokens.now start) (from tokens.now x.1)) }
    ensures within { IfOk result (λ x. (start < x.1) × (x.1 ≤ length tokens.now)) }
    ensures none { IfErr result (λ miss. miss ≢ Miss.NoMemory → Lacks (Separated IsLocation kind.Pipe) (from tokens.now start)) }
{
    let mut locations = Vec::new(alloc);
    let mut at = start;
    loop {
        let Some((one, end)) = location(tokens, at) else {
            return Err(Miss::NoPhrase { at });
        };
        put_location(&mut locations, one)?;
        match punctuator(Kind::Pipe, tokens, end) {
            Some(behind) => at = behind,
            None => {
                locations.shrink_to_fit();
                return Ok((locations, end));
            }
        }
    }
}

fn put_location(locations: &mut Vec<DirectiveLocation>, one: DirectiveLocation) -> Result<(), Miss>
    ensures ok { OnOk result (locations.new.items ≡ locations.old.items ++ one ∷ []) }
    ensures err { IfErr result (λ e. e ≡ Miss.NoMemory) }
{
    match locations.push(one) {
        Ok(()) => Ok(()),
        Err(_) => Err(Miss::NoMemory),
    }
}

// The location of a directive.
fn location(tokens: &[Token<'_>], at: usize) -> Option<(DirectiveLocation, usize)>
    ensures found { IfSome result (λ x. IsLocation x.0 (from tokens.now at) (from tokens.now x.1)) }
    ensures within { IfSome result (λ x. (at < x.1) × (x.1 ≤ length tokens.now)) }
    ensures none { IfNone result (Lacks IsLocation (from tokens.now at)) }
{
    let end = punctuator(Kind::Name, tokens, at)?;
    let token = token_at(tokens, at)?;
    let location = location_named(token.text)?;
    Some((location, end))
}

fn location_named(word: &str) -> Option<DirectiveLocation>
    ensures { result ≡ location_named word.now }
{
    match executable_location(word) {
        Some(location) => Some(location),
        None => type_system_location(word),
    }
}

fn executable_location(word: &str) -> Option<DirectiveLocation>
    ensures { result ≡ executable_location word.now }
{
    if word == "QUERY" {
        Some(DirectiveLocation::Query)
    } else if word == "MUTATION" {
        Some(DirectiveLocation::Mutation)
    } else if word == "SUBSCRIPTION" {
        Some(DirectiveLocation::Subscription)
    } else if word == "FIELD" {
        Some(DirectiveLocation::Field)
    } else if word == "FRAGMENT_DEFINITION" {
        Some(DirectiveLocation::FragmentDefinition)
    } else if word == "FRAGMENT_SPREAD" {
        Some(DirectiveLocation::FragmentSpread)
    } else if word == "INLINE_FRAGMENT" {
        Some(DirectiveLocation::InlineFragment)
    } else if word == "VARIABLE_DEFINITION" {
        Some(DirectiveLocation::VariableDefinition)
    } else {
        None
    }
}

fn type_system_location(word: &str) -> Option<DirectiveLocation>
    ensures { result ≡ type_system_location word.now }
{
    if word == "SCHEMA" {
        Some(DirectiveLocation::Schema)
    } else if word == "SCALAR" {
        Some(DirectiveLocation::Scalar)
    } else if word == "OBJECT" {
        Some(DirectiveLocation::Object)
    } else if word == "FIELD_DEFINITION" {
        Some(DirectiveLocation::FieldDefinition)
    } else if word == "ARGUMENT_DEFINITION" {
        Some(DirectiveLocation::ArgumentDefinition)
    } else if word == "INTERFACE" {
        Some(DirectiveLocation::Interface)
    } else if word == "UNION" {
        Some(DirectiveLocation::Union)
    } else if word == "ENUM" {
        Some(DirectiveLocation::Enum)
    } else if word == "ENUM_VALUE" {
        Some(DirectiveLocation::EnumValue)
    } else if word == "INPUT_OBJECT" {
        Some(DirectiveLocation::InputObject)
    } else if word == "INPUT_FIELD_DEFINITION" {
        Some(DirectiveLocation::InputFieldDefinition)
    } else {
        None
    }
}
