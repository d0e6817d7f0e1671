//! Descriptions, and what fields, arguments and the values of an enum are defined by. Each function answers the phrase
//! that stands at an index, and the index behind it.
ghost use Rattle.std.specs.Prelude.{◌≡◌, ◌≢◌, ◌||◌, ◌⊎◌, codes, ◌<◌, ◌≤◌, length, map, IfOk, IfErr};
ghost use Rattle.std.specs.Str.{bytes_eq};
ghost use Rattle.std.specs.Option.{option_map};
ghost use Rattle.gq_text.specs.declared.place.Span.{Span};
ghost use Rattle.gq_lex.specs.declared.token.Kind.TheVariants as kind;
ghost use Rattle.gq_tree.specs.Plain.{InputOf, FieldDefinitionOf, EnumValueOf};
ghost use Rattle.gq_tree.specs.Views.{literal_view, input_view, field_definition_view, enum_value_view};
ghost use Rattle.gq_parse.specs.Grammar.{NotNext, OptionalMany};
ghost use Rattle.gq_parse.specs.TypeSystem.{IsDescription, IsInputValue, IsFieldDefinition, IsFieldsDefinition, IsEnumValueDefinition};
ghost use Rattle.gq_parse.specs.Helping.From.{from};
ghost use Rattle.gq_parse.specs.Helping.Phrases.{Lacks};

use crate::directives::directives;
use crate::many::{Phrase, optional_many};
use crate::phrases::{Miss, name, punctuator, spelled};
use crate::types::type_ref;
use crate::variables::default_value;
use gq_lex::{Kind, Token};
use gq_tree::{EnumValueDefinition, FieldDefinition, InputValueDefinition, Literal};
use std::alloc::Global;

/// A description, or none where no string stands.
pub(crate) fn description(
    alloc: Global,
    tokens: &[Token<'_>],
    at: usize,
) -> Result<(Option<Literal>, usize), Miss>
    requires { at ≤ length tokens.now }
    ensures found { IfOk result (λ x. IsDescription (option_map literal_view x.0) (from tokens.now at) (from tokens.now x.1)) }
    ensures within { IfOk result (λ x. (at ≤ x.1) × (x.1 ≤ length tokens.now)) }
    ensures err { IfErr result (λ e. e ≡ Miss.NoMemory) }
{
    match punctuator(Kind::String, tokens, at) {
        Some(_) => {
            let (text, end) = spelled(alloc, Kind::String, tokens, at)?;
            Ok((Some(text), end))
        }
        None => block_description(alloc, tokens, at),
    }
}

fn block_description(
    alloc: Global,
    tokens: &[Token<'_>],
    at: usize,
) -> Result<(Option<Literal>, usize), Miss>
    requires within { at ≤ length tokens.now }
    requires no_string { NotNext kind.String (from tokens.now at) }
    ensures found { IfOk result (λ x. IsDescription (option_map literal_view x.0) (from tokens.now at) (from tokens.now x.1)) }
    ensures within { IfOk result (λ x. (at ≤ x.1) × (x.1 ≤ length tokens.now)) }
    ensures err { IfErr result (λ e. e ≡ Miss.NoMemory) }
{
    match punctuator(Kind::BlockString, tokens, at) {
        Some(_) => {
            let (text, end) = spelled(alloc, Kind::BlockString, tokens, at)?;
            Ok((Some(text), end))
        }
        None => Ok((None, at)),
    }
}

// Definitions of arguments and of input fields, as a sort of phrase.
#[derive(Drop)]
struct InputPhrase;

impl Phrase for InputPhrase {
    type Item = InputValueDefinition;

    ghost View = { InputOf Span };

    ghost view = { input_view };

    ghost stands = { λ _. IsInputValue };

    fn parse(
        &self,
        alloc: Global,
        tokens: &[Token<'_>],
        at: usize,
    ) -> Result<(InputValueDefinition, usize), Miss> {
        input_value(alloc, tokens, at)
    }
}

// The definition of an argument or of an input field.
fn input_value(
    alloc: Global,
    tokens: &[Token<'_>],
    at: usize,
) -> Result<(InputValueDefinition, usize), Miss>
    requires { at ≤ length tokens.now }
    ensures found { IfOk result (λ x. IsInputValue (input_view x.0) (from tokens.now at) (from tokens.now x.1)) }
    ensures within { IfOk result (λ x. (at < x.1) × (x.1 ≤ length tokens.now)) }
    ensures none { IfErr result (λ miss. miss ≢ Miss.NoMemory → Lacks IsInputValue (from tokens.now at)) }
{
    let (description, behind) = description(alloc, tokens, at)?;
    let (name, end) = name(alloc, tokens, behind)?;
    let Some(behind) = punctuator(Kind::Colon, tokens, end) else {
        return Err(Miss::NoPhrase { at: end });
    };
    let (type_ref, behind) = type_ref(alloc, tokens, behind)?;
    let (default, behind) = default_value(alloc, tokens, behind)?;
    let (directives, end) = directives(alloc, true, tokens, behind)?;
    let one = InputValueDefinition {
        description,
        name,
        type_ref,
        default,
        directives,
    };
    Ok((one, end))
}

/// Definitions of arguments or of input fields between these two punctuators, or none where the first does not stand.
pub(crate) fn input_values(
    alloc: Global,
    opening: Kind,
    closing: Kind,
    tokens: &[Token<'_>],
    at: usize,
) -> Result<(Vec<InputValueDefinition>, usize), Miss>
    requires within { at ≤ length tokens.now }
    requires closing { (closing ≡ kind.ParenClose) ⊎ (closing ≡ kind.BraceClose) }
    ensures found { IfOk result (λ x. OptionalMany IsInputValue opening closing (map input_view x.0.items) (from tokens.now at) (from tokens.now x.1)) }
    ensures within { IfOk result (λ x. (at ≤ x.1) × (x.1 ≤ length tokens.now)) }
    ensures none { IfErr result (λ miss. miss ≢ Miss.NoMemory → Lacks (OptionalMany IsInputValue opening closing) (from tokens.now at)) }
{
    optional_many(&InputPhrase, alloc, opening, closing, tokens, at)
}

// Definitions of fields, as a sort of phrase.
#[derive(Drop)]
struct FieldPhrase;

impl Phrase for FieldPhrase {
    type Item = FieldDefinition;

    ghost View = { FieldDefinitionOf Span };

    ghost view = { field_definition_view };

    ghost stands = { λ _. IsFieldDefinition };

    fn parse(
        &self,
        alloc: Global,
        tokens: &[Token<'_>],
        at: usize,
    ) -> Result<(FieldDefinition, usize), Miss> {
        field_definition(alloc, tokens, at)
    }
}

// The definition of a field.
fn field_definition(
    alloc: Global,
    tokens: &[Token<'_>],
    at: usize,
) -> Result<(FieldDefinition, usize), Miss>
    requires { at ≤ length tokens.now }
    ensures found { IfOk result (λ x. IsFieldDefinition (field_definition_view x.0) (from tokens.now at) (from tokens.now x.1)) }
    ensures within { IfOk result (λ x. (at < x.1) × (x.1 ≤ length tokens.now)) }
    ensures none { IfErr result (λ miss. miss ≢ Miss.NoMemory → Lacks IsFieldDefinition (from tokens.now at)) }
{
    let (description, behind) = description(alloc, tokens, at)?;
    let (name, behind) = name(alloc, tokens, behind)?;
    let (arguments, end) = input_values(alloc, Kind::ParenOpen, Kind::ParenClose, tokens, behind)?;
    let Some(behind) = punctuator(Kind::Colon, tokens, end) else {
        return Err(Miss::NoPhrase { at: end });
    };
    let (type_ref, behind) = type_ref(alloc, tokens, behind)?;
    let (directives, end) = directives(alloc, true, tokens, behind)?;
    let one = FieldDefinition {
        description,
        name,
        arguments,
        type_ref,
        directives,
    };
    Ok((one, end))
}

/// Definitions of fields in braces, or none where no brace opens.
pub(crate) fn field_definitions(
    alloc: Global,
    tokens: &[Token<'_>],
    at: usize,
) -> Result<(Vec<FieldDefinition>, usize), Miss>
    requires { at ≤ length tokens.now }
    ensures found { IfOk result (λ x. IsFieldsDefinition (map field_definition_view x.0.items) (from tokens.now at) (from tokens.now x.1)) }
    ensures within { IfOk result (λ x. (at ≤ x.1) × (x.1 ≤ length tokens.now)) }
    ensures none { IfErr result (λ miss. miss ≢ Miss.NoMemory → Lacks IsFieldsDefinition (from tokens.now at)) }
{
    optional_many(
        &FieldPhrase,
        alloc,
        Kind::BraceOpen,
        Kind::BraceClose,
        tokens,
        at,
    )
}

// Definitions of the values of an enum, as a sort of phrase.
#[derive(Drop)]
struct EnumValuePhrase;

impl Phrase for EnumValuePhrase {
    type Item = EnumValueDefinition;

    ghost View = { EnumValueOf Span };

    ghost view = { enum_value_view };

    ghost stands = { λ _. IsEnumValueDefinition };

    fn parse(
        &self,
        alloc: Global,
        tokens: &[Token<'_>],
        at: usize,
    ) -> Result<(EnumValueDefinition, usize), Miss> {
        enum_value(alloc, tokens, at)
    }
}

// The definition of a value of an enum, whose name is none of true, false and null.
fn enum_value(
    alloc: Global,
    tokens: &[Token<'_>],
    at: usize,
) -> Result<(EnumValueDefinition, usize), Miss>
    requires { at ≤ length tokens.now }
    ensures found { IfOk result (λ x. IsEnumValueDefinition (enum_value_view x.0) (from tokens.now at) (from tokens.now x.1)) }
    ensures within { IfOk result (λ x. (at < x.1) × (x.1 ≤ length tokens.now)) }
    ensures none { IfErr result (λ miss. miss ≢ Miss.NoMemory → Lacks IsEnumValueDefinition (from tokens.now at)) }
{
    let (description, start) = description(alloc, tokens, at)?;
    let (name, behind) = name(alloc, tokens, start)?;
    if is_value_word(name.text.as_str()) {
        return Err(Miss::NoPhrase { at: start });
    }
    let (directives, end) = directives(alloc, true, tokens, behind)?;
    let one = EnumValueDefinition {
        description,
        name,
        directives,
    };
    Ok((one, end))
}

fn is_value_word(word: &str) -> bool
    ensures { result ≡ (bytes_eq word.now (codes "true") || bytes_eq word.now (codes "false") || bytes_eq word.now (codes "null")) }
{
    word == "true" || word == "false" || word == "null"
}

/// Definitions of the values of an enum in braces, or none where no brace opens.
pub(crate) fn enum_values(
    alloc: Global,
    tokens: &[Token<'_>],
    at: usize,
) -> Result<(Vec<EnumValueDefinition>, usize), Miss>
    requires { at ≤ length tokens.now }
    ensures found { IfOk result (λ x. OptionalMany IsEnumValueDefinition kind.BraceOpen kind.BraceClose (map enum_value_view x.0.items) (from tokens.now at) (from tokens.now x.1)) }
    ensures within { IfOk result (λ x. (at ≤ x.1) × (x.1 ≤ length tokens.now)) }
    ensures none { IfErr result (λ miss. miss ≢ Miss.NoMemory → Lacks (OptionalMany IsEnumValueDefinition kind.BraceOpen kind.BraceClose) (from tokens.now at)) }
{
    optional_many(
        &EnumValuePhrase,
        alloc,
        Kind::BraceOpen,
        Kind::BraceClose,
        tokens,
        at,
    )
}
