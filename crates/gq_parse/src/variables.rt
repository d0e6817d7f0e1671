//! Definitions of variables. Each function answers the phrase that stands at an index, and the index behind it.
ghost use Rattle.std.specs.Prelude.{◌≢◌, ◌<◌, ◌≤◌, length, map, IfOk, IfErr};
ghost use Rattle.std.specs.Option.{option_map};
ghost use Rattle.gq_text.specs.declared.place.Span.{Span};
ghost use Rattle.gq_lex.specs.declared.token.Kind.TheVariants as kind;
ghost use Rattle.gq_tree.specs.Plain.{VariableOf};
ghost use Rattle.gq_tree.specs.Views.{value_view, variable_view};
ghost use Rattle.gq_parse.specs.Grammar.{IsDefaultValue, IsVariableDefinition, IsVariableDefinitions};
ghost use Rattle.gq_parse.specs.Helping.From.{from};
ghost use Rattle.gq_parse.specs.Helping.Phrases.{Lacks};

use crate::directives::directives;
use crate::many::{Phrase, optional_many};
use crate::phrases::{Miss, punctuator};
use crate::types::type_ref;
use crate::values::{value, variable};
use gq_lex::{Kind, Token};
use gq_tree::{Value, VariableDefinition};
use std::alloc::Global;

/// The definitions of variables, or none where no parenthesis opens.
pub(crate) fn variable_definitions(
    alloc: Global,
    tokens: &[Token<'_>],
    at: usize,
) -> Result<(Vec<VariableDefinition>, usize), Miss>
    requires { at ≤ length tokens.now }
    ensures found { IfOk result (λ x. IsVariableDefinitions (map variable_view x.0.items) (from tokens.now at) (from tokens.now x.1)) }
    ensures within { IfOk result (λ x. (at ≤ x.1) × (x.1 ≤ length tokens.now)) }
    ensures none { IfErr result (λ miss. miss ≢ Miss.NoMemory → Lacks IsVariableDefinitions (from tokens.now at)) }
{
    optional_many(
        &VariablePhrase,
        alloc,
        Kind::ParenOpen,
        Kind::ParenClose,
        tokens,
        at,
    )
}

// Definitions of variables, as a sort of phrase.
#[derive(Drop)]
struct VariablePhrase;

impl Phrase for VariablePhrase {
    type Item = VariableDefinition;

    ghost View = { VariableOf Span };

    ghost view = { variable_view };

    ghost stands = { λ _. IsVariableDefinition };

    fn parse(
        &self,
        alloc: Global,
        tokens: &[Token<'_>],
        at: usize,
    ) -> Result<(VariableDefinition, usize), Miss> {
        variable_definition(alloc, tokens, at)
    }
}

// The definition of a variable. Its default value and its directives are constant.
fn variable_definition(
    alloc: Global,
    tokens: &[Token<'_>],
    at: usize,
) -> Result<(VariableDefinition, usize), Miss>
    requires { at ≤ length tokens.now }
    ensures found { IfOk result (λ x. IsVariableDefinition (variable_view x.0) (from tokens.now at) (from tokens.now x.1)) }
    ensures within { IfOk result (λ x. (at < x.1) × (x.1 ≤ length tokens.now)) }
    ensures none { IfErr result (λ miss. miss ≢ Miss.NoMemory → Lacks IsVariableDefinition (from tokens.now at)) }
{
    let (variable, end) = variable(alloc, tokens, at)?;
    let Some(behind) = punctuator(Kind::Colon, tokens, end) else {
        return Err(Miss::NoPhrase { at: end });
    };
    let (type_ref, behind) = type_ref(alloc, tokens, behind)?;
    let (default, behind) = default_value(alloc, tokens, behind)?;
    let (directives, end) = directives(alloc, true, tokens, behind)?;
    let one = VariableDefinition {
        variable,
        type_ref,
        default,
        directives,
    };
    Ok((one, end))
}

/// A default value, which holds no variable, or none where no equals sign stands.
pub(crate) fn default_value(
    alloc: Global,
    tokens: &[Token<'_>],
    at: usize,
) -> Result<(Option<Value>, usize), Miss>
    requires { at ≤ length tokens.now }
    ensures found { IfOk result (λ x. IsDefaultValue (option_map value_view x.0) (from tokens.now at) (from tokens.now x.1)) }
    ensures within { IfOk result (λ x. (at ≤ x.1) × (x.1 ≤ length tokens.now)) }
    ensures none { IfErr result (λ miss. miss ≢ Miss.NoMemory → Lacks IsDefaultValue (from tokens.now at)) }
{
    match punctuator(Kind::Equals, tokens, at) {
        Some(behind) => {
            let (value, end) = value(alloc, true, tokens, behind)?;
            Ok((Some(value), end))
        }
        None => Ok((None, at)),
    }
}
