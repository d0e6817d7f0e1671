//! Schemas, from their keyword on. Each function answers the phrase that stands at an index, and the index behind it.
ghost use Rattle.std.specs.Prelude.{◌≢◌, ◌<◌, ◌≤◌, length, map, IfOk, IfErr};
ghost use Rattle.gq_text.specs.declared.place.Span.{Span};
ghost use Rattle.gq_lex.specs.declared.token.Kind.TheVariants as kind;
ghost use Rattle.gq_tree.specs.Plain.{RootOf};
ghost use Rattle.gq_tree.specs.Views.{directive_view, root_view};
ghost use Rattle.gq_parse.specs.Grammar.{OptionalMany};
ghost use Rattle.gq_parse.specs.TypeSystem.{IsRoot, IsSchema};
ghost use Rattle.gq_parse.specs.Helping.From.{from};
ghost use Rattle.gq_parse.specs.Helping.Phrases.{Lacks};
ghost use Rattle.gq_parse.specs.Helping.Parts.{LacksSchema};

use crate::directives::directives;
use crate::many::{Phrase, optional_many};
use crate::phrases::{Miss, keyword, name, operation_type, punctuator};
use gq_lex::{Kind, Token};
use gq_tree::{Directive, RootOperationType};
use std::alloc::Global;

/// A schema from its keyword on: its directives and its root operation types, of which there may be none.
pub(crate) fn schema(
    alloc: Global,
    tokens: &[Token<'_>],
    at: usize,
) -> Result<(Vec<Directive>, Vec<RootOperationType>, usize), Miss>
    requires { at ≤ length tokens.now }
    ensures found { IfOk result (λ x. IsSchema (map directive_view x.0.items) (map root_view x.1.items) (from tokens.now at) (from tokens.now x.2)) }
    ensures within { IfOk result (λ x. (at < x.2) × (x.2 ≤ length tokens.now)) }
    ensures none { IfErr result (λ miss. miss ≢ Miss.NoMemory → LacksSchema (from tokens.now at)) }
{
    let Some((_, behind)) = keyword("schema", tokens, at) else {
        return Err(Miss::NoPhrase { at });
    };
    let (directives, behind) = directives(alloc, true, tokens, behind)?;
    let (roots, end) = roots(alloc, tokens, behind)?;
    Ok((directives, roots, end))
}

// Root operation types in braces, or none where no brace opens.
fn roots(
    alloc: Global,
    tokens: &[Token<'_>],
    at: usize,
) -> Result<(Vec<RootOperationType>, usize), Miss>
    requires { at ≤ length tokens.now }
    ensures found { IfOk result (λ x. OptionalMany IsRoot kind.BraceOpen kind.BraceClose (map root_view x.0.items) (from tokens.now at) (from tokens.now x.1)) }
    ensures within { IfOk result (λ x. (at ≤ x.1) × (x.1 ≤ length tokens.now)) }
    ensures none { IfErr result (λ miss. miss ≢ Miss.NoMemory → Lacks (OptionalMany IsRoot kind.BraceOpen kind.BraceClose) (from tokens.now at)) }
{
    optional_many(
        &RootPhrase,
        alloc,
        Kind::BraceOpen,
        Kind::BraceClose,
        tokens,
        at,
    )
}

// Types of root operations, as a sort of phrase.
#[derive(Drop)]
struct RootPhrase;

impl Phrase for RootPhrase {
    type Item = RootOperationType;

    ghost View = { RootOf Span };

    ghost view = { root_view };

    ghost stands = { λ _. IsRoot };

    fn parse(
        &self,
        alloc: Global,
        tokens: &[Token<'_>],
        at: usize,
    ) -> Result<(RootOperationType, usize), Miss> {
        root(alloc, tokens, at)
    }
}

// The type of a root operation.
fn root(alloc: Global, tokens: &[Token<'_>], at: usize) -> Result<(RootOperationType, usize), Miss>
    requires { at ≤ length tokens.now }
    ensures found { IfOk result (λ x. IsRoot (root_view x.0) (from tokens.now at) (from tokens.now x.1)) }
    ensures within { IfOk result (λ x. (at < x.1) × (x.1 ≤ length tokens.now)) }
    ensures none { IfErr result (λ miss. miss ≢ Miss.NoMemory → Lacks IsRoot (from tokens.now at)) }
{
    let Some((kind, end)) = operation_type(tokens, at) else {
        return Err(Miss::NoPhrase { at });
    };
    let Some(behind) = punctuator(Kind::Colon, tokens, end) else {
        return Err(Miss::NoPhrase { at: end });
    };
    let (name, end) = name(alloc, tokens, behind)?;
    Ok((RootOperationType { kind, name }, end))
}
