//! Definitions, by descent. Each function answers the phrase that stands at an index, and the index behind it.
ghost use Rattle.std.specs.Prelude.{◌≡◌, ◌≢◌, true, false, ◌+◌, ◌<◌, ◌≤◌, ◌++◌, ◌∷◌, [], IfOk, IfErr, OnOk, IfSome, IfNone, length, List, map};
ghost use Rattle.std.specs.Arc.{arc_value};
ghost use Rattle.gq_text.specs.declared.place.Span.{Span};
ghost use Rattle.gq_tree.specs.Plain.{Def};
ghost use Rattle.gq_tree.specs.Views.{def_view, document_view};
ghost use Rattle.gq_parse.specs.Grammar.{IsOperationType, IsOperationDefinition, IsFragmentDefinition};
ghost use Rattle.gq_parse.specs.Documents.{IsDefinition, IsDocument};
ghost use Rattle.gq_parse.specs.Helping.From.{from};
ghost use Rattle.gq_parse.specs.Helping.Phrases.{Lacks};
ghost use Rattle.gq_parse.specs.Helping.Parts.{IsTypeSystem, IsOperationOrTypeSystem};

use crate::directives::directives;
use crate::phrases::{
    Miss, covered, fragment_name, keyword, operation_type, optional_name, punctuator,
    type_condition,
};
use crate::selections::selection_set;
use crate::type_system::type_system_definition;
use crate::variables::variable_definitions;
use gq_lex::{Kind, Token};
use gq_tree::{Definition, Document, Fragment, Operation, OperationKind, TypeSystemDefinition};
use std::alloc::Global;
use std::sync::Arc;

/// All tokens as a document.
pub(crate) fn document(alloc: Global, tokens: &[Token<'_>]) -> Result<Document, Miss>
    ensures found { IfOk result (λ d. IsDocument (document_view d) (from tokens.now 0)) }
    ensures none { IfErr result (λ miss. miss ≢ Miss.NoMemory → (ds : List (Def Span)) → IsDocument ds (from tokens.now 0) → ⊥) }
{
    let mut definitions = Vec::new(alloc);
    let mut at = 0;
    while at < tokens.len() {
        let (one, end) = definition(alloc, tokens, at)?;
        put_definition(&mut definitions, one)?;
        at = end;
    }
    definitions.shrink_to_fit();
    Ok(Document { definitions })
}

fn put_definition(definitions: &mut Vec<Definition>, one: Definition) -> Result<(), Miss>
    ensures ok { OnOk result (map def_view definitions.new.items ≡ map def_view definitions.old.items ++ def_view one ∷ []) }
    ensures err { IfErr result (λ e. e ≡ Miss.NoMemory) }
{
    match definitions.push(one) {
        Ok(()) => Ok(()),
        Err(_) => Err(Miss::NoMemory),
    }
}

// An operation, a fragment, or a definition or extension of the type system.
fn definition(alloc: Global, tokens: &[Token<'_>], at: usize) -> Result<(Definition, usize), Miss>
    requires { at ≤ length tokens.now }
    ensures found { IfOk result (λ x. IsDefinition (def_view x.0) (from tokens.now at) (from tokens.now x.1)) }
    ensures within { IfOk result (λ x. (at < x.1) × (x.1 ≤ length tokens.now)) }
    ensures none { IfErr result (λ miss. miss ≢ Miss.NoMemory → Lacks IsDefinition (from tokens.now at)) }
{
    match keyword("fragment", tokens, at) {
        Some(_) => fragment(alloc, tokens, at),
        None => operation_or_type_system(alloc, tokens, at),
    }
}

fn operation_or_type_system(
    alloc: Global,
    tokens: &[Token<'_>],
    at: usize,
) -> Result<(Definition, usize), Miss>
    requires { at ≤ length tokens.now }
    ensures found { IfOk result (λ x. IsOperationOrTypeSystem (def_view x.0) (from tokens.now at) (from tokens.now x.1)) }
    ensures within { IfOk result (λ x. (at < x.1) × (x.1 ≤ length tokens.now)) }
    ensures none { IfErr result (λ miss. miss ≢ Miss.NoMemory → Lacks IsOperationOrTypeSystem (from tokens.now at)) }
{
    if begins_operation(tokens, at) {
        operation(alloc, tokens, at)
    } else {
        type_system(alloc, tokens, at)
    }
}

// Whether what an operation begins with stands here, which nothing of the type system does.
fn begins_operation(tokens: &[Token<'_>], at: usize) -> bool
    ensures yes { result ≡ true → Lacks IsTypeSystem (from tokens.now at) }
    ensures no { result ≡ false → Lacks IsOperationDefinition (from tokens.now at) }
{
    match punctuator(Kind::BraceOpen, tokens, at) {
        Some(_) => true,
        None => operation_type(tokens, at).is_some(),
    }
}

// A definition or extension of the type system.
fn type_system(alloc: Global, tokens: &[Token<'_>], at: usize) -> Result<(Definition, usize), Miss>
    requires { at ≤ length tokens.now }
    ensures found { IfOk result (λ x. IsTypeSystem (def_view x.0) (from tokens.now at) (from tokens.now x.1)) }
    ensures within { IfOk result (λ x. (at < x.1) × (x.1 ≤ length tokens.now)) }
    ensures none { IfErr result (λ miss. miss ≢ Miss.NoMemory → Lacks IsTypeSystem (from tokens.now at)) }
{
    let (definition, end) = type_system_definition(alloc, tokens, at)?;
    let definition = shared(alloc, definition)?;
    Ok((Definition::TypeSystem(definition), end))
}

// The definition, which may have several owners then.
fn shared(
    alloc: Global,
    definition: TypeSystemDefinition,
) -> Result<Arc<TypeSystemDefinition>, Miss>
    ensures ok { IfOk result (λ shared. arc_value shared ≡ definition) }
    ensures err { IfErr result (λ miss. miss ≡ Miss.NoMemory) }
{
    match Arc::new(alloc, definition) {
        Ok(shared) => Ok(shared),
        Err(_) => Err(Miss::NoMemory),
    }
}

// An operation.
fn operation(alloc: Global, tokens: &[Token<'_>], at: usize) -> Result<(Definition, usize), Miss>
    requires { at ≤ length tokens.now }
    ensures found { IfOk result (λ x. IsOperationDefinition (def_view x.0) (from tokens.now at) (from tokens.now x.1)) }
    ensures within { IfOk result (λ x. (at < x.1) × (x.1 ≤ length tokens.now)) }
    ensures none { IfErr result (λ miss. miss ≢ Miss.NoMemory → Lacks IsOperationDefinition (from tokens.now at)) }
{
    match operation_type(tokens, at) {
        Some((kind, behind)) => typed_operation(alloc, tokens, at, kind, behind),
        None => bare_operation(alloc, tokens, at),
    }
}

// An operation without its type: a selection set, where no such keyword stands.
fn bare_operation(
    alloc: Global,
    tokens: &[Token<'_>],
    at: usize,
) -> Result<(Definition, usize), Miss>
    requires within { at ≤ length tokens.now }
    requires no_type { Lacks IsOperationType (from tokens.now at) }
    ensures found { IfOk result (λ x. IsOperationDefinition (def_view x.0) (from tokens.now at) (from tokens.now x.1)) }
    ensures within { IfOk result (λ x. (at < x.1) × (x.1 ≤ length tokens.now)) }
    ensures none { IfErr result (λ miss. miss ≢ Miss.NoMemory → Lacks IsOperationDefinition (from tokens.now at)) }
{
    let (set, end) = selection_set(alloc, tokens, at)?;
    let span = set.span;
    let bare = Operation {
        kind: OperationKind::Query,
        name: None,
        variables: Vec::new(alloc),
        directives: Vec::new(alloc),
        set,
        span,
    };
    Ok((Definition::Operation(bare), end))
}

// An operation, from its type to where it goes on behind that.
fn typed_operation(
    alloc: Global,
    tokens: &[Token<'_>],
    at: usize,
    kind: OperationKind,
    behind: usize,
) -> Result<(Definition, usize), Miss>
    requires begins { IsOperationType kind (from tokens.now at) (from tokens.now behind) }
    requires within { (at < behind) × (behind ≤ length tokens.now) }
    ensures found { IfOk result (λ x. IsOperationDefinition (def_view x.0) (from tokens.now at) (from tokens.now x.1)) }
    ensures within { IfOk result (λ x. (at < x.1) × (x.1 ≤ length tokens.now)) }
    ensures none { IfErr result (λ miss. miss ≢ Miss.NoMemory → Lacks IsOperationDefinition (from tokens.now at)) }
{
    let (name, behind) = optional_name(alloc, tokens, behind)?;
    let (variables, behind) = variable_definitions(alloc, tokens, behind)?;
    let (directives, behind) = directives(alloc, false, tokens, behind)?;
    let (set, end) = selection_set(alloc, tokens, behind)?;
    let span = covered(tokens, at, end);
    let typed = Operation {
        kind,
        name,
        variables,
        directives,
        set,
        span,
    };
    Ok((Definition::Operation(typed), end))
}

// A fragment definition.
fn fragment(alloc: Global, tokens: &[Token<'_>], at: usize) -> Result<(Definition, usize), Miss>
    requires { at ≤ length tokens.now }
    ensures found { IfOk result (λ x. IsFragmentDefinition (def_view x.0) (from tokens.now at) (from tokens.now x.1)) }
    ensures within { IfOk result (λ x. (at < x.1) × (x.1 ≤ length tokens.now)) }
    ensures none { IfErr result (λ miss. miss ≢ Miss.NoMemory → Lacks IsFragmentDefinition (from tokens.now at)) }
{
    let Some((_, behind)) = keyword("fragment", tokens, at) else {
        return Err(Miss::NoPhrase { at });
    };
    let (name, behind) = fragment_name(alloc, tokens, behind)?;
    let (on, behind) = type_condition(alloc, tokens, behind)?;
    let (directives, behind) = directives(alloc, false, tokens, behind)?;
    let (set, end) = selection_set(alloc, tokens, behind)?;
    let span = covered(tokens, at, end);
    let fragment = Fragment {
        name,
        on,
        directives,
        set,
        span,
    };
    Ok((Definition::Fragment(fragment), end))
}
