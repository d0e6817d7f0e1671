//! The phrases of one token or a few: names, keywords and punctuators.
ghost use Rattle.std.specs.Prelude.{◌≡◌, ◌≢◌, ℕ, ◌+◌, ◌<◌, ◌≤◌, [], ◌∷◌, List, length, IfOk, IfErr, IfSome, IfNone, MatchOption, Option};
ghost use Rattle.std.specs.Option.{option_map};
ghost use Rattle.gq_text.specs.declared.place.Span.{Span};
ghost use Rattle.gq_lex.specs.Tokens.{lexeme_of};
ghost use Rattle.gq_tree.specs.Plain.{NameOf};
ghost use Rattle.gq_tree.specs.Views.{name_of};
ghost use Rattle.gq_parse.specs.Grammar.{Tokens, covered, IsPunctuator, IsSpelled, IsName, IsKeyword, IsFragmentName, IsTypeCondition, IsOptionalCondition, IsOptionalName, IsOperationType, NotNext};
ghost use Rattle.gq_parse.specs.Helping.From.{from};
ghost use Rattle.gq_parse.specs.Helping.Phrases.{Lacks};

use gq_lex::{Kind, Token};
use gq_text::{SmallText, Span};
use gq_tree::{Literal, Name, OperationKind};
use std::alloc::Global;

/// Why a phrase is not given.
#[derive(Clone, Copy, Debug, PartialEq, Eq)]
pub(crate) enum Miss {
    /// None stands here; `at` is the index of the first token that fits none.
    NoPhrase { at: usize },
    NoMemory,
}

/// The token at an index.
pub(crate) fn token_at<'a>(tokens: &[Token<'a>], at: usize) -> Option<Token<'a>>
    ensures cases { MatchOption result (from tokens.now at ≡ []) (λ x. from tokens.now at ≡ lexeme_of x ∷ from tokens.now (at + 1)) }
    ensures within { IfSome result (λ x. at < length tokens.now) }
{
    tokens.get(at).copied()
}

/// The index behind a token of this kind.
pub(crate) fn punctuator(kind: Kind, tokens: &[Token<'_>], at: usize) -> Option<usize>
    ensures found { IfSome result (λ end. IsPunctuator kind (from tokens.now at) (from tokens.now end)) }
    ensures within { IfSome result (λ end. (at < end) × (end ≤ length tokens.now)) }
    ensures none { IfNone result (NotNext kind (from tokens.now at)) }
{
    let token = token_at(tokens, at)?;
    if token.kind == kind {
        Some(at + 1)
    } else {
        None
    }
}

/// The place of a name that is this word, and the index behind it.
pub(crate) fn keyword(word: &str, tokens: &[Token<'_>], at: usize) -> Option<(Span, usize)>
    ensures found { IfSome result (λ x. IsKeyword word.now x.0 (from tokens.now at) (from tokens.now x.1)) }
    ensures within { IfSome result (λ x. (at < x.1) × (x.1 ≤ length tokens.now)) }
    ensures none { IfNone result (Lacks (IsKeyword word.now) (from tokens.now at)) }
{
    let token = token_at(tokens, at)?;
    if token.kind == Kind::Name && token.text == word {
        Some((token.span, at + 1))
    } else {
        None
    }
}

/// A token of this kind with its spelling, and the index behind it.
pub(crate) fn spelled(
    alloc: Global,
    kind: Kind,
    tokens: &[Token<'_>],
    at: usize,
) -> Result<(Literal, usize), Miss>
    ensures found { IfOk result (λ x. IsSpelled kind x.0.text x.0.span (from tokens.now at) (from tokens.now x.1)) }
    ensures within { IfOk result (λ x. (at < x.1) × (x.1 ≤ length tokens.now)) }
    ensures none { IfErr result (λ miss. miss ≢ Miss.NoMemory → NotNext kind (from tokens.now at)) }
{
    match token_at(tokens, at) {
        Some(token) => {
            if token.kind == kind {
                Ok((copied(alloc, token)?, at + 1))
            } else {
                Err(Miss::NoPhrase { at })
            }
        }
        None => Err(Miss::NoPhrase { at }),
    }
}

// The spelling of a token.
fn copied(alloc: Global, token: Token<'_>) -> Result<Literal, Miss>
    ensures ok { IfOk result (λ n. (n.text ≡ token.entry.text.now) × (n.span ≡ token.entry.span)) }
    ensures err { IfErr result (λ e. e ≡ Miss.NoMemory) }
{
    match SmallText::from_str(alloc, token.text) {
        Ok(text) => Ok(Literal {
            text,
            span: token.span,
        }),
        Err(_) => Err(Miss::NoMemory),
    }
}

/// The value, in a box.
pub(crate) fn boxed<T: Drop>(alloc: Global, inner: T) -> Result<Box<T>, Miss>
    ensures ok { IfOk result (λ b. b.value ≡ inner) }
    ensures err { IfErr result (λ e. e ≡ Miss.NoMemory) }
{
    match Box::new(alloc, inner) {
        Ok(inner) => Ok(inner),
        Err(_) => Err(Miss::NoMemory),
    }
}

/// A name, and the index behind it.
pub(crate) fn name(alloc: Global, tokens: &[Token<'_>], at: usize) -> Result<(Name, usize), Miss>
    ensures found { IfOk result (λ x. IsName (name_of x.0) (from tokens.now at) (from tokens.now x.1)) }
    ensures within { IfOk result (λ x. (at < x.1) × (x.1 ≤ length tokens.now)) }
    ensures none { IfErr result (λ miss. miss ≢ Miss.NoMemory → NotNext Kind.Name (from tokens.now at)) }
{
    let (Literal { text, span }, end) = spelled(alloc, Kind::Name, tokens, at)?;
    Ok((Name { text, span }, end))
}

/// A name, or none where none stands, and the index behind it.
pub(crate) fn optional_name(
    alloc: Global,
    tokens: &[Token<'_>],
    at: usize,
) -> Result<(Option<Name>, usize), Miss>
    requires { at ≤ length tokens.now }
    ensures found { IfOk result (λ x. IsOptionalName (option_map name_of x.0) (from tokens.now at) (from tokens.now x.1)) }
    ensures within { IfOk result (λ x. (at ≤ x.1) × (x.1 ≤ length tokens.now)) }
    ensures none { IfErr result (λ miss. miss ≢ Miss.NoMemory → Lacks IsOptionalName (from tokens.now at)) }
{
    match punctuator(Kind::Name, tokens, at) {
        Some(_) => {
            let (name, end) = name(alloc, tokens, at)?;
            Ok((Some(name), end))
        }
        None => Ok((None, at)),
    }
}

/// A fragment's name, which is not `on`, and the index behind it.
pub(crate) fn fragment_name(
    alloc: Global,
    tokens: &[Token<'_>],
    at: usize,
) -> Result<(Name, usize), Miss>
    ensures found { IfOk result (λ x. IsFragmentName (name_of x.0) (from tokens.now at) (from tokens.now x.1)) }
    ensures within { IfOk result (λ x. (at < x.1) × (x.1 ≤ length tokens.now)) }
    ensures none { IfErr result (λ miss. miss ≢ Miss.NoMemory → Lacks IsFragmentName (from tokens.now at)) }
{
    let (name, end) = name(alloc, tokens, at)?;
    if name.text.as_str() == "on" {
        return Err(Miss::NoPhrase { at });
    }
    Ok((name, end))
}

/// The name in a type condition, and the index behind it.
pub(crate) fn type_condition(
    alloc: Global,
    tokens: &[Token<'_>],
    at: usize,
) -> Result<(Name, usize), Miss>
    ensures found { IfOk result (λ x. IsTypeCondition (name_of x.0) (from tokens.now at) (from tokens.now x.1)) }
    ensures within { IfOk result (λ x. (at < x.1) × (x.1 ≤ length tokens.now)) }
    ensures none { IfErr result (λ miss. miss ≢ Miss.NoMemory → Lacks IsTypeCondition (from tokens.now at)) }
{
    match keyword("on", tokens, at) {
        Some((_, behind)) => {
            let (on, end) = name(alloc, tokens, behind)?;
            Ok((on, end))
        }
        None => Err(Miss::NoPhrase { at }),
    }
}

/// The name in a type condition, or none where no name stands, and the index behind it.
pub(crate) fn optional_condition(
    alloc: Global,
    tokens: &[Token<'_>],
    at: usize,
) -> Result<(Option<Name>, usize), Miss>
    requires { at ≤ length tokens.now }
    ensures found { IfOk result (λ x. IsOptionalCondition (option_map name_of x.0) (from tokens.now at) (from tokens.now x.1)) }
    ensures within { IfOk result (λ x. (at ≤ x.1) × (x.1 ≤ length tokens.now)) }
    ensures none { IfErr result (λ miss. miss ≢ Miss.NoMemory → Lacks IsOptionalCondition (from tokens.now at)) }
{
    match punctuator(Kind::Name, tokens, at) {
        Some(_) => {
            let (on, end) = type_condition(alloc, tokens, at)?;
            Ok((Some(on), end))
        }
        None => Ok((None, at)),
    }
}

/// The type of an operation, and the index behind it.
pub(crate) fn operation_type(tokens: &[Token<'_>], at: usize) -> Option<(OperationKind, usize)>
    ensures found { IfSome result (λ x. IsOperationType x.0 (from tokens.now at) (from tokens.now x.1)) }
    ensures within { IfSome result (λ x. (at < x.1) × (x.1 ≤ length tokens.now)) }
    ensures none { IfNone result (Lacks IsOperationType (from tokens.now at)) }
{
    if let Some((_, end)) = keyword("query", tokens, at) {
        return Some((OperationKind::Query, end));
    }
    if let Some((_, end)) = keyword("mutation", tokens, at) {
        return Some((OperationKind::Mutation, end));
    }
    if let Some((_, end)) = keyword("subscription", tokens, at) {
        return Some((OperationKind::Subscription, end));
    }
    None
}

/// From the start of the token at one index to the end of the last one before the other.
pub(crate) fn covered(tokens: &[Token<'_>], at: usize, end: usize) -> Span
    requires { (at < end) × (end ≤ length tokens.now) }
    ensures { result ≡ covered (from tokens.now at) (from tokens.now end) }
{
    Span {
        start: tokens[at].span.start,
        end: tokens[end - 1].span.end,
    }
}

/// The most items that are moved to a list of their own.
const FEW: usize = 64;

/// The same items in a list that has no room to spare. What a few stood in is given back whole, and the next list grows in it: a list that
/// shrinks leaves a hole behind it. Many stay where they are, since a copy of them would take as much memory once more.
pub(crate) fn exact<T: Drop>(alloc: Global, mut items: Vec<T>) -> Result<Vec<T>, Miss>
    ensures ok { IfOk result (λ x. x.items ≡ items.items) }
    ensures err { IfErr result (λ e. e ≡ Miss.NoMemory) }
{
    if items.len() > FEW {
        items.shrink_to_fit();
        return Ok(items);
    }
    let Ok(mut exact) = Vec::with_capacity(alloc, items.len()) else {
        return Err(Miss::NoMemory);
    };
    match exact.append(&mut items) {
        Ok(()) => Ok(exact),
        Err(_) => Err(Miss::NoMemory),
    }
}
