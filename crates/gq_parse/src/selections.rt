//! Selection sets, by descent. Each function answers the phrase that stands at an index, and the index behind it.
ghost use Rattle.std.specs.Prelude.{◌≡◌, ◌≢◌, true, false, ◌+◌, ◌<◌, ◌≤◌, ◌++◌, ◌∷◌, [], IfOk, IfErr, OnOk, Option, length, map};
ghost use Rattle.gq_text.specs.declared.place.Span.{Span};
ghost use Rattle.gq_lex.specs.declared.token.Kind.TheVariants as kind;
ghost use Rattle.gq_tree.specs.Plain.{NameOf, Sels};
ghost use Rattle.gq_tree.specs.Views.{name_of, alias_of, sel_view, sels_view, below_of, braces_of};
ghost use Rattle.gq_parse.specs.Grammar.{Tokens, covered, ManyUntil, NotNext, IsPunctuator, IsFragmentName, IsOptionalCondition, IsFieldName, IsOptionalSet, IsSelectionSet};
ghost use Rattle.gq_parse.specs.Helping.From.{from};
ghost use Rattle.gq_parse.specs.Helping.Phrases.{Lacks, IsSel};

use crate::directives::directives;
use crate::phrases::{
    Miss, boxed, covered, exact, fragment_name, keyword, name, optional_condition, punctuator,
};
use crate::values::arguments;
use gq_lex::{Kind, Token};
use gq_tree::{Field, InlineFragment, Name, Selection, SelectionSet, Spread};
use std::alloc::Global;

/// A selection set.
#[cycle(set)]
pub(crate) fn selection_set(
    alloc: Global,
    tokens: &[Token<'_>],
    at: usize,
) -> Result<(SelectionSet, usize), Miss>
    requires { at ≤ length tokens.now }
    ensures found { IfOk result (λ x. IsSelectionSet (sels_view x.0.items.items) (from tokens.now at) (from tokens.now x.1)) }
    ensures place { IfOk result (λ x. x.0.span ≡ covered (from tokens.now at) (from tokens.now x.1)) }
    ensures within { IfOk result (λ x. (at < x.1) × (x.1 ≤ length tokens.now)) }
    ensures none { IfErr result (λ miss. miss ≢ Miss.NoMemory → Lacks IsSelectionSet (from tokens.now at)) }
{
    let Some(behind) = punctuator(Kind::BraceOpen, tokens, at) else {
        return Err(Miss::NoPhrase { at });
    };
    let (items, end) = selections(alloc, tokens, behind)?;
    if items.is_empty() {
        return Err(Miss::NoPhrase { at: behind });
    }
    let span = covered(tokens, at, end);
    Ok((SelectionSet { span, items }, end))
}

// A selection set, or none where no brace opens.
#[cycle(set)]
fn optional_set(
    alloc: Global,
    tokens: &[Token<'_>],
    at: usize,
) -> Result<(Option<Box<SelectionSet>>, usize), Miss>
    requires { at ≤ length tokens.now }
    ensures found { IfOk result (λ x. IsOptionalSet (braces_of x.0) (below_of x.0) (from tokens.now at) (from tokens.now x.1)) }
    ensures within { IfOk result (λ x. (at ≤ x.1) × (x.1 ≤ length tokens.now)) }
    ensures none { IfErr result (λ miss. miss ≢ Miss.NoMemory → (o : Option Span) (ss : Sels Span) (rest : Tokens) → IsOptionalSet o ss (from tokens.now at) rest → ⊥) }
{
    match punctuator(Kind::BraceOpen, tokens, at) {
        Some(_) => {
            let (set, end) = selection_set(alloc, tokens, at)?;
            let set = boxed(alloc, set)?;
            Ok((Some(set), end))
        }
        None => Ok((None, at)),
    }
}

// Selections, and the brace that closes them.
#[cycle(set)]
fn selections(
    alloc: Global,
    tokens: &[Token<'_>],
    start: usize,
) -> Result<(Vec<Selection>, usize), Miss>
    requires { start ≤ length tokens.now }
    ensures found { IfOk result (λ x. ManyUntil IsSel kind.BraceClose (map sel_view x.0.items) (from tokens.now start) (from tokens.now x.1)) }
    ensures within { IfOk result (λ x. (start < x.1) × (x.1 ≤ length tokens.now)) }
    ensures none { IfErr result (λ miss. miss ≢ Miss.NoMemory → Lacks (ManyUntil IsSel kind.BraceClose) (from tokens.now start)) }
{
    let mut items = Vec::new(alloc);
    let mut at = start;
    loop {
        if let Some(end) = punctuator(Kind::BraceClose, tokens, at) {
            let items = exact(alloc, items)?;
            return Ok((items, end));
        }
        let (one, behind) = selection(alloc, tokens, at)?;
        put_selection(&mut items, one)?;
        at = behind;
    }
}

fn put_selection(items: &mut Vec<Selection>, one: Selection) -> Result<(), Miss>
    ensures ok { OnOk result (map sel_view items.new.items ≡ map sel_view items.old.items ++ sel_view one ∷ []) }
    ensures err { IfErr result (λ e. e ≡ Miss.NoMemory) }
{
    match items.push(one) {
        Ok(()) => Ok(()),
        Err(_) => Err(Miss::NoMemory),
    }
}

// A field, a fragment spread or an inline fragment.
#[cycle(set)]
fn selection(alloc: Global, tokens: &[Token<'_>], at: usize) -> Result<(Selection, usize), Miss>
    requires { at ≤ length tokens.now }
    ensures found { IfOk result (λ x. IsSel (sel_view x.0) (from tokens.now at) (from tokens.now x.1)) }
    ensures within { IfOk result (λ x. (at < x.1) × (x.1 ≤ length tokens.now)) }
    ensures none { IfErr result (λ miss. miss ≢ Miss.NoMemory → Lacks IsSel (from tokens.now at)) }
{
    match punctuator(Kind::Spread, tokens, at) {
        Some(behind) => {
            if names_fragment(tokens, behind) {
                spread(alloc, tokens, at, behind)
            } else {
                inline_fragment(alloc, tokens, at, behind)
            }
        }
        None => field(alloc, tokens, at),
    }
}

// Whether a fragment's name stands at an index: a name, but not `on`.
fn names_fragment(tokens: &[Token<'_>], at: usize) -> bool
    ensures yes { result ≡ true → Lacks IsOptionalCondition (from tokens.now at) }
    ensures no { result ≡ false → Lacks IsFragmentName (from tokens.now at) }
{
    match punctuator(Kind::Name, tokens, at) {
        Some(_) => keyword("on", tokens, at).is_none(),
        None => false,
    }
}

// A field, where no dots stand.
#[cycle(set)]
fn field(alloc: Global, tokens: &[Token<'_>], at: usize) -> Result<(Selection, usize), Miss>
    requires within { at ≤ length tokens.now }
    requires no_dots { NotNext kind.Spread (from tokens.now at) }
    ensures found { IfOk result (λ x. IsSel (sel_view x.0) (from tokens.now at) (from tokens.now x.1)) }
    ensures within { IfOk result (λ x. (at < x.1) × (x.1 ≤ length tokens.now)) }
    ensures none { IfErr result (λ miss. miss ≢ Miss.NoMemory → Lacks IsSel (from tokens.now at)) }
{
    let (alias, name, behind) = field_name(alloc, tokens, at)?;
    let (arguments, behind) = arguments(alloc, false, tokens, behind)?;
    let (directives, behind) = directives(alloc, false, tokens, behind)?;
    let (set, end) = optional_set(alloc, tokens, behind)?;
    let span = covered(tokens, at, end);
    let field = Field {
        alias,
        name,
        arguments,
        directives,
        set,
        span,
    };
    Ok((Selection::Field(field), end))
}

// The name of a field, behind its alias and a colon where it has one.
fn field_name(
    alloc: Global,
    tokens: &[Token<'_>],
    at: usize,
) -> Result<(Option<Box<Name>>, Name, usize), Miss>
    ensures found { IfOk result (λ x. IsFieldName (alias_of x.0) (name_of x.1) (from tokens.now at) (from tokens.now x.2)) }
    ensures within { IfOk result (λ x. (at < x.2) × (x.2 ≤ length tokens.now)) }
    ensures none { IfErr result (λ miss. miss ≢ Miss.NoMemory → (alias : Option (NameOf Span)) (n : NameOf Span) (rest : Tokens) → IsFieldName alias n (from tokens.now at) rest → ⊥) }
{
    let (first, end) = name(alloc, tokens, at)?;
    match punctuator(Kind::Colon, tokens, end) {
        Some(behind) => {
            let (second, end) = name(alloc, tokens, behind)?;
            let alias = boxed(alloc, first)?;
            Ok((Some(alias), second, end))
        }
        None => Ok((None, first, end)),
    }
}

// A fragment spread, from its dots to where it goes on behind them.
fn spread(
    alloc: Global,
    tokens: &[Token<'_>],
    at: usize,
    behind: usize,
) -> Result<(Selection, usize), Miss>
    requires dots { IsPunctuator kind.Spread (from tokens.now at) (from tokens.now behind) }
    requires within { (at < behind) × (behind ≤ length tokens.now) }
    requires no_condition { Lacks IsOptionalCondition (from tokens.now behind) }
    ensures found { IfOk result (λ x. IsSel (sel_view x.0) (from tokens.now at) (from tokens.now x.1)) }
    ensures within { IfOk result (λ x. (at < x.1) × (x.1 ≤ length tokens.now)) }
    ensures none { IfErr result (λ miss. miss ≢ Miss.NoMemory → Lacks IsSel (from tokens.now at)) }
{
    let (name, behind) = fragment_name(alloc, tokens, behind)?;
    let (directives, end) = directives(alloc, false, tokens, behind)?;
    let span = covered(tokens, at, end);
    let spread = Spread {
        name,
        directives,
        span,
    };
    Ok((Selection::Spread(spread), end))
}

// An inline fragment, from its dots to where it goes on behind them.
#[cycle(set)]
fn inline_fragment(
    alloc: Global,
    tokens: &[Token<'_>],
    at: usize,
    behind: usize,
) -> Result<(Selection, usize), Miss>
    requires dots { IsPunctuator kind.Spread (from tokens.now at) (from tokens.now behind) }
    requires within { (at < behind) × (behind ≤ length tokens.now) }
    requires no_name { Lacks IsFragmentName (from tokens.now behind) }
    ensures found { IfOk result (λ x. IsSel (sel_view x.0) (from tokens.now at) (from tokens.now x.1)) }
    ensures within { IfOk result (λ x. (at < x.1) × (x.1 ≤ length tokens.now)) }
    ensures none { IfErr result (λ miss. miss ≢ Miss.NoMemory → Lacks IsSel (from tokens.now at)) }
{
    let (on, behind) = optional_condition(alloc, tokens, behind)?;
    let (directives, behind) = directives(alloc, false, tokens, behind)?;
    let (set, end) = selection_set(alloc, tokens, behind)?;
    let span = covered(tokens, at, end);
    let inline = InlineFragment {
        on,
        directives,
        set,
        span,
    };
    Ok((Selection::Inline(inline), end))
}
