//! Values and arguments, by descent. Each function answers the phrase that stands at an index, and the index behind it.
ghost use Rattle.std.specs.Prelude.{◌≡◌, ◌≢◌, ℕ, Bool, ◌+◌, ◌<◌, ◌≤◌, ◌++◌, ◌∷◌, [], List, length, map, IfOk, IfErr, OnOk, IfSome, IfNone};
ghost use Rattle.gq_text.specs.declared.place.Span.{Span};
ghost use Rattle.gq_lex.specs.declared.token.Kind.TheVariants as kind;
ghost use Rattle.gq_tree.specs.Plain.{Val, under};
ghost use Rattle.gq_tree.specs.Views.{name_of, value_view, entry_view, argument_view};
ghost use Rattle.gq_parse.specs.Grammar.{Tokens, covered, ManyUntil, IsArgument, IsArguments};
ghost use Rattle.gq_parse.specs.Helping.From.{from};
ghost use Rattle.gq_parse.specs.Helping.Phrases.{Begins, Lacks, IsVariable, IsLoneValue};

use crate::many::{Phrase, optional_many};
use crate::phrases::{Miss, covered, exact, keyword, name, punctuator, spelled, token_at};
use gq_lex::{Kind, Token};
use gq_tree::{Argument, Name, ObjectField, Value, Variable};
use std::alloc::Global;

/// A value; a constant one holds no variable.
#[cycle(value)]
pub(crate) fn value(
    alloc: Global,
    constant: bool,
    tokens: &[Token<'_>],
    at: usize,
) -> Result<(Value, usize), Miss>
    requires { at ≤ length tokens.now }
    ensures found { IfOk result (λ x. IsLoneValue constant (value_view x.0) (from tokens.now at) (from tokens.now x.1)) }
    ensures within { IfOk result (λ x. (at < x.1) × (x.1 ≤ length tokens.now)) }
    ensures none { IfErr result (λ miss. miss ≢ Miss.NoMemory → Lacks (IsLoneValue constant) (from tokens.now at)) }
{
    let Some(kind) = kind_at(tokens, at) else {
        return Err(Miss::NoPhrase { at });
    };
    match kind {
        Kind::Dollar => variable_value(alloc, constant, tokens, at),
        Kind::Int => int(alloc, tokens, at),
        Kind::Float => float(alloc, tokens, at),
        Kind::String => string(alloc, tokens, at),
        Kind::BlockString => block_string(alloc, tokens, at),
        Kind::Name => word(alloc, tokens, at),
        Kind::BracketOpen => list(alloc, constant, tokens, at),
        Kind::BraceOpen => object(alloc, constant, tokens, at),
        _ => Err(Miss::NoPhrase { at }),
    }
}

// What kind of token stands at an index.
fn kind_at(tokens: &[Token<'_>], at: usize) -> Option<Kind>
    ensures found { IfSome result (λ k. Begins k (from tokens.now at)) }
    ensures within { IfSome result (λ k. at < length tokens.now) }
    ensures none { IfNone result (from tokens.now at ≡ []) }
{
    let token = token_at(tokens, at)?;
    Some(token.kind)
}

/// A variable.
pub(crate) fn variable(
    alloc: Global,
    tokens: &[Token<'_>],
    at: usize,
) -> Result<(Variable, usize), Miss>
    ensures found { IfOk result (λ x. IsVariable (name_of x.0.name) (from tokens.now at) (from tokens.now x.1)) }
    ensures place { IfOk result (λ x. x.0.span ≡ covered (from tokens.now at) (from tokens.now x.1)) }
    ensures within { IfOk result (λ x. (at < x.1) × (x.1 ≤ length tokens.now)) }
    ensures none { IfErr result (λ miss. miss ≢ Miss.NoMemory → Lacks IsVariable (from tokens.now at)) }
{
    match punctuator(Kind::Dollar, tokens, at) {
        Some(behind) => {
            let (name, end) = name(alloc, tokens, behind)?;
            let span = covered(tokens, at, end);
            Ok((Variable { name, span }, end))
        }
        None => Err(Miss::NoPhrase { at }),
    }
}

fn variable_value(
    alloc: Global,
    constant: bool,
    tokens: &[Token<'_>],
    at: usize,
) -> Result<(Value, usize), Miss>
    requires { Begins kind.Dollar (from tokens.now at) }
    ensures found { IfOk result (λ x. IsLoneValue constant (value_view x.0) (from tokens.now at) (from tokens.now x.1)) }
    ensures within { IfOk result (λ x. (at < x.1) × (x.1 ≤ length tokens.now)) }
    ensures none { IfErr result (λ miss. miss ≢ Miss.NoMemory → Lacks (IsLoneValue constant) (from tokens.now at)) }
{
    if constant {
        return Err(Miss::NoPhrase { at });
    }
    let (variable, end) = variable(alloc, tokens, at)?;
    Ok((Value::Variable(variable), end))
}

fn int(alloc: Global, tokens: &[Token<'_>], at: usize) -> Result<(Value, usize), Miss>
    requires { Begins kind.Int (from tokens.now at) }
    ensures found { (constant : Bool) → IfOk result (λ x. IsLoneValue constant (value_view x.0) (from tokens.now at) (from tokens.now x.1)) }
    ensures within { IfOk result (λ x. (at < x.1) × (x.1 ≤ length tokens.now)) }
    ensures err { IfErr result (λ e. e ≡ Miss.NoMemory) }
{
    let (literal, end) = spelled(alloc, Kind::Int, tokens, at)?;
    Ok((Value::Int(literal), end))
}

fn float(alloc: Global, tokens: &[Token<'_>], at: usize) -> Result<(Value, usize), Miss>
    requires { Begins kind.Float (from tokens.now at) }
    ensures found { (constant : Bool) → IfOk result (λ x. IsLoneValue constant (value_view x.0) (from tokens.now at) (from tokens.now x.1)) }
    ensures within { IfOk result (λ x. (at < x.1) × (x.1 ≤ length tokens.now)) }
    ensures err { IfErr result (λ e. e ≡ Miss.NoMemory) }
{
    let (literal, end) = spelled(alloc, Kind::Float, tokens, at)?;
    Ok((Value::Float(literal), end))
}

fn string(alloc: Global, tokens: &[Token<'_>], at: usize) -> Result<(Value, usize), Miss>
    requires { Begins kind.String (from tokens.now at) }
    ensures found { (constant : Bool) → IfOk result (λ x. IsLoneValue constant (value_view x.0) (from tokens.now at) (from tokens.now x.1)) }
    ensures within { IfOk result (λ x. (at < x.1) × (x.1 ≤ length tokens.now)) }
    ensures err { IfErr result (λ e. e ≡ Miss.NoMemory) }
{
    let (literal, end) = spelled(alloc, Kind::String, tokens, at)?;
    Ok((Value::String(literal), end))
}

fn block_string(alloc: Global, tokens: &[Token<'_>], at: usize) -> Result<(Value, usize), Miss>
    requires { Begins kind.BlockString (from tokens.now at) }
    ensures found { (constant : Bool) → IfOk result (λ x. IsLoneValue constant (value_view x.0) (from tokens.now at) (from tokens.now x.1)) }
    ensures within { IfOk result (λ x. (at < x.1) × (x.1 ≤ length tokens.now)) }
    ensures err { IfErr result (λ e. e ≡ Miss.NoMemory) }
{
    let (literal, end) = spelled(alloc, Kind::BlockString, tokens, at)?;
    Ok((Value::String(literal), end))
}

// A boolean, null, or an enum value.
fn word(alloc: Global, tokens: &[Token<'_>], at: usize) -> Result<(Value, usize), Miss>
    requires { Begins kind.Name (from tokens.now at) }
    ensures found { (constant : Bool) → IfOk result (λ x. IsLoneValue constant (value_view x.0) (from tokens.now at) (from tokens.now x.1)) }
    ensures within { IfOk result (λ x. (at < x.1) × (x.1 ≤ length tokens.now)) }
    ensures err { IfErr result (λ e. e ≡ Miss.NoMemory) }
{
    if let Some((span, end)) = keyword("true", tokens, at) {
        return Ok((Value::Boolean { value: true, span }, end));
    }
    if let Some((span, end)) = keyword("false", tokens, at) {
        return Ok((Value::Boolean { value: false, span }, end));
    }
    if let Some((span, end)) = keyword("null", tokens, at) {
        return Ok((Value::Null { span }, end));
    }
    let (name, end) = name(alloc, tokens, at)?;
    Ok((Value::Enum(name), end))
}

// A list.
#[cycle(value)]
fn list(
    alloc: Global,
    constant: bool,
    tokens: &[Token<'_>],
    at: usize,
) -> Result<(Value, usize), Miss>
    requires within { at ≤ length tokens.now }
    requires begins { Begins kind.BracketOpen (from tokens.now at) }
    ensures found { IfOk result (λ x. IsLoneValue constant (value_view x.0) (from tokens.now at) (from tokens.now x.1)) }
    ensures within { IfOk result (λ x. (at < x.1) × (x.1 ≤ length tokens.now)) }
    ensures none { IfErr result (λ miss. miss ≢ Miss.NoMemory → Lacks (IsLoneValue constant) (from tokens.now at)) }
{
    match punctuator(Kind::BracketOpen, tokens, at) {
        Some(behind) => {
            let (items, end) = values(alloc, constant, tokens, behind)?;
            let span = covered(tokens, at, end);
            Ok((Value::List { items, span }, end))
        }
        None => Err(Miss::NoPhrase { at }),
    }
}

// Values, and the bracket that closes them.
#[cycle(value)]
fn values(
    alloc: Global,
    constant: bool,
    tokens: &[Token<'_>],
    start: usize,
) -> Result<(Vec<Value>, usize), Miss>
    requires { start ≤ length tokens.now }
    ensures found { IfOk result (λ x. ManyUntil (IsLoneValue constant) kind.BracketClose (map value_view x.0.items) (from tokens.now start) (from tokens.now x.1)) }
    ensures within { IfOk result (λ x. (start < x.1) × (x.1 ≤ length tokens.now)) }
    ensures none { IfErr result (λ miss. miss ≢ Miss.NoMemory → Lacks (ManyUntil (IsLoneValue constant) kind.BracketClose) (from tokens.now start)) }
{
    let mut items = Vec::new(alloc);
    let mut at = start;
    loop {
        if let Some(end) = punctuator(Kind::BracketClose, tokens, at) {
            let items = exact(alloc, items)?;
            return Ok((items, end));
        }
        let (one, behind) = value(alloc, constant, tokens, at)?;
        put_value(&mut items, one)?;
        at = behind;
    }
}

fn put_value(items: &mut Vec<Value>, one: Value) -> Result<(), Miss>
    ensures ok { OnOk result (map value_view items.new.items ≡ map value_view items.old.items ++ value_view one ∷ []) }
    ensures err { IfErr result (λ e. e ≡ Miss.NoMemory) }
{
    match items.push(one) {
        Ok(()) => Ok(()),
        Err(_) => Err(Miss::NoMemory),
    }
}

// An input object.
#[cycle(value)]
fn object(
    alloc: Global,
    constant: bool,
    tokens: &[Token<'_>],
    at: usize,
) -> Result<(Value, usize), Miss>
    requires within { at ≤ length tokens.now }
    requires begins { Begins kind.BraceOpen (from tokens.now at) }
    ensures found { IfOk result (λ x. IsLoneValue constant (value_view x.0) (from tokens.now at) (from tokens.now x.1)) }
    ensures within { IfOk result (λ x. (at < x.1) × (x.1 ≤ length tokens.now)) }
    ensures none { IfErr result (λ miss. miss ≢ Miss.NoMemory → Lacks (IsLoneValue constant) (from tokens.now at)) }
{
    match punctuator(Kind::BraceOpen, tokens, at) {
        Some(behind) => {
            let (fields, end) = object_fields(alloc, constant, tokens, behind)?;
            let span = covered(tokens, at, end);
            Ok((Value::Object { fields, span }, end))
        }
        None => Err(Miss::NoPhrase { at }),
    }
}

// The fields of an input object, and the brace that closes them.
#[cycle(value)]
fn object_fields(
    alloc: Global,
    constant: bool,
    tokens: &[Token<'_>],
    start: usize,
) -> Result<(Vec<ObjectField>, usize), Miss>
    requires { start ≤ length tokens.now }
    ensures found { IfOk result (λ x. ManyUntil (IsArgument constant) kind.BraceClose (map entry_view x.0.items) (from tokens.now start) (from tokens.now x.1)) }
    ensures within { IfOk result (λ x. (start < x.1) × (x.1 ≤ length tokens.now)) }
    ensures none { IfErr result (λ miss. miss ≢ Miss.NoMemory → Lacks (ManyUntil (IsArgument constant) kind.BraceClose) (from tokens.now start)) }
{
    let mut fields = Vec::new(alloc);
    let mut at = start;
    loop {
        if let Some(end) = punctuator(Kind::BraceClose, tokens, at) {
            let fields = exact(alloc, fields)?;
            return Ok((fields, end));
        }
        let (name, value, behind) = named_value(alloc, constant, tokens, at)?;
        put_field(&mut fields, ObjectField { name, value })?;
        at = behind;
    }
}

fn put_field(fields: &mut Vec<ObjectField>, one: ObjectField) -> Result<(), Miss>
    ensures ok { OnOk result (map entry_view fields.new.items ≡ map entry_view fields.old.items ++ entry_view one ∷ []) }
    ensures err { IfErr result (λ e. e ≡ Miss.NoMemory) }
{
    match fields.push(one) {
        Ok(()) => Ok(()),
        Err(_) => Err(Miss::NoMemory),
    }
}

// A name, a colon and a value.
#[cycle(value)]
fn named_value(
    alloc: Global,
    constant: bool,
    tokens: &[Token<'_>],
    at: usize,
) -> Result<(Name, Value, usize), Miss>
    requires { at ≤ length tokens.now }
    ensures found { IfOk result (λ x. IsArgument constant (under (name_of x.0) (value_view x.1)) (from tokens.now at) (from tokens.now x.2)) }
    ensures within { IfOk result (λ x. (at < x.2) × (x.2 ≤ length tokens.now)) }
    ensures none { IfErr result (λ miss. miss ≢ Miss.NoMemory → Lacks (IsArgument constant) (from tokens.now at)) }
{
    let (name, end) = name(alloc, tokens, at)?;
    match punctuator(Kind::Colon, tokens, end) {
        Some(behind) => {
            let (value, end) = value(alloc, constant, tokens, behind)?;
            Ok((name, value, end))
        }
        None => Err(Miss::NoPhrase { at: end }),
    }
}

// Arguments, as a sort of phrase. The value of a constant one holds no variable.
#[derive(Drop)]
struct ArgumentPhrase {
    constant: bool,
}

impl Phrase for ArgumentPhrase {
    type Item = Argument;

    ghost View = { Val Span };

    ghost view = { argument_view };

    ghost stands = { λ phrase. IsArgument phrase.constant };

    fn parse(
        &self,
        alloc: Global,
        tokens: &[Token<'_>],
        at: usize,
    ) -> Result<(Argument, usize), Miss> {
        let (name, value, end) = named_value(alloc, self.constant, tokens, at)?;
        Ok((Argument { name, value }, end))
    }
}

/// Arguments, or none where no parenthesis opens.
pub(crate) fn arguments(
    alloc: Global,
    constant: bool,
    tokens: &[Token<'_>],
    at: usize,
) -> Result<(Vec<Argument>, usize), Miss>
    requires { at ≤ length tokens.now }
    ensures found { IfOk result (λ x. IsArguments constant (map argument_view x.0.items) (from tokens.now at) (from tokens.now x.1)) }
    ensures within { IfOk result (λ x. (at ≤ x.1) × (x.1 ≤ length tokens.now)) }
    ensures none { IfErr result (λ miss. miss ≢ Miss.NoMemory → Lacks (IsArguments constant) (from tokens.now at)) }
{
    let phrase = ArgumentPhrase { constant };
    optional_many(
        &phrase,
        alloc,
        Kind::ParenOpen,
        Kind::ParenClose,
        tokens,
        at,
    )
}
