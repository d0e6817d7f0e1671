//! Names with a punctuator between them: the interfaces of a type and the members of a union. Each function answers the
//! phrase that stands at an index, and the index behind it.
ghost use Rattle.std.specs.Prelude.{◌≡◌, ◌≢◌, ◌+◌, ◌<◌, ◌≤◌, ◌++◌, ◌∷◌, [], length, map, IfOk, IfErr, OnOk};
ghost use Rattle.gq_tree.specs.Views.{name_of};
ghost use Rattle.gq_parse.specs.Grammar.{IsName};
ghost use Rattle.gq_parse.specs.TypeSystem.{Separated, Delimited, IsImplements, IsMembers};
ghost use Rattle.gq_parse.specs.Helping.From.{from};
ghost use Rattle.gq_parse.specs.Helping.Phrases.{Lacks};

use crate::phrases::{Miss, exact, keyword, name, punctuator};
use gq_lex::{Kind, Token};
use gq_tree::Name;
use std::alloc::Global;

/// The names of interfaces, or none where `implements` does not stand.
pub(crate) fn implements(
    alloc: Global,
    tokens: &[Token<'_>],
    at: usize,
) -> Result<(Vec<Name>, usize), Miss>
    requires { at ≤ length tokens.now }
    ensures found { IfOk result (λ x. IsImplements (map name_of x.0.items) (from tokens.now at) (from tokens.now x.1)) }
    ensures within { IfOk result (λ x. (at ≤ x.1) × (x.1 ≤ length tokens.now)) }
    ensures none { IfErr result (λ miss. miss ≢ Miss.NoMemory → Lacks IsImplements (from tokens.now at)) }
{
    match keyword("implements", tokens, at) {
        Some((_, behind)) => led_names(alloc, Kind::Ampersand, tokens, behind),
        None => Ok((Vec::new(alloc), at)),
    }
}

/// The names of a union's members, or none where no equals sign stands.
pub(crate) fn members(
    alloc: Global,
    tokens: &[Token<'_>],
    at: usize,
) -> Result<(Vec<Name>, usize), Miss>
    requires { at ≤ length tokens.now }
    ensures found { IfOk result (λ x. IsMembers (map name_of x.0.items) (from tokens.now at) (from tokens.now x.1)) }
    ensures within { IfOk result (λ x. (at ≤ x.1) × (x.1 ≤ length tokens.now)) }
    ensures none { IfErr result (λ miss. miss ≢ Miss.NoMemory → Lacks IsMembers (from tokens.now at)) }
{
    match punctuator(Kind::Equals, tokens, at) {
        Some(behind) => led_names(alloc, Kind::Pipe, tokens, behind),
        None => Ok((Vec::new(alloc), at)),
    }
}

// Names with this punctuator between them, and before the first one too where it stands there.
fn led_names(
    alloc: Global,
    between: Kind,
    tokens: &[Token<'_>],
    at: usize,
) -> Result<(Vec<Name>, usize), Miss>
    requires { at ≤ length tokens.now }
    ensures found { IfOk result (λ x. Delimited IsName between (map name_of x.0.items) (from tokens.now at) (from tokens.now x.1)) }
    ensures within { IfOk result (λ x. (at < x.1) × (x.1 ≤ length tokens.now)) }
    ensures none { IfErr result (λ miss. miss ≢ Miss.NoMemory → Lacks (Delimited IsName between) (from tokens.now at)) }
{
    match punctuator(between, tokens, at) {
        Some(behind) => separated_names(alloc, between, tokens, behind),
        None => separated_names(alloc, between, tokens, at),
    }
}

fn separated_names(
    alloc: Global,
    between: Kind,
    tokens: &[Token<'_>],
    start: usize,
) -> Result<(Vec<Name>, usize), Miss>
    requires { start ≤ length tokens.now }
    ensures found { IfOk result (λ x. Separated IsName between (map name_of x.0.items) (from tokens.now start) (from tokens.now x.1)) }
    ensures within { IfOk result (λ x. (start < x.1) × (x.1 ≤ length tokens.now)) }
    ensures none { IfErr result (λ miss. miss ≢ Miss.NoMemory → Lacks (Separated IsName between) (from tokens.now start)) }
{
    let mut names = Vec::new(alloc);
    let mut at = start;
    loop {
        let (one, end) = name(alloc, tokens, at)?;
        put_name(&mut names, one)?;
        match punctuator(between, tokens, end) {
            Some(behind) => at = behind,
            None => {
                let names = exact(alloc, names)?;
                return Ok((names, end));
            }
        }
    }
}

fn put_name(names: &mut Vec<Name>, one: Name) -> Result<(), Miss>
    ensures ok { OnOk result (map name_of names.new.items ≡ map name_of names.old.items ++ name_of one ∷ []) }
    ensures err { IfErr result (λ e. e ≡ Miss.NoMemory) }
{
    match names.push(one) {
        Ok(()) => Ok(()),
        Err(_) => Err(Miss::NoMemory),
    }
}
