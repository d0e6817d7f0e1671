//! Directives. Each function answers the phrase that stands at an index, and the index behind it.
ghost use Rattle.std.specs.Prelude.{◌≡◌, ◌≢◌, ◌+◌, ◌<◌, ◌≤◌, ◌++◌, ◌∷◌, [], length, map, IfOk, IfErr, OnOk};
ghost use Rattle.gq_tree.specs.Views.{directive_view};
ghost use Rattle.gq_parse.specs.Grammar.{IsDirectives};
ghost use Rattle.gq_parse.specs.Helping.From.{from};
ghost use Rattle.gq_parse.specs.Helping.Phrases.{Lacks, IsDirective};

use crate::phrases::{Miss, covered, exact, name, punctuator};
use crate::values::arguments;
use gq_lex::{Kind, Token};
use gq_tree::Directive;
use std::alloc::Global;

/// Directives, as many as stand here; constant ones hold no variable.
pub(crate) fn directives(
    alloc: Global,
    constant: bool,
    tokens: &[Token<'_>],
    start: usize,
) -> Result<(Vec<Directive>, usize), Miss>
    requires { start ≤ length tokens.now }
    ensures found { IfOk result (λ x. IsDirectives constant (map directive_view x.0.items) (from tokens.now start) (from tokens.now x.1)) }
    ensures within { IfOk result (λ x. (start ≤ x.1) × (x.1 ≤ length tokens.now)) }
    ensures none { IfErr result (λ miss. miss ≢ Miss.NoMemory → Lacks (IsDirectives constant) (from tokens.now start)) }
{
    let mut directives = Vec::new(alloc);
    let mut at = start;
    while punctuator(Kind::At, tokens, at).is_some() {
        let (one, behind) = directive(alloc, constant, tokens, at)?;
        put_directive(&mut directives, one)?;
        at = behind;
    }
    let directives = exact(alloc, directives)?;
    Ok((directives, at))
}

fn put_directive(directives: &mut Vec<Directive>, one: Directive) -> Result<(), Miss>
    ensures ok { OnOk result (map directive_view directives.new.items ≡ map directive_view directives.old.items ++ directive_view one ∷ []) }
    ensures err { IfErr result (λ e. e ≡ Miss.NoMemory) }
{
    match directives.push(one) {
        Ok(()) => Ok(()),
        Err(_) => Err(Miss::NoMemory),
    }
}

// A directive.
fn directive(
    alloc: Global,
    constant: bool,
    tokens: &[Token<'_>],
    at: usize,
) -> Result<(Directive, usize), Miss>
    requires { at ≤ length tokens.now }
    ensures found { IfOk result (λ x. IsDirective constant (directive_view x.0) (from tokens.now at) (from tokens.now x.1)) }
    ensures within { IfOk result (λ x. (at < x.1) × (x.1 ≤ length tokens.now)) }
    ensures none { IfErr result (λ miss. miss ≢ Miss.NoMemory → Lacks (IsDirective constant) (from tokens.now at)) }
{
    let Some(behind) = punctuator(Kind::At, tokens, at) else {
        return Err(Miss::NoPhrase { at });
    };
    let (name, behind) = name(alloc, tokens, behind)?;
    let (arguments, end) = arguments(alloc, constant, tokens, behind)?;
    let span = covered(tokens, at, end);
    Ok((
        Directive {
            name,
            arguments,
            span,
        },
        end,
    ))
}
