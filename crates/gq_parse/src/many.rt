//! Phrases of one sort in a row: as many as stand before a punctuator.
ghost use Rattle.std.specs.Prelude.{◌≢◌, ◌<◌, ◌≤◌, length, map, IfOk, IfErr};
ghost use Rattle.gq_parse.specs.Grammar.{Tokens, ManyUntil, OptionalMany};
ghost use Rattle.gq_parse.specs.Helping.From.{from};
ghost use Rattle.gq_parse.specs.Helping.Phrases.{Lacks, Unique, NeverBegins};

use crate::phrases::{Miss, exact, punctuator};
use gq_lex::{Kind, Token};
use std::alloc::Global;

/// A sort of phrase.
pub(crate) trait Phrase {
    /// What is made of one.
    type Item: Drop;

    // What one says.
    ghost View: { Type 0 };

    ghost view: { Self.Item → View };

    // It stands between two lists of tokens: the first begins with it, and the second is left behind it.
    ghost stands: { Self → View → Tokens → Tokens → Type 0 };

    /// The one that stands at an index, and the index behind it.
    fn parse(
        &self,
        alloc: Global,
        tokens: &[Token<'_>],
        at: usize,
    ) -> Result<(Self::Item, usize), Miss>
        requires { at ≤ length tokens.now }
        ensures found { IfOk result (λ x. stands self.now (view x.0) (from tokens.now at) (from tokens.now x.1)) }
        ensures within { IfOk result (λ x. (at < x.1) × (x.1 ≤ length tokens.now)) }
        ensures none { IfErr result (λ miss. miss ≢ Miss.NoMemory → Lacks (stands self.now) (from tokens.now at)) };
}

/// Phrases between these two punctuators, or none where the first does not stand. Between them stands one at least.
pub(crate) fn optional_many<P: Phrase>(
    phrase: &P,
    alloc: Global,
    opening: Kind,
    closing: Kind,
    tokens: &[Token<'_>],
    at: usize,
) -> Result<(Vec<P::Item>, usize), Miss>
    requires within { at ≤ length tokens.now }
    requires unique { Unique (P.stands phrase.now) }
    requires apart { NeverBegins closing (P.stands phrase.now) }
    ensures found { IfOk result (λ x. OptionalMany (P.stands phrase.now) opening closing (map P.view x.0.items) (from tokens.now at) (from tokens.now x.1)) }
    ensures within { IfOk result (λ x. (at ≤ x.1) × (x.1 ≤ length tokens.now)) }
    ensures none { IfErr result (λ miss. miss ≢ Miss.NoMemory → Lacks (OptionalMany (P.stands phrase.now) opening closing) (from tokens.now at)) }
{
    match punctuator(opening, tokens, at) {
        Some(behind) => {
            let (items, end) = many_until(phrase, alloc, closing, tokens, behind)?;
            if items.is_empty() {
                return Err(Miss::NoPhrase { at: behind });
            }
            Ok((items, end))
        }
        None => Ok((Vec::new(alloc), at)),
    }
}

// Phrases, and the punctuator that closes them.
fn many_until<P: Phrase>(
    phrase: &P,
    alloc: Global,
    closing: Kind,
    tokens: &[Token<'_>],
    start: usize,
) -> Result<(Vec<P::Item>, usize), Miss>
    requires within { start ≤ length tokens.now }
    requires unique { Unique (P.stands phrase.now) }
    requires apart { NeverBegins closing (P.stands phrase.now) }
    ensures found { IfOk result (λ x. ManyUntil (P.stands phrase.now) closing (map P.view x.0.items) (from tokens.now start) (from tokens.now x.1)) }
    ensures within { IfOk result (λ x. (start < x.1) × (x.1 ≤ length tokens.now)) }
    ensures none { IfErr result (λ miss. miss ≢ Miss.NoMemory → Lacks (ManyUntil (P.stands phrase.now) closing) (from tokens.now start)) }
{
    let mut items = Vec::new(alloc);
    let mut at = start;
    loop {
        if let Some(end) = punctuator(closing, tokens, at) {
            let items = exact(alloc, items)?;
            return Ok((items, end));
        }
        let (one, behind) = phrase.parse(alloc, tokens, at)?;
        let Ok(()) = items.push(one) else {
            return Err(Miss::NoMemory);
        };
        at = behind;
    }
}
