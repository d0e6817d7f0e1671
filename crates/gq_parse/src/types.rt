//! Type references, by descent. Each function answers the phrase that stands at an index, and the index behind it.
ghost use Rattle.std.specs.Prelude.{◌≢◌, ◌+◌, ◌<◌, ◌≤◌, length, IfOk, IfErr};
ghost use Rattle.gq_tree.specs.Views.{type_view};
ghost use Rattle.gq_parse.specs.Grammar.{IsType, IsNullableType};
ghost use Rattle.gq_parse.specs.Helping.From.{from};
ghost use Rattle.gq_parse.specs.Helping.Phrases.{Lacks};

use crate::phrases::{Miss, boxed, name, punctuator};
use gq_lex::{Kind, Token};
use gq_tree::TypeRef;
use std::alloc::Global;

/// A type reference.
#[cycle(reference)]
pub(crate) fn type_ref(
    alloc: Global,
    tokens: &[Token<'_>],
    at: usize,
) -> Result<(TypeRef, usize), Miss>
    requires { at ≤ length tokens.now }
    ensures found { IfOk result (λ x. IsType (type_view x.0) (from tokens.now at) (from tokens.now x.1)) }
    ensures within { IfOk result (λ x. (at < x.1) × (x.1 ≤ length tokens.now)) }
    ensures none { IfErr result (λ miss. miss ≢ Miss.NoMemory → Lacks IsType (from tokens.now at)) }
{
    let (inner, end) = nullable_type(alloc, tokens, at)?;
    match punctuator(Kind::Bang, tokens, end) {
        Some(behind) => {
            let inner = boxed(alloc, inner)?;
            Ok((TypeRef::NonNull(inner), behind))
        }
        None => Ok((inner, end)),
    }
}

// A named type, or a list of a type.
#[cycle(reference)]
fn nullable_type(alloc: Global, tokens: &[Token<'_>], at: usize) -> Result<(TypeRef, usize), Miss>
    requires { at ≤ length tokens.now }
    ensures found { IfOk result (λ x. IsNullableType (type_view x.0) (from tokens.now at) (from tokens.now x.1)) }
    ensures within { IfOk result (λ x. (at < x.1) × (x.1 ≤ length tokens.now)) }
    ensures none { IfErr result (λ miss. miss ≢ Miss.NoMemory → Lacks IsNullableType (from tokens.now at)) }
{
    match punctuator(Kind::BracketOpen, tokens, at) {
        Some(behind) => {
            let (item, behind) = type_ref(alloc, tokens, behind)?;
            let Some(end) = punctuator(Kind::BracketClose, tokens, behind) else {
                return Err(Miss::NoPhrase { at: behind });
            };
            let item = boxed(alloc, item)?;
            Ok((TypeRef::List(item), end))
        }
        None => {
            let (name, end) = name(alloc, tokens, at)?;
            Ok((TypeRef::Named(name), end))
        }
    }
}
