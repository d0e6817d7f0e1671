//! The tree of a text, or why it has none.
ghost use Rattle.std.specs.Prelude.{◌≡◌, ◌≢◌, ℕ, List, IfOk, IfErr, None, Option, map};
ghost use Rattle.gq_text.specs.declared.place.Span.{Span};
ghost use Rattle.gq_lex.specs.Tokens.{lexeme_of};
ghost use Rattle.gq_tree.specs.Plain.{Def};
ghost use Rattle.gq_tree.specs.Views.{document_view};
ghost use Rattle.gq_parse.specs.Documents.{IsDocument};
ghost use Rattle.gq_parse.specs.Derives.{Derives};
ghost use Rattle.gq_parse.specs.Faults.{IsSyntaxFault, IsLimitFault};
ghost use Rattle.gq_parse.specs.Helping.From.{from};
ghost use Rattle.gq_parse.specs.Limits.{IsNestedWithin};
ghost use Rattle.gq_parse.specs.Helping.Telling.{told, IsFirstWrong, IsFirstDeep, IsFaultIn};

use crate::definitions::document;
use crate::depth::too_deep;
use crate::fault::Fault;
use crate::first_fault::first_fault;
use crate::phrases::Miss;
use gq_lex::{LexFault, Token, lex};
use gq_text::NoMemory;
use gq_tree::Document;
use std::alloc::Global;

/// The tree of a text (GraphQL, October 2021, sections 2 and 3), or why it has none.
///
/// A text that cannot be read as tokens, or has too many, is told first. Else `Syntax` is told at the first token with
/// which the tokens so far begin no document, or at the end of the text where all of them begin one, and `Limit` at the
/// bracket that opens level 101; of both the one that comes first, and at one place it is `Syntax`.
pub fn parse(alloc: Global, text: &str) -> Result<Document, Fault>
    ensures parsed { IfOk result (λ document. Derives text.now (document_view document)) }
    ensures refused { IfErr result (λ fault. fault ≢ Fault.NoMemory → (document : List (Def Span)) → Derives text.now document → ⊥) }
    ensures syntax { IfErr result (λ fault. (place : ℕ) → fault ≡ Fault.Syntax place → IsSyntaxFault text.now place) }
    ensures limit { IfErr result (λ fault. (place : ℕ) → fault ≡ Fault.Limit place → IsLimitFault text.now place) }
{
    let tokens = match lex(alloc, text) {
        Ok(tokens) => tokens,
        Err(LexFault::Bad { place, .. }) => return Err(Fault::Syntax { place }),
        Err(LexFault::Limit { place }) => return Err(Fault::Limit { place }),
        Err(LexFault::NoMemory) => return Err(Fault::NoMemory),
    };
    tree(alloc, &tokens, text.len())
}

// The tree of tokens, or the fault that they have in a text of this length.
fn tree(alloc: Global, tokens: &[Token<'_>], len: usize) -> Result<Document, Fault>
    ensures found { IfOk result (λ d. IsDocument (document_view d) (from tokens.now 0) × IsNestedWithin 100 (map lexeme_of tokens.now)) }
    ensures fault { IfErr result (IsFaultIn (map lexeme_of tokens.now) len) }
{
    match too_deep(tokens) {
        Some(deep) => Err(fault_in(alloc, tokens, Some(deep), len)),
        None => match document(alloc, tokens) {
            Ok(document) => Ok(document),
            Err(Miss::NoPhrase { .. }) => Err(fault_in(alloc, tokens, None, len)),
            Err(Miss::NoMemory) => Err(Fault::NoMemory),
        },
    }
}

// The fault that tokens have, of which the first bracket too many stands at `deep`.
fn fault_in(alloc: Global, tokens: &[Token<'_>], deep: Option<usize>, len: usize) -> Fault
    requires deep { IsFirstDeep (map lexeme_of tokens.now) deep }
    requires none { deep ≡ None → (document : List (Def Span)) → IsDocument document (map lexeme_of tokens.now) → ⊥ }
    ensures { IsFaultIn (map lexeme_of tokens.now) len result }
{
    match first_wrong(alloc, tokens) {
        Ok(wrong) => told(wrong, deep, len),
        Err(NoMemory) => Fault::NoMemory,
    }
}

// Where the first wrong token begins.
fn first_wrong(alloc: Global, tokens: &[Token<'_>]) -> Result<Option<usize>, NoMemory>
    ensures { IfOk result (IsFirstWrong (map lexeme_of tokens.now)) }
{
    match first_fault(alloc, tokens)? {
        Some(i) => Ok(Some(tokens[i].span.start)),
        None => Ok(None),
    }
}

// Which of a wrong token and a bracket too many is told; where there is neither, the end of the text.
fn told(wrong: Option<usize>, deep: Option<usize>, len: usize) -> Fault
    ensures { result ≡ told wrong deep len }
{
    match (wrong, deep) {
        (Some(wrong), Some(deep)) => {
            if wrong <= deep {
                Fault::Syntax { place: wrong }
            } else {
                Fault::Limit { place: deep }
            }
        }
        (None, Some(deep)) => Fault::Limit { place: deep },
        (Some(wrong), None) => Fault::Syntax { place: wrong },
        (None, None) => Fault::Syntax { place: len },
    }
}
