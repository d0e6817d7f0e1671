//! Where a list of tokens stops to be the beginning of a document.

ghost use Rattle.std.specs.Prelude.{◌≡◌, IfOk, IfSome, IfNone, Some, None, MatchBool, map, reverse};
ghost use Rattle.gq_lex.specs.Tokens.{lexeme_of};
ghost use Rattle.gq_parse.specs.Helping.Expected.{advance, pushed};
ghost use Rattle.gq_parse.specs.Prefix.{Begins, IsSyntaxAt};

use crate::expected::{Move, Symbol, Word};
use crate::moves::move_of;
use crate::words::word_of;
use gq_lex::{Kind, Token};
use gq_text::NoMemory;
use std::alloc::Global;

/// The index of the first token with which the tokens so far begin no document, of whatever depth (section 2.2); `None`
/// where all of them together begin one. `NoMemory` only where a growth was refused.
pub(crate) fn first_fault(alloc: Global, tokens: &[Token<'_>]) -> Result<Option<usize>, NoMemory>
    ensures fault { IfOk result (λ place. IfSome place (IsSyntaxAt (map lexeme_of tokens.now))) }
    ensures none { IfOk result (λ place. IfNone place (Begins (map lexeme_of tokens.now))) }
{
    let mut stack = Vec::new(alloc);
    for i in 0..tokens.len() {
        let token = tokens[i];
        if !step(&mut stack, token.kind, word_of(token.text))? {
            return Ok(Some(i));
        }
    }
    Ok(None)
}

// The stack behind a token, the top last; false where the token cannot stand. An empty stack expects a definition.
fn step(stack: &mut Vec<Symbol>, kind: Kind, word: Word) -> Result<bool, NoMemory>
    ensures taken { IfOk result (λ taken. MatchBool taken (advance (reverse stack.old.items) kind word ≡ Some (reverse stack.new.items)) (advance (reverse stack.old.items) kind word ≡ None)) }
{
    while let Some(symbol) = stack.pop() {
        match move_of(symbol, kind, word) {
            Move::Skips => {}
            moved => return push_all(stack, moved),
        }
    }
    push_all(stack, move_of(Symbol::Definition, kind, word))
}

// What a token leaves goes onto the stack; false where it cannot stand, or is not taken.
fn push_all(stack: &mut Vec<Symbol>, moved: Move) -> Result<bool, NoMemory>
    ensures { IfOk result (λ taken. MatchBool taken (pushed moved (reverse stack.old.items) ≡ Some (reverse stack.new.items)) (pushed moved (reverse stack.old.items) ≡ None)) }
{
    match moved {
        Move::Takes => {}
        Move::TakesThen(a) => stack.push(a)?,
        Move::TakesThenTwo(a, b) => {
            stack.push(b)?;
            stack.push(a)?;
        }
        Move::TakesThenThree(a, b, c) => {
            stack.push(c)?;
            stack.push(b)?;
            stack.push(a)?;
        }
        Move::TakesThenFour(a, b, c, d) => {
            stack.push(d)?;
            stack.push(c)?;
            stack.push(b)?;
            stack.push(a)?;
        }
        Move::TakesThenFive(a, b, c, d, e) => {
            stack.push(e)?;
            stack.push(d)?;
            stack.push(c)?;
            stack.push(b)?;
            stack.push(a)?;
        }
        Move::TakesThenSix(a, b, c, d, e, f) => {
            stack.push(f)?;
            stack.push(e)?;
            stack.push(d)?;
            stack.push(c)?;
            stack.push(b)?;
            stack.push(a)?;
        }
        Move::Skips | Move::Stops => return Ok(false),
    }
    Ok(true)
}
