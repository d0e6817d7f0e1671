//! Tokens, what strings stand for, and trees.
use crate::no_answer::NoAnswer;
use crate::printed::put_document;
use crate::row::Row;
use crate::telling::Telling;
use gq_lex::{LexFault, Token, block_string_value, lex, string_value};
use gq_parse::parse;
use std::alloc::Global;

/// Texts of more tokens than that are told by their number.
const FEW: usize = 100;

/// Tells tokens, each as its kind and its bytes, or `none`. One whose text is not what stands there is told so.
fn tell_each(text: &str, tokens: &[Token<'_>], telling: &mut Telling) {
    for token in tokens {
        if !telling.is_empty() {
            telling.put(" ");
        }
        telling.put_debug(&token.kind);
        telling.put_span(token.span.start, token.span.end);
        if text.get(token.span.start..token.span.end) != Some(token.text) {
            telling.put(" is not ");
            telling.put(token.text);
        }
    }
    if telling.is_empty() {
        telling.put("none");
    }
}

/// Tells the tokens of a text, how many there are where these are not few, or what is at fault and where.
pub fn tell_tokens(alloc: Global, row: &Row<'_>, telling: &mut Telling) -> Result<(), NoAnswer> {
    let text = row.asked(alloc)?;
    match lex(alloc, text.as_str()) {
        Ok(tokens) if tokens.len() > FEW => {
            telling.put_number(tokens.len());
            telling.put(" tokens");
        }
        Ok(tokens) => tell_each(text.as_str(), &tokens, telling),
        Err(LexFault::Bad { place, kind }) => {
            telling.put_debug(&kind);
            telling.put(" ");
            telling.put_number(place);
        }
        Err(LexFault::Limit { place }) => {
            telling.put("Limit ");
            telling.put_number(place);
        }
        Err(LexFault::NoMemory) => return Err(NoAnswer),
    }
    Ok(())
}

/// Tells what a text such as `string: "a"` or `block: """a"""` stands for, or `none`.
pub fn tell_string(alloc: Global, row: &Row<'_>, telling: &mut Telling) -> Result<(), NoAnswer> {
    let asked = row.asked(alloc)?;
    let (kind, text) = asked.as_str().split_once(':').ok_or(NoAnswer)?;
    let text = text.strip_prefix(' ').unwrap_or(text);
    let value = match kind {
        "block" => block_string_value(alloc, text)?,
        _ => string_value(alloc, text)?,
    };
    match value {
        Some(value) => telling.put(value.as_str()),
        None => telling.put("none"),
    }
    Ok(())
}

/// Tells how many definitions a text has.
pub fn tell_count(alloc: Global, row: &Row<'_>, telling: &mut Telling) -> Result<(), NoAnswer> {
    let text = row.asked(alloc)?;
    telling.put_number(parse(alloc, text.as_str())?.definitions.len());
    Ok(())
}

/// Tells the tree of a text.
pub fn tell_tree(alloc: Global, row: &Row<'_>, telling: &mut Telling) -> Result<(), NoAnswer> {
    let text = row.asked(alloc)?;
    let document = parse(alloc, text.as_str())?;
    put_document(telling, &document);
    Ok(())
}
