//! What completes a document at an offset.
ghost use Rattle.std.specs.Prelude.{◌≡◌, ◌≤◌, ◌^◌, ℕ, List, Some, IfOk, length, map, slice_get};
ghost use Rattle.gq_lex.specs.Tokens.{Reads, lexeme_of};
ghost use Rattle.gq_tree.specs.Readings.{parsed_view};
ghost use Rattle.gq_project.specs.declared.document.Doc.{Doc};
ghost use Rattle.gq_parse.specs.Parsed.{IsParsed};
ghost use Rattle.gq_known.specs.Known.{IsKnown};
ghost use Rattle.gq_completion.specs.Helping.Completed.{AreNames, AreCompleted};
ghost use Rattle.gq_completion.specs.Completions.{AreCompletions};

use crate::fields::fields_at;
use crate::fragments::fragment_names;
use crate::labels::completions_of;
use crate::tokens::{kind_at, typed_from};
use crate::variables::other_variables;
use gq_known::{Known, Learned};
use gq_lex::laws::{faults_read_as_nothing, limits_are_passed, one_reading};
use gq_lex::{LexFault, Token, lex};
use gq_project::Project;
use gq_text::{NoMemory, OwnedText};
use gq_tree::Parsed;
use std::alloc::Global;

/// What a completion names.
#[derive(Clone, Copy, Debug, PartialEq, Eq)]
pub enum CompletionKind {
    Field,
    Variable,
    Fragment,
}

/// A name that completes a text.
#[derive(Debug, Drop, PartialEq, Eq)]
pub struct Completion {
    pub kind: CompletionKind,
    /// The name, of a variable without its `$`.
    pub label: OwnedText,
}

/// The names of that kind that can stand at the offset of a text with these tokens, which reads so.
fn names_at(
    alloc: Global,
    known: Known<'_>,
    reading: &Parsed,
    tokens: &[Token<'_>],
    offset: usize,
    kind: CompletionKind,
) -> Result<Vec<OwnedText>, NoMemory>
    ensures { IfOk result (λ names. IsKnown known.entry → (text : List ℕ) → IsParsed text (parsed_view reading.now)
        → AreNames known.entry.project.now text (map lexeme_of tokens.now) offset kind names.items) }
{
    match kind {
        CompletionKind::Fragment => fragment_names(alloc, known.readings),
        CompletionKind::Variable => other_variables(alloc, tokens, offset),
        CompletionKind::Field => {
            let place = typed_from(tokens, offset);
            fields_at(alloc, known, reading, place, offset)
        }
    }
}

/// What completes a text with these tokens, which reads so, at the offset.
fn completed_by(
    alloc: Global,
    known: Known<'_>,
    reading: &Parsed,
    tokens: &[Token<'_>],
    offset: usize,
) -> Result<Vec<Completion>, NoMemory>
    requires { length tokens.now ≤ 2 ^ 20 }
    ensures { IfOk result (λ all. IsKnown known.entry → (text : List ℕ) → Reads text (map lexeme_of tokens.now) → IsParsed text (parsed_view reading.now)
        → AreCompleted known.entry.project.now text offset all.items) }
{
    one_reading();
    let kind = kind_at(tokens, offset);
    let names = names_at(alloc, known, reading, tokens, offset, kind)?;
    completions_of(alloc, kind, names)
}

/// What completes a text that reads so at the offset; nothing does where it has no tokens.
fn completed(
    alloc: Global,
    known: Known<'_>,
    text: &str,
    reading: &Parsed,
    offset: usize,
) -> Result<Vec<Completion>, NoMemory>
    ensures { IfOk result (λ all. IsKnown known.entry → IsParsed text.now (parsed_view reading.now) → AreCompleted known.entry.project.now text.now offset all.items) }
{
    faults_read_as_nothing();
    limits_are_passed();
    match lex(alloc, text) {
        Ok(tokens) => {
            let all = completed_by(alloc, known, reading, &tokens, offset)?;
            Ok(all)
        }
        Err(LexFault::NoMemory) => Err(NoMemory),
        Err(LexFault::Bad { .. }) => Ok(Vec::new(alloc)),
        Err(LexFault::Limit { .. }) => Ok(Vec::new(alloc)),
    }
}

/// What completes the document of that number at the offset.
fn completed_at(
    alloc: Global,
    known: Known<'_>,
    number: usize,
    offset: usize,
) -> Result<Vec<Completion>, NoMemory>
    ensures { IfOk result (λ all. IsKnown known.entry → (document : Doc) → slice_get known.entry.project.now number ≡ Some document
        → AreCompleted known.entry.project.now document.text offset all.items) }
{
    let Some(document) = known.project.documents().get(number) else {
        return Ok(Vec::new(alloc));
    };
    let Some(reading) = known.readings.get(number) else {
        return Ok(Vec::new(alloc));
    };
    completed(alloc, known, document.text.as_str(), reading, offset)
}

/// What completes the document of that key at the offset, in bytes, in the order of the labels' bytes, each label once:
/// behind `...` the names of the project's fragments, behind `$` the names behind the other `$` of the text, else the
/// fields of the type whose selections the offset stands between. A document that is not in the project, or has no
/// tokens, has none. No document is read: what is known of the project tells.
pub fn complete_by(
    alloc: Global,
    known: Known<'_>,
    key: &str,
    offset: usize,
) -> Result<Vec<Completion>, NoMemory>
    ensures { IfOk result (λ all. IsKnown known.entry → AreCompletions known.entry.project.now key.now offset all.items) }
{
    match known.project.place(key) {
        Some(number) => completed_at(alloc, known, number, offset),
        None => Ok(Vec::new(alloc)),
    }
}

/// The same of a project, whose documents are read first.
pub fn complete(
    alloc: Global,
    project: &Project,
    key: &str,
    offset: usize,
) -> Result<Vec<Completion>, NoMemory>
    ensures { IfOk result (λ all. AreCompletions project.now key.now offset all.items) }
{
    let learned = Learned::of(alloc, project)?;
    let all = complete_by(alloc, learned.known(project), key, offset)?;
    Ok(all)
}
