//! Hovers, completions and what a rename would be of, by positions.
ghost use Rattle.std.specs.Prelude.{◌≡◌, ◌≤◌, ◌^◌, length, map, option_map, IfOk, IfSome};
ghost use Rattle.gq_edit.specs.Workspace.{AreTexts};
ghost use Rattle.gq_index.specs.Indexed.{IsIndexOfProject};
ghost use Rattle.gq_known.specs.Known.{IsKnown};
ghost use Rattle.gq_rename.specs.Standing.{CanBeCut};
ghost use Rattle.gq_rpc.specs.declared.messages.Id.{Id};
ghost use Rattle.gq_rpc.specs.declared.messages.Outgoing.TheVariants as outgoing;
ghost use Rattle.gq_replies.specs.Answers.{hover_in, item_kind, item_of, prepared_in, TellsHover, TellsDefinitions, TellsReferences, TellsCompletions, TellsPrepared};

use crate::locations::locations;
use crate::offsets::{offset_at, text_of};
use crate::ranges::range_in;
use gq_completion::{Completion, CompletionKind, complete_by};
use gq_index::Index;
use gq_known::Known;
use gq_query::{definition_by, hover_by, references_by};
use gq_rename::checking::documents_are_texts;
use gq_rename::laws::prepared_names_stand_in_texts;
use gq_rename::prepare_by;
use gq_rpc::{
    CompletionItem, CompletionItemKind, Hover, Location, PrepareRename, ReferenceParams,
    TextDocumentPositionParams,
};
use gq_text::{Items, NoMemory, OwnedText, PositionEncoding, Span};
use std::alloc::Global;

/// What is shown at the position.
pub(crate) fn find_hover(
    alloc: Global,
    encoding: PositionEncoding,
    known: Known<'_>,
    index: &Index,
    params: &TextDocumentPositionParams,
) -> Result<Option<Hover>, NoMemory>
    requires { AreTexts known.project.now }
    ensures { IfOk result (λ shown. IsKnown known.entry → IsIndexOfProject known.entry.project.now index.now
        → (id : Id) → TellsHover encoding known.entry.project.now id params.now (outgoing.Hover id shown)) }
{
    let key = params.key.as_str();
    let offset = offset_at(encoding, known.project, key, params.position);
    let found = hover_by(alloc, known, index, key, offset)?;
    Ok(place_hover(encoding, text_of(known.project, key), found))
}

/// What is shown, with its range in the text.
fn place_hover(
    encoding: PositionEncoding,
    text: &str,
    found: Option<gq_query::Hover>,
) -> Option<Hover>
    requires { length text.now ≤ 2 ^ 22 }
    ensures { result ≡ option_map (hover_in encoding text.now) found }
{
    let found = found?;
    Some(Hover {
        value: found.value,
        range: range_in(encoding, text, found.span),
    })
}

/// The definitions of what stands at the position.
pub(crate) fn find_definitions(
    alloc: Global,
    encoding: PositionEncoding,
    known: Known<'_>,
    index: &Index,
    params: &TextDocumentPositionParams,
) -> Result<Items<Location>, NoMemory>
    requires { AreTexts known.project.now }
    ensures { IfOk result (λ located. IsKnown known.entry → IsIndexOfProject known.entry.project.now index.now
        → (id : Id) → TellsDefinitions encoding known.entry.project.now id params.now (outgoing.Locations id located)) }
{
    let key = params.key.as_str();
    let offset = offset_at(encoding, known.project, key, params.position);
    let found = definition_by(alloc, known, index, key, offset)?;
    locations(alloc, encoding, known.project.documents(), &found)
}

/// The references to what stands at the position.
pub(crate) fn find_references(
    alloc: Global,
    encoding: PositionEncoding,
    known: Known<'_>,
    index: &Index,
    params: &ReferenceParams,
) -> Result<Items<Location>, NoMemory>
    requires { AreTexts known.project.now }
    ensures { IfOk result (λ located. IsKnown known.entry → IsIndexOfProject known.entry.project.now index.now
        → (id : Id) → TellsReferences encoding known.entry.project.now id params.now (outgoing.Locations id located)) }
{
    let key = params.key.as_str();
    let offset = offset_at(encoding, known.project, key, params.position);
    let found = references_by(alloc, known, index, key, offset, params.include_declaration)?;
    locations(alloc, encoding, known.project.documents(), &found)
}

/// What may be written at the position.
pub(crate) fn find_completions(
    alloc: Global,
    encoding: PositionEncoding,
    known: Known<'_>,
    params: &TextDocumentPositionParams,
) -> Result<Items<CompletionItem>, NoMemory>
    requires { AreTexts known.project.now }
    ensures { IfOk result (λ items. IsKnown known.entry → (id : Id) → TellsCompletions encoding known.entry.project.now id params.now (outgoing.Completions id items)) }
{
    let key = params.key.as_str();
    let offset = offset_at(encoding, known.project, key, params.position);
    let found = complete_by(alloc, known, key, offset)?;
    completion_items(alloc, &found)
}

fn completion_items(alloc: Global, found: &[Completion]) -> Result<Items<CompletionItem>, NoMemory>
    ensures { IfOk result (λ items. items ≡ map item_of found.now) }
{
    let mut items = Items::new(alloc);
    for completion in found {
        items.push(CompletionItem {
            kind: kind_of(completion.kind),
            label: completion.label.copied(alloc)?,
        })?;
    }
    Ok(items)
}

fn kind_of(kind: CompletionKind) -> CompletionItemKind
    ensures { result ≡ item_kind kind }
{
    match kind {
        CompletionKind::Field => CompletionItemKind::Field,
        CompletionKind::Variable => CompletionItemKind::Variable,
        CompletionKind::Fragment => CompletionItemKind::Reference,
    }
}

/// The name that a rename at the position would change.
pub(crate) fn find_prepared(
    alloc: Global,
    encoding: PositionEncoding,
    known: Known<'_>,
    params: &TextDocumentPositionParams,
) -> Result<Option<PrepareRename>, NoMemory>
    requires texts { AreTexts known.project.now }
    requires known { ∥ IsKnown known ∥₁ }
    ensures { IfOk result (λ prepared. IsKnown known.entry → (id : Id) → TellsPrepared encoding known.entry.project.now id params.now (outgoing.Prepared id prepared)) }
{
    prepared_names_stand_in_texts();
    documents_are_texts(known.project);
    let key = params.key.as_str();
    let offset = offset_at(encoding, known.project, key, params.position);
    let found = prepare_by(alloc, known, key, offset)?;
    place_name(alloc, encoding, text_of(known.project, key), found)
}

/// The text of the span, whose ends stand between characters, and its range.
fn place_name(
    alloc: Global,
    encoding: PositionEncoding,
    text: &str,
    found: Option<Span>,
) -> Result<Option<PrepareRename>, NoMemory>
    requires fits { length text.now ≤ 2 ^ 22 }
    requires cut { IfSome found (λ span. ∥ CanBeCut text.now span ∥₁) }
    ensures { IfOk result (λ prepared. prepared ≡ option_map (prepared_in encoding text.now) found) }
{
    let Some(span) = found else {
        return Ok(None);
    };
    let Some(name) = text.get(span.start..span.end) else {
        unreachable!();
    };
    Ok(Some(PrepareRename {
        placeholder: OwnedText::from_str(alloc, name)?,
        range: range_in(encoding, text, span),
    }))
}
