//! What is found for questions in what is kept of a project.
ghost use Rattle.std.specs.Prelude.{◌≡◌, IfOk};
ghost use Rattle.gq_edit.specs.Workspace.{AreTexts};
ghost use Rattle.gq_rpc.specs.declared.messages.Id.{Id};
ghost use Rattle.gq_rpc.specs.declared.messages.Outgoing.TheVariants as outgoing;
ghost use Rattle.gq_replies.specs.Answers.{TellsHover, TellsDefinitions, TellsReferences, TellsCompletions, TellsPrepared};

use crate::queries::{
    find_completions, find_definitions, find_hover, find_prepared, find_references,
};
use gq_kept::Kept;
use gq_rpc::{
    CompletionItem, Hover, Location, PrepareRename, ReferenceParams, TextDocumentPositionParams,
};
use gq_text::{Items, NoMemory, PositionEncoding};
use std::alloc::Global;

/// What is shown at the position, by what is kept, which is indexed from then on.
pub(crate) fn ask_hover(
    alloc: Global,
    encoding: PositionEncoding,
    kept: &mut Kept,
    params: &TextDocumentPositionParams,
) -> Result<Option<Hover>, NoMemory>
    requires { AreTexts kept.old.documents }
    ensures told { IfOk result (λ shown. (id : Id) → ∥ TellsHover encoding kept.old.documents id params.now (outgoing.Hover id shown) ∥₁) }
    ensures documents { kept.new.documents ≡ kept.old.documents }
{
    kept.make_index(alloc)?;
    let found = find_hover(alloc, encoding, kept.known(), kept.index(), params)?;
    Ok(found)
}

/// The definitions of what stands at the position, by what is kept, which is indexed from then on.
pub(crate) fn ask_definitions(
    alloc: Global,
    encoding: PositionEncoding,
    kept: &mut Kept,
    params: &TextDocumentPositionParams,
) -> Result<Items<Location>, NoMemory>
    requires { AreTexts kept.old.documents }
    ensures told { IfOk result (λ located. (id : Id) → ∥ TellsDefinitions encoding kept.old.documents id params.now (outgoing.Locations id located) ∥₁) }
    ensures documents { kept.new.documents ≡ kept.old.documents }
{
    kept.make_index(alloc)?;
    let found = find_definitions(alloc, encoding, kept.known(), kept.index(), params)?;
    Ok(found)
}

/// The references to what stands at the position, by what is kept, which is indexed from then on.
pub(crate) fn ask_references(
    alloc: Global,
    encoding: PositionEncoding,
    kept: &mut Kept,
    params: &ReferenceParams,
) -> Result<Items<Location>, NoMemory>
    requires { AreTexts kept.old.documents }
    ensures told { IfOk result (λ located. (id : Id) → ∥ TellsReferences encoding kept.old.documents id params.now (outgoing.Locations id located) ∥₁) }
    ensures documents { kept.new.documents ≡ kept.old.documents }
{
    kept.make_index(alloc)?;
    let found = find_references(alloc, encoding, kept.known(), kept.index(), params)?;
    Ok(found)
}

/// What may be written at the position, by what is kept.
pub(crate) fn ask_completions(
    alloc: Global,
    encoding: PositionEncoding,
    kept: &Kept,
    params: &TextDocumentPositionParams,
) -> Result<Items<CompletionItem>, NoMemory>
    requires { AreTexts kept.now.documents }
    ensures { IfOk result (λ items. (id : Id) → ∥ TellsCompletions encoding kept.now.documents id params.now (outgoing.Completions id items) ∥₁) }
{
    let found = find_completions(alloc, encoding, kept.known(), params)?;
    Ok(found)
}

/// The name that a rename at the position would change, by what is kept.
pub(crate) fn ask_prepared(
    alloc: Global,
    encoding: PositionEncoding,
    kept: &Kept,
    params: &TextDocumentPositionParams,
) -> Result<Option<PrepareRename>, NoMemory>
    requires { AreTexts kept.now.documents }
    ensures { IfOk result (λ prepared. (id : Id) → ∥ TellsPrepared encoding kept.now.documents id params.now (outgoing.Prepared id prepared) ∥₁) }
{
    let found = find_prepared(alloc, encoding, kept.known(), params)?;
    Ok(found)
}
