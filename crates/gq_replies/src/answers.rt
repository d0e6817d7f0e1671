//! The response to a question.
ghost use Rattle.std.specs.Prelude.{◌≡◌, IfOk, IfErr};
ghost use Rattle.gq_edit.specs.Workspace.{AreTexts};
ghost use Rattle.gq_rename.specs.declared.refusal.Refusal.TheVariants as refusal;
ghost use Rattle.gq_replies.specs.Renames.{refused};
ghost use Rattle.gq_replies.specs.Answers.{IsAnswer};
ghost use Rattle.gq_replies.specs.Helping.Results.{IsRenamed};

use crate::code_actions::ask_code_actions;
use crate::offsets::offset_at;
use crate::over_kept::{ask_completions, ask_definitions, ask_hover, ask_prepared, ask_references};
use crate::renames::rename_at;
use gq_kept::Kept;
use gq_rename::Refusal;
use gq_rpc::{Id, Outgoing, Question, RenameParams, ResponseError};
use gq_text::{NoMemory, OwnedText, PositionEncoding};
use std::alloc::Global;

/// The response to a question about the documents that are kept: the answer that is defined, by positions (LSP 3.17,
/// "Language Features"), or the refusal `12 NoMemory` where a growth was refused. `NoMemory` where even that refusal finds
/// none. The documents stay as they are.
pub fn answer(
    alloc: Global,
    encoding: PositionEncoding,
    kept: &mut Kept,
    id: Id,
    question: &Question,
) -> Result<Outgoing, NoMemory>
    requires { AreTexts kept.old.documents }
    ensures answer { IfOk result (λ message. ∥ IsAnswer encoding kept.old.documents id question.now message ∥₁) }
    ensures documents { kept.new.documents ≡ kept.old.documents }
{
    match question {
        Question::Completion(params) => match ask_completions(alloc, encoding, kept, params) {
            Ok(found) => Ok(Outgoing::Completions(id, found)),
            Err(NoMemory) => refuse(alloc, id, Refusal::NoMemory),
        },
        Question::Definition(params) => match ask_definitions(alloc, encoding, kept, params) {
            Ok(found) => Ok(Outgoing::Locations(id, found)),
            Err(NoMemory) => refuse(alloc, id, Refusal::NoMemory),
        },
        Question::Hover(params) => match ask_hover(alloc, encoding, kept, params) {
            Ok(found) => Ok(Outgoing::Hover(id, found)),
            Err(NoMemory) => refuse(alloc, id, Refusal::NoMemory),
        },
        Question::PrepareRename(params) => match ask_prepared(alloc, encoding, kept, params) {
            Ok(found) => Ok(Outgoing::Prepared(id, found)),
            Err(NoMemory) => refuse(alloc, id, Refusal::NoMemory),
        },
        Question::References(params) => match ask_references(alloc, encoding, kept, params) {
            Ok(found) => Ok(Outgoing::Locations(id, found)),
            Err(NoMemory) => refuse(alloc, id, Refusal::NoMemory),
        },
        Question::Rename(params) => answer_rename(alloc, encoding, kept, id, params),
        Question::CodeAction(params) => match ask_code_actions(alloc, encoding, kept, params) {
            Ok(found) => Ok(Outgoing::CodeActions(id, found)),
            Err(NoMemory) => refuse(alloc, id, Refusal::NoMemory),
        },
    }
}

/// The request is right, and is refused for this.
fn refuse(alloc: Global, id: Id, why: Refusal) -> Result<Outgoing, NoMemory>
    ensures { IfOk result (λ response. response ≡ refused id why) }
{
    let words = OwnedText::from_str(alloc, why.message())?;
    Ok(Outgoing::Error(Some(id), ResponseError::RequestFailed(words)))
}

fn answer_rename(
    alloc: Global,
    encoding: PositionEncoding,
    kept: &mut Kept,
    id: Id,
    params: &RenameParams,
) -> Result<Outgoing, NoMemory>
    requires { AreTexts kept.old.documents }
    ensures answer { IfOk result (λ response. ∥ IsRenamed encoding kept.old.documents id params.now response ∥₁) }
    ensures documents { kept.new.documents ≡ kept.old.documents }
{
    let offset = offset_at(
        encoding,
        kept.project(),
        params.key.as_str(),
        params.position,
    );
    match rename_at(alloc, encoding, kept, params, offset) {
        Ok(edit) => Ok(Outgoing::Renamed(id, edit)),
        Err(refusal) => refuse(alloc, id, refusal),
    }
}
