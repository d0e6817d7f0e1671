//! Copies of tasks.
ghost use Rattle.std.specs.Prelude.{◌≡◌, IfOk};

use crate::event::Task;
use gq_rpc::{
    CodeActionParams, Id, Question, ReferenceParams, RenameParams, TextDocumentPositionParams,
};
use gq_text::{Items, NoMemory, OwnedText};
use std::alloc::Global;

/// Another id that is the same.
pub fn copy_id(alloc: Global, id: &Id) -> Result<Id, NoMemory>
    ensures { IfOk result (λ copy. copy ≡ id.now) }
{
    match id {
        Id::Number(number) => Ok(Id::Number(*number)),
        Id::Text(text) => Ok(Id::Text(text.copied(alloc)?)),
    }
}

fn copy_place(
    alloc: Global,
    params: &TextDocumentPositionParams,
) -> Result<TextDocumentPositionParams, NoMemory>
    ensures { IfOk result (λ copy. copy ≡ params.now) }
{
    Ok(TextDocumentPositionParams {
        key: params.key.copied(alloc)?,
        position: params.position,
    })
}

fn copy_references(alloc: Global, params: &ReferenceParams) -> Result<ReferenceParams, NoMemory>
    ensures { IfOk result (λ copy. copy ≡ params.now) }
{
    Ok(ReferenceParams {
        key: params.key.copied(alloc)?,
        position: params.position,
        include_declaration: params.include_declaration,
    })
}

fn copy_rename(alloc: Global, params: &RenameParams) -> Result<RenameParams, NoMemory>
    ensures { IfOk result (λ copy. copy ≡ params.now) }
{
    Ok(RenameParams {
        key: params.key.copied(alloc)?,
        position: params.position,
        new_name: params.new_name.copied(alloc)?,
    })
}

fn copy_texts(alloc: Global, texts: &[OwnedText]) -> Result<Items<OwnedText>, NoMemory>
    ensures { IfOk result (λ copy. copy ≡ texts.now) }
{
    let mut copy = Items::new(alloc);
    for text in texts {
        copy.push(text.copied(alloc)?)?;
    }
    Ok(copy)
}

fn copy_kinds(
    alloc: Global,
    only: &Option<Items<OwnedText>>,
) -> Result<Option<Items<OwnedText>>, NoMemory>
    ensures { IfOk result (λ copy. copy ≡ only.now) }
{
    match only {
        Some(kinds) => Ok(Some(copy_texts(alloc, kinds.as_slice())?)),
        None => Ok(None),
    }
}

fn copy_actions(alloc: Global, params: &CodeActionParams) -> Result<CodeActionParams, NoMemory>
    ensures { IfOk result (λ copy. copy ≡ params.now) }
{
    Ok(CodeActionParams {
        key: params.key.copied(alloc)?,
        range: params.range,
        only: copy_kinds(alloc, &params.only)?,
    })
}

/// Another question that is the same.
fn copy_question(alloc: Global, question: &Question) -> Result<Question, NoMemory>
    ensures { IfOk result (λ copy. copy ≡ question.now) }
{
    match question {
        Question::Completion(params) => Ok(Question::Completion(copy_place(alloc, params)?)),
        Question::Definition(params) => Ok(Question::Definition(copy_place(alloc, params)?)),
        Question::Hover(params) => Ok(Question::Hover(copy_place(alloc, params)?)),
        Question::PrepareRename(params) => Ok(Question::PrepareRename(copy_place(alloc, params)?)),
        Question::References(params) => Ok(Question::References(copy_references(alloc, params)?)),
        Question::Rename(params) => Ok(Question::Rename(copy_rename(alloc, params)?)),
        Question::CodeAction(params) => Ok(Question::CodeAction(copy_actions(alloc, params)?)),
    }
}

/// Another task that is the same.
pub fn copy_task(alloc: Global, task: &Task) -> Result<Task, NoMemory>
    ensures { IfOk result (λ copy. copy ≡ task.now) }
{
    match task {
        Task::Ask(encoding, id, question) => Ok(Task::Ask(
            *encoding,
            copy_id(alloc, id)?,
            copy_question(alloc, question)?,
        )),
        Task::Check(encoding) => Ok(Task::Check(*encoding)),
    }
}
