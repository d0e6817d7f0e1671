//! Code actions: the refactorings of selections that a range of a document can have (LSP 3.17, "Code Action Request").
ghost use Rattle.std.specs.Prelude.{◌≡◌, ◌||◌, true, false, nat_eq, slice_get, None, IfOk, IfSome, OnOk};
ghost use Rattle.std.specs.List.{list_any, starts_with};
ghost use Rattle.std.specs.Option.{option_map_or};
ghost use Rattle.gq_edit.specs.Edits.{FitDocuments, after_edit};
ghost use Rattle.gq_edit.specs.Workspace.{AreTexts};
ghost use Rattle.gq_rules.specs.Validity.{IsValid};
ghost use Rattle.gq_rename.specs.declared.refusal.Refusal.TheVariants as refusal;
ghost use Rattle.gq_rpc.specs.declared.messages.CodeActionKind.TheVariants as action;
ghost use Rattle.gq_rpc.specs.declared.messages.Id.{Id};
ghost use Rattle.gq_rpc.specs.declared.messages.Outgoing.TheVariants as outgoing;
ghost use Rattle.gq_replies.specs.CodeActions as spec;
ghost use Rattle.gq_replies.specs.Answers.{span_at};
ghost use Rattle.gq_replies.specs.Helping.Results.{AddsGiven, IsAnswerKept, IsEditIfAny};
ghost use Rattle.gq_replies.specs.Helping.Studying.{IsStudied};

use crate::offsets::span_at;
use gq_edit::{Edit, to_positions};
use gq_index::Index;
use gq_kept::Kept;
use gq_known::Known;
use gq_rename::Refusal;
use gq_rename::checking::documents_are_texts;
use gq_reshape::laws::{edits_lead_back, edits_name_documents_at_their_versions};
use gq_reshape::{extract_by, inline_by, remove_redundant_by};
use gq_rpc::{CodeAction, CodeActionKind, CodeActionParams};
use gq_rules::Valid;
use gq_text::{Items, NoMemory, OwnedText, PositionEncoding, Span};
use std::alloc::Global;

/// Whether a dot stands there.
fn is_dot_at(name: &[u8], index: usize) -> bool
    ensures { result ≡ option_map_or (λ byte. nat_eq byte 46) (slice_get name.now index) false }
{
    match name.get(index) {
        Some(byte) => *byte == b'.',
        None => false,
    }
}

/// Whether the name starts with the entry.
fn starts(entry: &str, name: &str) -> bool
    ensures { result ≡ starts_with nat_eq name.now entry.now }
{
    name.starts_with(entry)
}

/// Whether the name starts with the entry, and a dot comes next.
fn goes_on_by_dot(entry: &str, name: &str) -> bool
    ensures { result ≡ spec.goes_on_by_dot entry.now name.now }
{
    starts(entry, name) && is_dot_at(name.as_bytes(), entry.len())
}

/// Whether an entry of `only` asks for the kind of this name: it is empty, the name, or what stands before a dot of it.
fn asks_for(entry: &str, name: &str) -> bool
    ensures { result ≡ spec.asks_for entry.now name.now }
{
    entry == "" || entry == name || goes_on_by_dot(entry, name)
}

/// Whether one of these entries asks for the kind of this name.
fn ask_for(entries: &[OwnedText], name: &str) -> bool
    ensures { result ≡ list_any (λ entry. spec.asks_for entry name.now) entries.now }
{
    entries.iter().any(|entry| asks_for(entry.as_str(), name))
}

/// Whether actions of the kind are asked for.
fn is_asked_for(only: &Option<Items<OwnedText>>, kind: CodeActionKind) -> bool
    ensures { result ≡ spec.is_asked_for only.now kind }
{
    match only {
        Some(entries) => ask_for(entries.as_slice(), kind.name()),
        None => true,
    }
}

/// Whether actions of some kind are asked for.
fn is_any_asked_for(only: &Option<Items<OwnedText>>) -> bool
    ensures { result ≡ (spec.is_asked_for only.now action.Extract || (spec.is_asked_for only.now action.Inline || spec.is_asked_for only.now action.Rewrite)) }
{
    is_asked_for(only, CodeActionKind::Extract)
        || is_asked_for(only, CodeActionKind::Inline)
        || is_asked_for(only, CodeActionKind::Rewrite)
}

/// A valid project, what is known of it, and its index, for all kinds of actions.
#[derive(Clone, Copy)]
pub(crate) struct Studied<'a> {
    valid: &'a Valid,
    known: Known<'a>,
    index: &'a Index,
}

/// The answer to the refactoring of a kind, of a range in bytes.
fn refactoring(
    alloc: Global,
    studied: &Studied<'_>,
    kind: CodeActionKind,
    key: &str,
    range: Span,
) -> Result<Edit, Refusal>
    requires { IsStudied studied.now }
    ensures answer { ∥ IsAnswerKept kind studied.now.valid.now (record { key = key.now; range = range }) result ∥₁ }
    ensures fits { IfOk result (FitDocuments studied.now.valid.now) }
    ensures valid { IfOk result (λ edit. ∥ IsValid (after_edit edit studied.now.valid.now) ∥₁) }
{
    let Studied {
        valid,
        known,
        index,
    } = *studied;
    match kind {
        CodeActionKind::Extract => extract_by(alloc, valid, known, index, key, range),
        CodeActionKind::Inline => inline_by(alloc, valid, known, index, key, range),
        CodeActionKind::Rewrite => remove_redundant_by(alloc, valid, known, index, key, range),
    }
}

/// The edit of the refactoring, unless it is refused.
fn edit_if_any(
    alloc: Global,
    studied: &Studied<'_>,
    kind: CodeActionKind,
    key: &str,
    range: Span,
) -> Result<Option<Edit>, NoMemory>
    requires { IsStudied studied.now }
    ensures edit { IfOk result (λ edit. ∥ IsEditIfAny kind studied.now.valid.now (record { key = key.now; range = range }) edit ∥₁) }
    ensures fits { IfOk result (λ edit. IfSome edit (FitDocuments studied.now.valid.now)) }
{
    edits_name_documents_at_their_versions();
    edits_lead_back();
    let project = studied.valid.project();
    documents_are_texts(project);
    match refactoring(alloc, studied, kind, key, range) {
        Ok(edit) => Ok(Some(edit)),
        Err(why) => no_edit(why),
    }
}

/// No edit, where a refactoring is refused, or want of memory.
fn no_edit(why: Refusal) -> Result<Option<Edit>, NoMemory>
    ensures none { IfOk result (λ edit. edit ≡ None) }
    ensures other { OnOk result (why ≡ refusal.NoMemory → ⊥) }
{
    match why {
        Refusal::NoMemory => Err(NoMemory),
        _ => Ok(None),
    }
}

/// Adds the action of a kind, if that is asked for and its refactoring is not refused.
fn put_action(
    alloc: Global,
    encoding: PositionEncoding,
    studied: &Studied<'_>,
    params: &CodeActionParams,
    range: Span,
    kind: CodeActionKind,
    actions: &mut Items<CodeAction>,
) -> Result<(), NoMemory>
    requires studied { IsStudied studied.now }
    requires texts { AreTexts studied.now.valid.now }
    ensures { OnOk result (∥ AddsGiven encoding studied.now.valid.now (record { key = params.now.key; range = range }) params.now.only kind actions.old actions.new ∥₁) }
{
    if !is_asked_for(&params.only, kind) {
        return Ok(());
    }
    match edit_if_any(alloc, studied, kind, params.key.as_str(), range)? {
        Some(edit) => {
            let edit = to_positions(alloc, encoding, studied.valid.project(), &edit)?;
            actions.push(CodeAction { kind, edit })?;
            Ok(())
        }
        None => Ok(()),
    }
}

/// The actions in a valid project, in order of kinds.
fn actions_over(
    alloc: Global,
    encoding: PositionEncoding,
    studied: &Studied<'_>,
    params: &CodeActionParams,
    range: Span,
) -> Result<Items<CodeAction>, NoMemory>
    requires studied { IsStudied studied.now }
    requires texts { AreTexts studied.now.valid.now }
    ensures { IfOk result (λ actions. (id : Id) → ∥ spec.TellsCodeActions encoding studied.now.valid.now id params.now range (outgoing.CodeActions id actions) ∥₁) }
{
    let mut actions = Items::new(alloc);
    put_action(
        alloc,
        encoding,
        studied,
        params,
        range,
        CodeActionKind::Extract,
        &mut actions,
    )?;
    put_action(
        alloc,
        encoding,
        studied,
        params,
        range,
        CodeActionKind::Inline,
        &mut actions,
    )?;
    put_action(
        alloc,
        encoding,
        studied,
        params,
        range,
        CodeActionKind::Rewrite,
        &mut actions,
    )?;
    Ok(actions)
}

/// The actions that are asked for, where it is known whether the project is valid, and where it is the index is made. One
/// that is not valid has none.
fn actions_studied(
    alloc: Global,
    encoding: PositionEncoding,
    kept: &Kept,
    params: &CodeActionParams,
) -> Result<Items<CodeAction>, NoMemory>
    requires texts { AreTexts kept.now.documents }
    requires judged { kept.now.is_judged ≡ true }
    requires indexed { ∥ IsValid kept.now.documents ∥₁ → kept.now.is_indexed ≡ true }
    ensures { IfOk result (λ actions. (id : Id)
        → ∥ spec.TellsCodeActions encoding kept.now.documents id params.now (span_at encoding kept.now.documents params.now.key params.now.range) (outgoing.CodeActions id actions) ∥₁) }
{
    // its documents are read, whatever they are
    let known = kept.known();
    let range = span_at(encoding, kept.project(), params.key.as_str(), params.range);
    let Some(valid) = kept.valid() else {
        return Ok(Items::new(alloc));
    };
    // it is valid
    let _project = valid.project();
    let studied = Studied {
        valid,
        known,
        index: kept.index(),
    };
    let actions = actions_over(alloc, encoding, &studied, params, range)?;
    Ok(actions)
}

/// The actions that are asked for, by what is kept. Where none are, nothing is found out for them.
pub(crate) fn ask_code_actions(
    alloc: Global,
    encoding: PositionEncoding,
    kept: &mut Kept,
    params: &CodeActionParams,
) -> Result<Items<CodeAction>, NoMemory>
    requires { AreTexts kept.old.documents }
    ensures told { IfOk result (λ actions. (id : Id)
        → ∥ spec.TellsCodeActions encoding kept.old.documents id params.now (span_at encoding kept.old.documents params.now.key params.now.range) (outgoing.CodeActions id actions) ∥₁) }
    ensures documents { kept.new.documents ≡ kept.old.documents }
{
    if !is_any_asked_for(&params.only) {
        return Ok(Items::new(alloc));
    }
    kept.study(alloc)?;
    let actions = actions_studied(alloc, encoding, kept, params)?;
    Ok(actions)
}
