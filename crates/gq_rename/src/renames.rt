//! Renames in all documents of a project.
ghost use Rattle.std.specs.Prelude.{◌≡◌, ◌⊎◌, ℕ, List, Err, IfOk};
ghost use Rattle.gq_edit.specs.Edits.{FitDocuments, after_edit};
ghost use Rattle.gq_index.specs.Indexed.{IsIndexOfProject};
ghost use Rattle.gq_known.specs.Known.{IsKnown};
ghost use Rattle.gq_rules.specs.Validity.{IsValid};
ghost use Rattle.gq_mentions.specs.declared.target.Target.{Target};
ghost use Rattle.gq_mentions.specs.declared.target.TargetKind.TheVariants as kind;
ghost use Rattle.gq_rename.specs.declared.refusal.Refusal.TheVariants as refusal;
ghost use Rattle.gq_rename.specs.Asks.{IsTarget};
ghost use Rattle.gq_rename.specs.Rename.{IsRenameAnswer, KeepsTrees};
ghost use Rattle.gq_rename.specs.Responses.{KeepsResponses};

use crate::checking::documents_are_texts;
use crate::laws::{renames_keep_responses, renames_pass};
use crate::offers::{offer_fragment, offer_variable};
use crate::refusal::Refusal;
use crate::targets::target_by;
use gq_edit::Edit;
use gq_index::Index;
use gq_known::{Known, Learned};
use gq_mentions::{Target, TargetKind};
use gq_rules::Valid;
use std::alloc::Global;

/// The edit that gives what the offset means, in bytes of the document of that key, another name: a fragment at its
/// definition and at every spread of it, a variable in the definitions of its group, in all documents of the project.
///
/// It is refused, in this order, as NothingHere where nothing that can be renamed is at the offset or the project has
/// no such document, BadName where the new name may not be its name, SameName where it is the old one, NameTaken where
/// a fragment of that name is defined or an operation of the group defines a variable of it, and TooLarge where an edited
/// text would pass a limit; and as NoMemory where a growth was refused. It is never refused as SelfCheck, since such an
/// edit leaves a valid project.
pub fn rename(
    alloc: Global,
    valid: &Valid,
    key: &str,
    offset: usize,
    new_name: &str,
) -> Result<Edit, Refusal>
    ensures answer { (result ≡ Err refusal.NoMemory) ⊎ IsRenameAnswer valid.now key.now offset new_name.now result }
    ensures fits { IfOk result (FitDocuments valid.now) }
    ensures kept { IfOk result (KeepsTrees valid.now key.now offset new_name.now) }
    ensures responses { IfOk result (KeepsResponses valid.now key.now offset new_name.now) }
    ensures valid { IfOk result (λ edit. ∥ IsValid (after_edit edit valid.now) ∥₁) }
    ensures never_self_check { result ≡ Err refusal.SelfCheck → ⊥ }
{
    let project = valid.project();
    let learned = Learned::of(alloc, project)?;
    let index = Index::of_readings(alloc, project.documents(), &learned.readings)?;
    rename_by(
        alloc,
        valid,
        learned.known(project),
        &index,
        key,
        offset,
        new_name,
    )
}

/// The same of a project that is known, and its index. No text is read.
pub fn rename_by(
    alloc: Global,
    valid: &Valid,
    known: Known<'_>,
    index: &Index,
    key: &str,
    offset: usize,
    new_name: &str,
) -> Result<Edit, Refusal>
    requires known { ∥ IsKnown known ∥₁ }
    requires project { known.project.now ≡ valid.now }
    requires index { ∥ IsIndexOfProject valid.now index.now ∥₁ }
    ensures answer { IsKnown known.entry → IsIndexOfProject valid.now index.now → (result ≡ Err refusal.NoMemory) ⊎ IsRenameAnswer valid.now key.now offset new_name.now result }
    ensures fits { IfOk result (FitDocuments valid.now) }
    ensures kept { IsKnown known.entry → IsIndexOfProject valid.now index.now → IfOk result (KeepsTrees valid.now key.now offset new_name.now) }
    ensures responses { IsKnown known.entry → IsIndexOfProject valid.now index.now → IfOk result (KeepsResponses valid.now key.now offset new_name.now) }
    ensures valid { IfOk result (λ edit. ∥ IsValid (after_edit edit valid.now) ∥₁) }
    ensures never_self_check { result ≡ Err refusal.SelfCheck → ⊥ }
{
    renames_keep_responses();
    renames_pass();
    let project = valid.project();
    documents_are_texts(project);
    match target_by(alloc, known.project, known.readings, key, offset)? {
        Some(target) => offer(alloc, valid, index, &target, new_name),
        None => Err(Refusal::NothingHere),
    }
}

/// The answer to the rename of a target, by its kind.
fn offer(
    alloc: Global,
    valid: &Valid,
    index: &Index,
    target: &Target,
    new_name: &str,
) -> Result<Edit, Refusal>
    requires index { ∥ IsIndexOfProject valid.now index.now ∥₁ }
    requires there { ∥ ((key : List ℕ) × (offset : ℕ) × IsTarget valid.now key offset target.now) ∥₁ }
    ensures answer { IsIndexOfProject valid.now index.now → (key : List ℕ) (offset : ℕ) → IsTarget valid.now key offset target.now →
        (result ≡ Err refusal.NoMemory) ⊎ IsRenameAnswer valid.now key offset new_name.now result }
    ensures fits { IfOk result (FitDocuments valid.now) }
    ensures kept { IsIndexOfProject valid.now index.now → (key : List ℕ) (offset : ℕ) →
        IsTarget valid.now key offset target.now → IfOk result (KeepsTrees valid.now key offset new_name.now) }
    ensures valid { IfOk result (λ edit. ∥ IsValid (after_edit edit valid.now) ∥₁) }
{
    match target.kind {
        TargetKind::Fragment => offer_fragment(alloc, valid, index, target, new_name),
        TargetKind::Variable => offer_variable(alloc, valid, index, target, new_name),
    }
}

/// The same where a fragment's name is at the offset, or nothing.
pub fn rename_fragment(
    alloc: Global,
    valid: &Valid,
    key: &str,
    offset: usize,
    new_name: &str,
) -> Result<Edit, Refusal>
    requires { (t : Target) → IsTarget valid.now key.now offset t → t.kind ≡ kind.Fragment }
    ensures answer { (result ≡ Err refusal.NoMemory) ⊎ IsRenameAnswer valid.now key.now offset new_name.now result }
    ensures fits { IfOk result (FitDocuments valid.now) }
    ensures kept { IfOk result (KeepsTrees valid.now key.now offset new_name.now) }
    ensures responses { IfOk result (KeepsResponses valid.now key.now offset new_name.now) }
    ensures valid { IfOk result (λ edit. ∥ IsValid (after_edit edit valid.now) ∥₁) }
    ensures never_self_check { result ≡ Err refusal.SelfCheck → ⊥ }
{
    rename(alloc, valid, key, offset, new_name)
}

/// The same where a variable is at the offset, or nothing.
pub fn rename_variable(
    alloc: Global,
    valid: &Valid,
    key: &str,
    offset: usize,
    new_name: &str,
) -> Result<Edit, Refusal>
    requires { (t : Target) → IsTarget valid.now key.now offset t → t.kind ≡ kind.Variable }
    ensures answer { (result ≡ Err refusal.NoMemory) ⊎ IsRenameAnswer valid.now key.now offset new_name.now result }
    ensures fits { IfOk result (FitDocuments valid.now) }
    ensures kept { IfOk result (KeepsTrees valid.now key.now offset new_name.now) }
    ensures responses { IfOk result (KeepsResponses valid.now key.now offset new_name.now) }
    ensures valid { IfOk result (λ edit. ∥ IsValid (after_edit edit valid.now) ∥₁) }
    ensures never_self_check { result ≡ Err refusal.SelfCheck → ⊥ }
{
    rename(alloc, valid, key, offset, new_name)
}
