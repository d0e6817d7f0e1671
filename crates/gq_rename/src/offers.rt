//! The answers to renames of a target.
ghost use Rattle.std.specs.Prelude.{◌≡◌, ◌↔◌, ◌⊎◌, ◌<◌, ℕ, List, Contains, Err, IfOk, length};
ghost use Rattle.std.specs.List.Sorted.{IsStrictlyIncreasing};
ghost use Rattle.gq_edit.specs.Edits.{FitDocuments, after_edit};
ghost use Rattle.gq_index.specs.Indexed.{IsIndexOf, IsIndexOfProject};
ghost use Rattle.gq_index.specs.Occurrences.{DefinitionOf};
ghost use Rattle.gq_index.specs.VariableGroups.{VariableGroup};
ghost use Rattle.gq_rules.specs.Validity.{IsValid};
ghost use Rattle.gq_mentions.specs.declared.target.TargetKind.TheVariants as kind;
ghost use Rattle.gq_rename.specs.declared.refusal.Refusal.TheVariants as refusal;
ghost use Rattle.gq_rename.specs.Asks.{IsTarget};
ghost use Rattle.gq_rename.specs.Rename.{IsRenameAnswer, KeepsTrees};

use crate::checking::{documents_are_texts, measured};
use crate::laws::{renames_are_sound, valid_documents_are_trees};
use crate::names::{fragment_refusal, variable_refusal};
use crate::refusal::Refusal;
use gq_cut::{fragment_edit, variable_edit};
use gq_edit::Edit;
use gq_index::Index;
use gq_index::laws::documents_have_one_list;
use gq_laws::renames_valid::{fragment_renames_stay_valid, variable_renames_stay_valid};
use gq_mentions::Target;
use gq_rules::Valid;
use std::alloc::Global;

/// The answer to the rename of a fragment that is the target. A fresh name leaves a valid project, so no edited text is
/// read.
pub(crate) fn offer_fragment(
    alloc: Global,
    valid: &Valid,
    index: &Index,
    target: &Target,
    new_name: &str,
) -> Result<Edit, Refusal>
    requires index { ∥ IsIndexOfProject valid.now index.now ∥₁ }
    requires of { target.now.kind ≡ kind.Fragment }
    ensures answer { IsIndexOfProject valid.now index.now → (key : List ℕ) (offset : ℕ) → IsTarget valid.now key offset target.now →
        (result ≡ Err refusal.NoMemory) ⊎ IsRenameAnswer valid.now key offset new_name.now result }
    ensures fits { IfOk result (FitDocuments valid.now) }
    ensures kept { IsIndexOfProject valid.now index.now → (key : List ℕ) (offset : ℕ) →
        IsTarget valid.now key offset target.now → IfOk result (KeepsTrees valid.now key offset new_name.now) }
    ensures valid { IfOk result (λ edit. ∥ IsValid (after_edit edit valid.now) ∥₁) }
{
    valid_documents_are_trees();
    renames_are_sound();
    fragment_renames_stay_valid();
    documents_have_one_list();
    let project = valid.project();
    documents_are_texts(project);
    let old_name = target.name.text.as_str();
    if let Some(refusal) = fragment_refusal(index, old_name, new_name) {
        return Err(refusal);
    }
    let edit = fragment_edit(alloc, project, index, old_name, new_name)?;
    measured(project, edit)
}

/// The answer to the rename of a variable that is the target.
pub(crate) fn offer_variable(
    alloc: Global,
    valid: &Valid,
    index: &Index,
    target: &Target,
    new_name: &str,
) -> Result<Edit, Refusal>
    requires index { ∥ IsIndexOfProject valid.now index.now ∥₁ }
    requires of { target.now.kind ≡ kind.Variable }
    requires there { ∥ ((key : List ℕ) × (offset : ℕ) × IsTarget valid.now key offset target.now) ∥₁ }
    ensures answer { IsIndexOfProject valid.now index.now → (key : List ℕ) (offset : ℕ) → IsTarget valid.now key offset target.now →
        (result ≡ Err refusal.NoMemory) ⊎ IsRenameAnswer valid.now key offset new_name.now result }
    ensures fits { IfOk result (FitDocuments valid.now) }
    ensures kept { IsIndexOfProject valid.now index.now → (key : List ℕ) (offset : ℕ) →
        IsTarget valid.now key offset target.now → IfOk result (KeepsTrees valid.now key offset new_name.now) }
    ensures valid { IfOk result (λ edit. ∥ IsValid (after_edit edit valid.now) ∥₁) }
{
    let old_name = target.name.text.as_str();
    let group = index.variable_group(alloc, target.definition, old_name)?;
    offer_group(alloc, valid, index, target, &group, new_name)
}

/// The same, with the numbers of the definitions in the variable's group. A name that no operation of the group defines
/// leaves a valid project, so no edited text is read.
fn offer_group(
    alloc: Global,
    valid: &Valid,
    index: &Index,
    target: &Target,
    group: &[usize],
    new_name: &str,
) -> Result<Edit, Refusal>
    requires index { ∥ IsIndexOfProject valid.now index.now ∥₁ }
    requires of { target.now.kind ≡ kind.Variable }
    requires there { ∥ ((key : List ℕ) × (offset : ℕ) × IsTarget valid.now key offset target.now) ∥₁ }
    requires ascending { IsStrictlyIncreasing group.now }
    requires members { (ds : List DefinitionOf) → IsIndexOf ds index.now → target.now.definition < length ds →
        (n : ℕ) → Contains group.now n ↔ VariableGroup ds target.now.name.text target.now.definition n }
    ensures answer { IsIndexOfProject valid.now index.now → (key : List ℕ) (offset : ℕ) → IsTarget valid.now key offset target.now →
        (result ≡ Err refusal.NoMemory) ⊎ IsRenameAnswer valid.now key offset new_name.now result }
    ensures fits { IfOk result (FitDocuments valid.now) }
    ensures kept { IsIndexOfProject valid.now index.now → (key : List ℕ) (offset : ℕ) →
        IsTarget valid.now key offset target.now → IfOk result (KeepsTrees valid.now key offset new_name.now) }
    ensures valid { IfOk result (λ edit. ∥ IsValid (after_edit edit valid.now) ∥₁) }
{
    valid_documents_are_trees();
    renames_are_sound();
    variable_renames_stay_valid();
    documents_have_one_list();
    let project = valid.project();
    documents_are_texts(project);
    let old_name = target.name.text.as_str();
    if let Some(refusal) = variable_refusal(index, group, old_name, new_name) {
        return Err(refusal);
    }
    let edit = variable_edit(alloc, project, index, group, old_name, new_name)?;
    measured(project, edit)
}
