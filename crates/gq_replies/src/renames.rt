//! Renames that are asked for.
ghost use Rattle.std.specs.Prelude.{◌≡◌, true};
ghost use Rattle.gq_edit.specs.Workspace.{AreTexts};
ghost use Rattle.gq_index.specs.Indexed.{IsIndexOfProject};
ghost use Rattle.gq_known.specs.Known.{IsKnown};
ghost use Rattle.gq_rules.specs.Validity.{IsValid};
ghost use Rattle.gq_replies.specs.Helping.Results.{IsRenameResult};

use gq_edit::{WorkspaceEdit, to_positions};
use gq_index::Index;
use gq_kept::Kept;
use gq_known::Known;
use gq_rename::checking::documents_are_texts;
use gq_rename::laws::{renames_lead_back, renames_name_versions};
use gq_rename::{Refusal, rename_by};
use gq_rpc::RenameParams;
use gq_rules::Valid;
use gq_text::PositionEncoding;
use std::alloc::Global;

/// What a rename at this offset, in bytes, comes to in what is kept: its edit, by positions in the texts.
pub(crate) fn rename_at(
    alloc: Global,
    encoding: PositionEncoding,
    kept: &mut Kept,
    params: &RenameParams,
    offset: usize,
) -> Result<WorkspaceEdit, Refusal>
    requires { AreTexts kept.old.documents }
    ensures renamed { ∥ IsRenameResult encoding kept.old.documents params.now offset result ∥₁ }
    ensures documents { kept.new.documents ≡ kept.old.documents }
{
    kept.study(alloc)?;
    rename_studied(alloc, encoding, kept, params, offset)
}

/// The same, where it is known whether the project is valid, and where it is the index is made.
fn rename_studied(
    alloc: Global,
    encoding: PositionEncoding,
    kept: &Kept,
    params: &RenameParams,
    offset: usize,
) -> Result<WorkspaceEdit, Refusal>
    requires texts { AreTexts kept.now.documents }
    requires judged { kept.now.is_judged ≡ true }
    requires indexed { ∥ IsValid kept.now.documents ∥₁ → kept.now.is_indexed ≡ true }
    ensures { ∥ IsRenameResult encoding kept.now.documents params.now offset result ∥₁ }
{
    // its documents are read, whatever they are
    let known = kept.known();
    match kept.valid() {
        Some(valid) => {
            // it is valid
            let _project = valid.project();
            rename_in(alloc, encoding, valid, known, kept.index(), params, offset)
        }
        None => Err(Refusal::ProjectInvalid),
    }
}

/// The edit of a rename in a valid project, by positions in its texts, over what is known of it and its index.
fn rename_in(
    alloc: Global,
    encoding: PositionEncoding,
    valid: &Valid,
    known: Known<'_>,
    index: &Index,
    params: &RenameParams,
    offset: usize,
) -> Result<WorkspaceEdit, Refusal>
    requires texts { AreTexts valid.now }
    requires known { ∥ IsKnown known ∥₁ }
    requires project { known.project.now ≡ valid.now }
    requires index { ∥ IsIndexOfProject valid.now index.now ∥₁ }
    ensures { ∥ IsRenameResult encoding valid.now params.now offset result ∥₁ }
{
    renames_name_versions();
    renames_lead_back();
    let project = valid.project();
    documents_are_texts(project);
    let edit = rename_by(
        alloc,
        valid,
        known,
        index,
        params.key.as_str(),
        offset,
        params.new_name.as_str(),
    )?;
    Ok(to_positions(alloc, encoding, project, &edit)?)
}
