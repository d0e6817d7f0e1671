//! The checks of an edit.
ghost use Rattle.gq_edit.specs.Edits.{FitDocuments, after_edit};
ghost use Rattle.gq_project.specs.Documents.{IsInOrder};
ghost use Rattle.gq_rules.specs.Validity.{IsValid};
ghost use Rattle.gq_rename.specs.Checked.{IsMeasured};
ghost use Rattle.gq_rename.specs.Sound.{AreUtf8};

use crate::refusal::Refusal;
use gq_edit::{Edit, first_too_large};
use gq_project::Project;

/// The edit, if each edited text has at most 4 MiB, else `TooLarge`. It is known to leave a valid project, and no text is
/// read or copied.
pub fn measured(project: &Project, edit: Edit) -> Result<Edit, Refusal>
    requires fit { FitDocuments project.now edit }
    requires valid { ∥ IsValid (after_edit edit project.now) ∥₁ }
    ensures { IsMeasured project.now edit result }
{
    if first_too_large(project, &edit).is_some() {
        return Err(Refusal::TooLarge);
    }
    Ok(edit)
}

/// The documents of a project stand in order, and their texts are UTF-8.
pub fn documents_are_texts(project: &Project)
    ensures in_order { IsInOrder project.now }
    ensures utf8 { AreUtf8 project.now }
{
    for document in project.documents() {
        let _text = document.text.as_str();
    }
}
