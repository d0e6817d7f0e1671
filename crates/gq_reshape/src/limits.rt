//! The edit of replacements that are known to be sound, where the edited texts pass no limit.
ghost use Rattle.std.specs.Prelude.{◌≡◌, ◌↔◌, IfOk, IsTrue};
ghost use Rattle.std.specs.Option.{ForSome};
ghost use Rattle.gq_edit.specs.Edits.{FitDocuments, after_edit, document_of};
ghost use Rattle.gq_edit.specs.Replacements.{FitText};
ghost use Rattle.gq_rename.specs.Checked.{IsMeasured};
ghost use Rattle.gq_rules.specs.Validity.{IsValid};
ghost use Rattle.gq_reshape.specs.Placed.{edits_from};
ghost use Rattle.gq_reshape.specs.Helping.Fitting.{AllFit};
ghost use Rattle.gq_reshape.specs.Helping.Limited.{ArePassed, IsLimited, OnePasses, TextPasses};

use crate::asked::Asked;
use crate::depth::tokens_pass_limit;
use crate::placed::{PlacedReplacement, edit_of};
use gq_edit::{DocumentEdit, Edit, document, first_too_large, replaced_text};
use gq_project::Project;
use gq_rename::Refusal;
use gq_rename::checking::measured;
use gq_text::NoMemory;
use std::alloc::Global;

/// Whether the text that the document edit leaves has too many tokens, or they nest too deep. Of the project only that text is
/// made and read.
fn text_passes(alloc: Global, project: &Project, edit: &DocumentEdit) -> Result<bool, NoMemory>
    requires { ForSome (document_of project.now edit.now) (λ doc. FitText doc.text edit.now.replacements) }
    ensures { IfOk result (λ passes. IsTrue passes ↔ TextPasses project.now edit.now) }
{
    let Some(doc) = document(project, edit) else {
        return Ok(false);
    };
    let text = replaced_text(alloc, doc.text.as_str(), edit.replacements.as_slice())?;
    tokens_pass_limit(alloc, text.as_str())
}

/// Whether one of the texts that the edit leaves does.
fn one_passes(alloc: Global, project: &Project, edit: &Edit) -> Result<bool, NoMemory>
    requires { FitDocuments project.now edit.now }
    ensures { IfOk result (OnePasses project.now edit.now) }
{
    for document_edit in edit.documents() {
        if text_passes(alloc, project, document_edit)? {
            return Ok(true);
        }
    }
    Ok(false)
}

/// Whether one of them passes a limit, of bytes too.
fn are_passed(alloc: Global, project: &Project, edit: &Edit) -> Result<bool, NoMemory>
    requires { FitDocuments project.now edit.now }
    ensures { IfOk result (ArePassed project.now edit.now) }
{
    match first_too_large(project, edit) {
        Some(_large) => Ok(true),
        None => one_passes(alloc, project, edit),
    }
}

/// The edit that makes these replacements, if the edited texts pass no limit.
pub(crate) fn limited_edit(
    alloc: Global,
    asked: Asked<'_>,
    replacements: &[PlacedReplacement],
) -> Result<Edit, Refusal>
    requires project { asked.known.project.now ≡ asked.valid.now }
    requires fit { AllFit replacements.now 0 asked.valid.now }
    ensures limited { IsLimited asked.entry.valid.now (edits_from replacements.now 0 asked.entry.valid.now) result }
    ensures fits { IfOk result (FitDocuments asked.entry.valid.now) }
{
    let project = asked.known.project;
    let edit = edit_of(alloc, project, replacements)?;
    if are_passed(alloc, project, &edit)? {
        return Err(Refusal::TooLarge);
    }
    Ok(edit)
}

/// The edit that makes these replacements, if the edited texts have at most 4 MiB. It is known to leave a valid project, and no
/// text is read or copied.
pub(crate) fn sound_edit(
    alloc: Global,
    asked: Asked<'_>,
    replacements: &[PlacedReplacement],
) -> Result<Edit, Refusal>
    requires project { asked.known.project.now ≡ asked.valid.now }
    requires fit { AllFit replacements.now 0 asked.valid.now }
    requires valid { ∥ IsValid (after_edit (edits_from replacements.now 0 asked.valid.now) asked.valid.now) ∥₁ }
    ensures measured { IsMeasured asked.entry.valid.now (edits_from replacements.now 0 asked.entry.valid.now) result }
    ensures fits { IfOk result (FitDocuments asked.entry.valid.now) }
{
    let project = asked.known.project;
    let edit = edit_of(alloc, project, replacements)?;
    measured(project, edit)
}
