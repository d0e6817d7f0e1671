//! Refactorings of selections in a valid project.
ghost use Rattle.std.specs.Prelude.{◌≡◌, ◌⊎◌, Err, IfOk};
ghost use Rattle.gq_tree.specs.Readings.{readings_view};
ghost use Rattle.gq_edit.specs.Edits.{FitDocuments, after_edit};
ghost use Rattle.gq_index.specs.Indexed.{IsIndexOfProject};
ghost use Rattle.gq_known.specs.Known.{IsKnown};
ghost use Rattle.gq_types.specs.Look.{types_view};
ghost use Rattle.gq_rules.specs.Validity.{IsValid};
ghost use Rattle.gq_rename.specs.declared.refusal.Refusal.TheVariants as refusal;
ghost use Rattle.gq_reshape.specs.Helping.About.{IsAbout};
ghost use Rattle.gq_reshape.specs.Helping.Steps.{IsAnswerTo, IsOfferOver, IsOffered};
ghost use Rattle.gq_reshape.specs.Responses.{KeepsResponses};

use crate::asked::Asked;
use crate::extracting::extract_range;
use crate::inlining::inline_range;
use crate::laws::refactorings_keep_responses;
use crate::removing::remove_range;
use gq_edit::Edit;
use gq_index::Index;
use gq_known::{Known, Learned};
use gq_rename::Refusal;
use gq_rename::checking::documents_are_texts;
use gq_rules::Valid;
use gq_text::Span;
use std::alloc::Global;

/// A refactoring of the selections that a range means.
#[derive(Clone, Copy)]
pub(crate) enum Reshaping {
    /// They are put into a new fragment.
    Extract,
    /// The spread becomes an inline fragment.
    Inline,
    /// The selections of the inline fragment stand in its place.
    Remove,
}

/// The answer to what is asked.
fn answer(alloc: Global, reshaping: Reshaping, asked: Asked<'_>) -> Result<Edit, Refusal>
    requires { IsAbout asked }
    ensures answer { IsKnown asked.entry.known → IsIndexOfProject asked.entry.valid.now asked.entry.index.now → IsOffered reshaping asked.entry result }
    ensures fits { IfOk result (FitDocuments asked.entry.valid.now) }
{
    match reshaping {
        Reshaping::Extract => extract_range(alloc, asked),
        Reshaping::Inline => inline_range(alloc, asked),
        Reshaping::Remove => remove_range(alloc, asked),
    }
}

/// The answer over what is known of the project, in the terms of its readings.
fn answer_over(
    alloc: Global,
    reshaping: Reshaping,
    valid: &Valid,
    known: Known<'_>,
    index: &Index,
    key: &str,
    range: Span,
) -> Result<Edit, Refusal>
    requires known { ∥ IsKnown known ∥₁ }
    requires project { known.project.now ≡ valid.now }
    requires index { ∥ IsIndexOfProject valid.now index.now ∥₁ }
    ensures answer { IsKnown known.entry → IsIndexOfProject valid.now index.now →
        IsOfferOver reshaping valid.now (types_view known.entry.types.now) (readings_view known.entry.readings.now) (record { key = key.now; range = range }) result }
    ensures fits { IfOk result (FitDocuments valid.now) }
{
    let project = valid.project();
    documents_are_texts(project);
    let Some(file) = project.place(key) else {
        return Err(Refusal::NothingHere);
    };
    let asked = Asked {
        valid,
        known,
        index,
        key,
        file,
        document: &project.documents()[file],
        range,
    };
    answer(alloc, reshaping, asked)
}

/// The edit of that refactoring, of the document of that key, or the first refusal whose condition holds, over what is
/// known of the project and its index.
pub(crate) fn reshape_by(
    alloc: Global,
    reshaping: Reshaping,
    valid: &Valid,
    known: Known<'_>,
    index: &Index,
    key: &str,
    range: Span,
) -> Result<Edit, Refusal>
    requires known { ∥ IsKnown known ∥₁ }
    requires project { known.project.now ≡ valid.now }
    requires index { ∥ IsIndexOfProject valid.now index.now ∥₁ }
    ensures answer { IsKnown known.entry → IsIndexOfProject valid.now index.now →
        (result ≡ Err refusal.NoMemory) ⊎ IsAnswerTo reshaping valid.now (record { key = key.now; range = range }) result }
    ensures fits { IfOk result (FitDocuments valid.now) }
    ensures responses { IsKnown known.entry → IsIndexOfProject valid.now index.now → IfOk result (KeepsResponses valid.now) }
    ensures valid { IfOk result (λ edit. ∥ IsValid (after_edit edit valid.now) ∥₁) }
{
    refactorings_keep_responses();
    documents_are_texts(valid.project());
    answer_over(alloc, reshaping, valid, known, index, key, range)
}

/// The same, with the project learned and indexed here.
pub(crate) fn reshape(
    alloc: Global,
    reshaping: Reshaping,
    valid: &Valid,
    key: &str,
    range: Span,
) -> Result<Edit, Refusal>
    ensures answer { (result ≡ Err refusal.NoMemory) ⊎ IsAnswerTo reshaping valid.now (record { key = key.now; range = range }) result }
    ensures fits { IfOk result (FitDocuments valid.now) }
    ensures responses { IfOk result (KeepsResponses valid.now) }
    ensures valid { IfOk result (λ edit. ∥ IsValid (after_edit edit valid.now) ∥₁) }
{
    let project = valid.project();
    let learned = Learned::of(alloc, project)?;
    let index = Index::of_readings(alloc, project.documents(), &learned.readings)?;
    let known = learned.known(project);
    reshape_by(alloc, reshaping, valid, known, &index, key, range)
}
