//! Extract: selections are put into a new fragment (GraphQL, October 2021, section 2.8).
ghost use Rattle.std.specs.Prelude.{◌≡◌, ◌⊎◌, Err, IfOk};
ghost use Rattle.std.specs.Option.{option_map};
ghost use Rattle.gq_edit.specs.Edits.{FitDocuments, after_edit};
ghost use Rattle.gq_index.specs.Indexed.{IsIndexOfProject};
ghost use Rattle.gq_known.specs.Known.{IsKnown};
ghost use Rattle.gq_types.specs.Look.{types_view, text_of};
ghost use Rattle.gq_rules.specs.Validity.{IsValid};
ghost use Rattle.gq_document.specs.SetViews.{set_view};
ghost use Rattle.gq_laws.specs.Rewriting.Parts.{IsPartOf};
ghost use Rattle.gq_rename.specs.declared.refusal.Refusal.TheVariants as refusal;
ghost use Rattle.gq_reshape.specs.Extract.{extract_replacements};
ghost use Rattle.gq_reshape.specs.Helping.About.{IsAbout, IsSomeRunOn};
ghost use Rattle.gq_reshape.specs.Reshape.{IsExtractAnswer};
ghost use Rattle.gq_reshape.specs.Responses.{KeepsResponses};
ghost use Rattle.gq_reshape.specs.Helping.Steps.{HasObject, IsOffered, IsPossibleParent, IsNoRun};

use crate::asked::{Asked, sets_of};
use crate::laws::extracts_pass;
use crate::limits::limited_edit;
use crate::naming::{extracted_name, free_number};
use crate::placed::PlacedReplacement;
use crate::reshaping::{Reshaping, reshape, reshape_by};
use crate::texts::{fragment_text, spread_text};
use gq_document::SetIn;
use gq_edit::Edit;
use gq_index::Index;
use gq_index::laws::documents_have_one_list;
use gq_known::Known;
use gq_lex::laws::one_reading;
use gq_rename::Refusal;
use gq_rename::checking::documents_are_texts;
use gq_rules::Valid;
use gq_select::{find_run, innermost, touched};
use gq_text::{NoMemory, Replacement, Span};
use gq_types::Types;
use std::alloc::Global;

/// Whether an object type is possible for the type of that name (section 5.5.2.3).
fn has_object(alloc: Global, types: &Types, type_name: &str) -> Result<bool, NoMemory>
    ensures { IfOk result (HasObject (types_view types.now) type_name.now) }
{
    let objects = types.possible(alloc, type_name)?;
    Ok(!objects.is_empty())
}

/// The parent, if an object type is possible for it.
fn possible_parent<'a>(
    alloc: Global,
    types: &Types,
    parent: Option<&'a str>,
) -> Result<Option<&'a str>, NoMemory>
    ensures { IfOk result (λ found. IsPossibleParent (types_view types.now) (text_of parent.entry) (text_of found)) }
{
    let Some(on) = parent else {
        return Ok(None);
    };
    if has_object(alloc, types, on)? {
        Ok(Some(on))
    } else {
        Ok(None)
    }
}

/// Why nothing is extracted where there is no run: the innermost set in question has no possible object type, or what
/// is asked for are no siblings of it.
fn no_run(alloc: Global, types: &Types, set: Option<SetIn<'_>>) -> Result<Refusal, NoMemory>
    ensures { IfOk result (IsNoRun (types_view types.now) (option_map set_view set.entry)) }
{
    let Some(set) = set else {
        return Ok(Refusal::NothingHere);
    };
    match possible_parent(alloc, types, set.parent)? {
        Some(_) => Ok(Refusal::NotSiblings),
        None => Ok(Refusal::NoPossibleType),
    }
}

/// What is put for the run of that place, and at the end of the text.
fn extract_replacements(
    alloc: Global,
    file: usize,
    text: &str,
    place: Span,
    name: &str,
    on: &str,
) -> Result<Vec<PlacedReplacement>, NoMemory>
    requires { IsPartOf text.now place }
    ensures { IfOk result (λ replacements. replacements.items ≡ extract_replacements file text.now place name.now on.now) }
{
    let run = &text[place.start..place.end];
    let after = &text[place.end..];
    let end = Span {
        start: text.len(),
        end: text.len(),
    };
    let mut replacements = Vec::new(alloc);
    replacements.push(PlacedReplacement {
        file,
        replacement: Replacement {
            span: place,
            text: spread_text(alloc, name, after)?,
        },
    })?;
    replacements.push(PlacedReplacement {
        file,
        replacement: Replacement {
            span: end,
            text: fragment_text(alloc, name, on, run)?,
        },
    })?;
    Ok(replacements)
}

/// The edit that puts the run of that place into a new fragment on that type, if no edited text passes a limit. It leaves a valid
/// project, so no edited text is compared with a tree.
fn extract_run(alloc: Global, asked: Asked<'_>, place: Span, on: &str) -> Result<Edit, Refusal>
    requires about { IsAbout asked }
    requires run { IsSomeRunOn asked place on.now }
    ensures answer { IsKnown asked.entry.known → IsIndexOfProject asked.entry.valid.now asked.entry.index.now → IsOffered Reshaping.Extract asked.entry result }
    ensures fits { IfOk result (FitDocuments asked.entry.valid.now) }
{
    extracts_pass();
    one_reading();
    documents_have_one_list();
    let number = free_number(alloc, asked.index)?;
    let name = extracted_name(alloc, number)?;
    let name = name.as_str();
    let text = asked.document.text.as_str();
    let replacements = extract_replacements(alloc, asked.file, text, place, name, on)?;
    limited_edit(alloc, asked, &replacements)
}

/// The answer to an extract of what the range touches.
pub(crate) fn extract_range(alloc: Global, asked: Asked<'_>) -> Result<Edit, Refusal>
    requires { IsAbout asked }
    ensures answer { IsKnown asked.entry.known → IsIndexOfProject asked.entry.valid.now asked.entry.index.now → IsOffered Reshaping.Extract asked.entry result }
    ensures fits { IfOk result (FitDocuments asked.entry.valid.now) }
{
    one_reading();
    let Some(place) = touched(alloc, asked.document.text.as_str(), asked.range)? else {
        return Err(Refusal::NothingHere);
    };
    let sets = sets_of(alloc, asked)?;
    let Some(run) = find_run(&sets, place) else {
        return Err(no_run(alloc, asked.known.types, innermost(&sets, place))?);
    };
    match possible_parent(alloc, asked.known.types, run.parent)? {
        Some(on) => extract_run(alloc, asked, place, on),
        None => Err(Refusal::NoPossibleType),
    }
}

/// The edit that puts the selections that the range means, in bytes of the document of that key, into a new fragment at
/// the end of that document, with a spread in their place. The selections are those of one set from the first token that
/// the range touches to the last one; the fragment is on the type of the set's parent, and is called ExtractedN with the
/// least N from 1 that is free.
///
/// It is refused, in this order, as NothingHere where no token is touched or the tokens stand in no selection set,
/// NoPossibleType where no object type is possible for the parent, NotSiblings where there are no such selections, and TooLarge
/// where an edited text would pass a limit; and as NoMemory where a growth was refused. It is never refused as SelfCheck, since
/// such an edit leaves a valid project.
pub fn extract(alloc: Global, valid: &Valid, key: &str, range: Span) -> Result<Edit, Refusal>
    ensures answer { (result ≡ Err refusal.NoMemory) ⊎ IsExtractAnswer valid.now (record { key = key.now; range = range }) result }
    ensures fits { IfOk result (FitDocuments valid.now) }
    ensures responses { IfOk result (KeepsResponses valid.now) }
    ensures valid { IfOk result (λ edit. ∥ IsValid (after_edit edit valid.now) ∥₁) }
    ensures never_self_check { result ≡ Err refusal.SelfCheck → ⊥ }
{
    extracts_pass();
    documents_are_texts(valid.project());
    reshape(alloc, Reshaping::Extract, valid, key, range)
}

/// The same over what is known of the project and its index.
pub fn extract_by(
    alloc: Global,
    valid: &Valid,
    known: Known<'_>,
    index: &Index,
    key: &str,
    range: Span,
) -> Result<Edit, Refusal>
    requires known { ∥ IsKnown known ∥₁ }
    requires project { known.project.now ≡ valid.now }
    requires index { ∥ IsIndexOfProject valid.now index.now ∥₁ }
    ensures answer { IsKnown known.entry → IsIndexOfProject valid.now index.now →
        (result ≡ Err refusal.NoMemory) ⊎ IsExtractAnswer valid.now (record { key = key.now; range = range }) result }
    ensures fits { IfOk result (FitDocuments valid.now) }
    ensures responses { IsKnown known.entry → IsIndexOfProject valid.now index.now → IfOk result (KeepsResponses valid.now) }
    ensures valid { IfOk result (λ edit. ∥ IsValid (after_edit edit valid.now) ∥₁) }
    ensures never_self_check { result ≡ Err refusal.SelfCheck → ⊥ }
{
    extracts_pass();
    documents_are_texts(valid.project());
    reshape_by(alloc, Reshaping::Extract, valid, known, index, key, range)
}
