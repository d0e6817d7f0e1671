//! Remove: the selections of an inline fragment that says nothing stand in its place (GraphQL, October 2021, section
//! 2.8.2).
ghost use Rattle.std.specs.Prelude.{◌≡◌, ◌⊎◌, Err, true, IfOk, map};
ghost use Rattle.std.specs.Option.{option_map};
ghost use Rattle.gq_tree.specs.Views.{name_of, directive_view, sel_view};
ghost use Rattle.gq_edit.specs.Edits.{FitDocuments, after_edit};
ghost use Rattle.gq_index.specs.Indexed.{IsIndexOfProject};
ghost use Rattle.gq_known.specs.Known.{IsKnown};
ghost use Rattle.gq_types.specs.Look.{text_of};
ghost use Rattle.gq_rules.specs.Validity.{IsValid};
ghost use Rattle.gq_select.specs.Meant.{is_inline};
ghost use Rattle.gq_laws.specs.Rewriting.Parts.{IsPartOf, between};
ghost use Rattle.gq_rename.specs.declared.refusal.Refusal.TheVariants as refusal;
ghost use Rattle.gq_reshape.specs.Helping.About.{IsAbout, IsInlineAsked, inline_head};
ghost use Rattle.gq_reshape.specs.Remove.{is_parents_type, remove_replacements, says_nothing};
ghost use Rattle.gq_reshape.specs.Reshape.{IsRemoveAnswer};
ghost use Rattle.gq_reshape.specs.Responses.{KeepsResponses};
ghost use Rattle.gq_reshape.specs.Helping.Steps.{IsOffered};

use crate::asked::{Asked, meant_in};
use crate::laws::removals_pass;
use crate::limits::sound_edit;
use crate::placed::PlacedReplacement;
use crate::reshaping::{Reshaping, reshape, reshape_by};
use crate::texts::opened_text;
use gq_edit::Edit;
use gq_index::Index;
use gq_known::Known;
use gq_parse::laws::no_tree_past_limits;
use gq_rename::Refusal;
use gq_rename::checking::documents_are_texts;
use gq_rename::laws::valid_documents_are_trees;
use gq_rules::Valid;
use gq_select::SelectionKind;
use gq_text::{NoMemory, Replacement, Span};
use gq_tree::{InlineFragment, Name, Selection};
use std::alloc::Global;

/// Whether there is no condition, or it is the type of the parent.
fn is_parents_type(on: Option<&Name>, parent: Option<&str>) -> bool
    ensures { result ≡ is_parents_type (option_map (λ n. name_of n.now) on.entry) (text_of parent.entry) }
{
    match (on, parent) {
        (None, _) => true,
        (Some(on), Some(parent)) => parent == on.text.as_str(),
        (Some(_), None) => false,
    }
}

/// Whether the inline fragment says nothing.
fn says_nothing(inline: &InlineFragment, parent: Option<&str>) -> bool
    ensures { result ≡ says_nothing (option_map name_of inline.now.on) (map directive_view inline.now.directives.items) (text_of parent.entry) }
{
    inline.directives.is_empty() && is_parents_type(inline.on.as_ref(), parent)
}

/// What is put for the inline fragment of that place.
fn remove_replacements(
    alloc: Global,
    file: usize,
    text: &str,
    place: Span,
    braces: Span,
) -> Result<Vec<PlacedReplacement>, NoMemory>
    requires { IsPartOf text.now (between braces) }
    ensures { IfOk result (λ replacements. replacements.items ≡ remove_replacements file text.now place braces) }
{
    let mut replacements = Vec::new(alloc);
    replacements.push(PlacedReplacement {
        file,
        replacement: Replacement {
            span: place,
            text: opened_text(alloc, text, braces)?,
        },
    })?;
    Ok(replacements)
}

/// The edit that puts what stands between its braces for the inline fragment. It leaves a valid project, so no edited text is
/// read.
fn open_fragment(alloc: Global, asked: Asked<'_>, inline: &InlineFragment) -> Result<Edit, Refusal>
    requires about { IsAbout asked }
    requires of { IsInlineAsked asked inline.now }
    ensures answer { IsKnown asked.entry.known → IsIndexOfProject asked.entry.valid.now asked.entry.index.now → IsOffered Reshaping.Remove asked.entry result }
    ensures fits { IfOk result (FitDocuments asked.entry.valid.now) }
{
    removals_pass();
    valid_documents_are_trees();
    no_tree_past_limits();
    let text = asked.document.text.as_str();
    let replacements = remove_replacements(alloc, asked.file, text, inline.span, inline.set.span)?;
    sound_edit(alloc, asked, &replacements)
}

/// The inline fragment that a selection is.
#[tactic(auto, using(gq_tree::proofs::Trees::views))]
fn as_inline(selection: &Selection) -> &InlineFragment
    requires { is_inline (sel_view selection.now).label ≡ true }
    ensures { (sel_view selection.now).label ≡ inline_head result.now }
{
    match selection {
        Selection::Inline(inline) => inline,
        Selection::Field(_) => unreachable!(),
        Selection::Spread(_) => unreachable!(),
    }
}

/// The answer to a remove of the inline fragment that the range means.
pub(crate) fn remove_range(alloc: Global, asked: Asked<'_>) -> Result<Edit, Refusal>
    requires { IsAbout asked }
    ensures answer { IsKnown asked.entry.known → IsIndexOfProject asked.entry.valid.now asked.entry.index.now → IsOffered Reshaping.Remove asked.entry result }
    ensures fits { IfOk result (FitDocuments asked.entry.valid.now) }
{
    let Some(standing) = meant_in(alloc, asked, SelectionKind::Inline)? else {
        return Err(Refusal::NothingHere);
    };
    let inline = as_inline(standing.selection);
    if !says_nothing(inline, standing.parent) {
        return Err(Refusal::NotRedundant);
    }
    open_fragment(alloc, asked, inline)
}

/// The edit that puts the selections of the inline fragment that the range means, in bytes of the document of that key,
/// in its place: of the inline fragments whose place holds the range, the one that begins last.
///
/// It is refused, in this order, as NothingHere where none is meant, NotRedundant where it has a directive or a condition
/// other than the type of its parent, and TooLarge where an edited text would pass a limit; and as NoMemory where a growth was
/// refused. It is never refused as SelfCheck, since such an edit leaves a valid project.
pub fn remove_redundant(
    alloc: Global,
    valid: &Valid,
    key: &str,
    range: Span,
) -> Result<Edit, Refusal>
    ensures answer { (result ≡ Err refusal.NoMemory) ⊎ IsRemoveAnswer valid.now (record { key = key.now; range = range }) result }
    ensures fits { IfOk result (FitDocuments valid.now) }
    ensures responses { IfOk result (KeepsResponses valid.now) }
    ensures valid { IfOk result (λ edit. ∥ IsValid (after_edit edit valid.now) ∥₁) }
    ensures never_self_check { result ≡ Err refusal.SelfCheck → ⊥ }
{
    removals_pass();
    documents_are_texts(valid.project());
    reshape(alloc, Reshaping::Remove, valid, key, range)
}

/// The same over what is known of the project and its index.
pub fn remove_redundant_by(
    alloc: Global,
    valid: &Valid,
    known: Known<'_>,
    index: &Index,
    key: &str,
    range: Span,
) -> Result<Edit, Refusal>
    requires known { ∥ IsKnown known ∥₁ }
    requires project { known.project.now ≡ valid.now }
    requires index { ∥ IsIndexOfProject valid.now index.now ∥₁ }
    ensures answer { IsKnown known.entry → IsIndexOfProject valid.now index.now →
        (result ≡ Err refusal.NoMemory) ⊎ IsRemoveAnswer valid.now (record { key = key.now; range = range }) result }
    ensures fits { IfOk result (FitDocuments valid.now) }
    ensures responses { IsKnown known.entry → IsIndexOfProject valid.now index.now → IfOk result (KeepsResponses valid.now) }
    ensures valid { IfOk result (λ edit. ∥ IsValid (after_edit edit valid.now) ∥₁) }
    ensures never_self_check { result ≡ Err refusal.SelfCheck → ⊥ }
{
    removals_pass();
    documents_are_texts(valid.project());
    reshape_by(alloc, Reshaping::Remove, valid, known, index, key, range)
}
