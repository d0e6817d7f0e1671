//! Inline: a spread becomes an inline fragment with what its fragment selects (GraphQL, October 2021, section 2.8.2).
ghost use Rattle.std.specs.Prelude.{◌≡◌, ◌⊎◌, ◌||◌, Err, true, IfOk, map};
ghost use Rattle.std.specs.List.{list_any};
ghost use Rattle.gq_tree.specs.Views.{directive_view, sel_view};
ghost use Rattle.gq_edit.specs.Edits.{FitDocuments, after_edit};
ghost use Rattle.gq_index.specs.Indexed.{IsIndexOfProject};
ghost use Rattle.gq_known.specs.Known.{IsKnown};
ghost use Rattle.gq_rules.specs.Validity.{IsValid};
ghost use Rattle.gq_select.specs.Meant.{is_spread};
ghost use Rattle.gq_laws.specs.Rewriting.Parts.{DirectivesFit, IsPartOf};
ghost use Rattle.gq_rename.specs.declared.refusal.Refusal.TheVariants as refusal;
ghost use Rattle.gq_reshape.specs.Inline.{comes_first, has_directive, in_order, inline_replacements, is_in_way};
ghost use Rattle.gq_reshape.specs.Helping.About.{IsAbout, IsDirectiveFree, IsSpreadOf, spread_head};
ghost use Rattle.gq_reshape.specs.Helping.Fragments.{fragment_found};
ghost use Rattle.gq_reshape.specs.Reshape.{IsInlineAnswer};
ghost use Rattle.gq_reshape.specs.Responses.{KeepsResponses};
ghost use Rattle.gq_reshape.specs.Helping.Steps.{IsOffered};

use crate::asked::{Asked, meant_in};
use crate::fragments::{FragmentIn, fragment_called};
use crate::laws::inlines_pass;
use crate::limits::limited_edit;
use crate::naming::is_only_spread;
use crate::placed::PlacedReplacement;
use crate::reshaping::{Reshaping, reshape, reshape_by};
use crate::texts::inlined_text;
use gq_edit::Edit;
use gq_index::Index;
use gq_index::laws::documents_have_one_list;
use gq_known::Known;
use gq_rename::Refusal;
use gq_rename::checking::documents_are_texts;
use gq_rules::Valid;
use gq_rules::laws::no_project_is_valid_and_invalid;
use gq_select::SelectionKind;
use gq_text::{NoMemory, OwnedText, Replacement, Span};
use gq_tree::{Directive, Selection, Spread};
use std::alloc::Global;

/// Whether a directive is none of `@skip` and `@include`.
fn is_in_way(directive: &Directive) -> bool
    ensures { result ≡ is_in_way (directive_view directive.now) }
{
    let name = directive.name.text.as_str();
    name != "skip" && name != "include"
}

/// Whether one of these directives is none of `@skip` and `@include`.
fn is_one_in_way(directives: &[Directive]) -> bool
    ensures { result ≡ list_any is_in_way (map directive_view directives.now) }
{
    for directive in directives {
        if is_in_way(directive) {
            return true;
        }
    }
    false
}

/// Whether the first replacement stands before the second one.
fn comes_first(a: &PlacedReplacement, b: &PlacedReplacement) -> bool
    ensures { result ≡ comes_first a.now b.now }
{
    a.file < b.file || (a.file == b.file && a.replacement.span.start < b.replacement.span.start)
}

/// The two replacements in the order of documents and places.
fn in_order(
    alloc: Global,
    a: PlacedReplacement,
    b: PlacedReplacement,
) -> Result<Vec<PlacedReplacement>, NoMemory>
    ensures { IfOk result (λ replacements. replacements.items ≡ in_order a b) }
{
    let mut replacements = Vec::new(alloc);
    if comes_first(&b, &a) {
        replacements.push(b)?;
        replacements.push(a)?;
    } else {
        replacements.push(a)?;
        replacements.push(b)?;
    }
    Ok(replacements)
}

/// What is put for the spread, and for the definition where it goes.
fn inline_replacements(
    alloc: Global,
    file: usize,
    text: &str,
    spread: &Spread,
    found: &FragmentIn<'_>,
    home: &str,
    goes: bool,
) -> Result<Vec<PlacedReplacement>, NoMemory>
    requires directives { DirectivesFit text.now 0 (map directive_view spread.now.directives.items) }
    requires braces { IsPartOf home.now (fragment_found found.now).braces }
    ensures { IfOk result (λ replacements. replacements.items ≡
        inline_replacements file text.now (map directive_view spread.now.directives.items) spread.now.span (fragment_found found.now) home.now goes) }
{
    let opened = PlacedReplacement {
        file,
        replacement: Replacement {
            span: spread.span,
            text: inlined_text(
                alloc,
                text,
                home,
                &spread.directives,
                found.definition.on.text.as_str(),
                found.definition.set.span,
            )?,
        },
    };
    if goes {
        let gone = PlacedReplacement {
            file: found.file,
            replacement: Replacement {
                span: found.definition.span,
                text: OwnedText::from_string(String::new(alloc)),
            },
        };
        return in_order(alloc, opened, gone);
    }
    let mut replacements = Vec::new(alloc);
    replacements.push(opened)?;
    Ok(replacements)
}

/// Whether a directive of the spread or of the definition is in the way.
fn is_directive_in_way(spread: &Spread, found: &FragmentIn<'_>) -> bool
    ensures { result ≡ (list_any is_in_way (map directive_view spread.now.directives.items) || has_directive (fragment_found found.now).directives) }
{
    is_one_in_way(&spread.directives) || !found.definition.directives.is_empty()
}

/// The edit that puts what its fragment selects for the spread, if the edited texts pass no limit. It leaves a valid project, so
/// no edited text is parsed.
fn inline_spread(
    alloc: Global,
    asked: Asked<'_>,
    spread: &Spread,
    found: &FragmentIn<'_>,
) -> Result<Edit, Refusal>
    requires about { IsAbout asked }
    requires of { IsSpreadOf asked spread.now (fragment_found found.now) }
    requires free { IsDirectiveFree (map directive_view spread.now.directives.items) (fragment_found found.now) }
    ensures answer { IsKnown asked.entry.known → IsIndexOfProject asked.entry.valid.now asked.entry.index.now → IsOffered Reshaping.Inline asked.entry result }
    ensures fits { IfOk result (FitDocuments asked.entry.valid.now) }
{
    inlines_pass();
    no_project_is_valid_and_invalid();
    documents_have_one_list();
    let project = asked.valid.project();
    let goes = is_only_spread(asked.index, spread.name.text.as_str());
    let text = asked.document.text.as_str();
    let home = project.documents()[found.file].text.as_str();
    let replacements = inline_replacements(alloc, asked.file, text, spread, found, home, goes)?;
    limited_edit(alloc, asked, &replacements)
}

/// The spread that a selection is.
#[tactic(auto, using(gq_tree::proofs::Trees::views))]
fn as_spread(selection: &Selection) -> &Spread
    requires { is_spread (sel_view selection.now).label ≡ true }
    ensures { (sel_view selection.now).label ≡ spread_head result.now }
{
    match selection {
        Selection::Spread(spread) => spread,
        Selection::Field(_) => unreachable!(),
        Selection::Inline(_) => unreachable!(),
    }
}

/// The answer to an inline of the spread that the range means.
pub(crate) fn inline_range(alloc: Global, asked: Asked<'_>) -> Result<Edit, Refusal>
    requires { IsAbout asked }
    ensures answer { IsKnown asked.entry.known → IsIndexOfProject asked.entry.valid.now asked.entry.index.now → IsOffered Reshaping.Inline asked.entry result }
    ensures fits { IfOk result (FitDocuments asked.entry.valid.now) }
{
    let Some(standing) = meant_in(alloc, asked, SelectionKind::Spread)? else {
        return Err(Refusal::NothingHere);
    };
    let spread = as_spread(standing.selection);
    let Some(found) = fragment_called(asked.known.readings, spread.name.text.as_str()) else {
        return Err(Refusal::NothingHere);
    };
    if is_directive_in_way(spread, &found) {
        return Err(Refusal::DirectiveInWay);
    }
    inline_spread(alloc, asked, spread, &found)
}

/// The edit that puts what its fragment selects for the spread that the range means, in bytes of the document of that
/// key: of the spreads whose place holds the range, the one that begins last. The spread becomes an inline fragment with
/// its directives; where it was the only one of its fragment, the definition goes.
///
/// It is refused, in this order, as NothingHere where no spread is meant, DirectiveInWay where the spread has another
/// directive than `@skip` and `@include` or the definition has any, and TooLarge where an edited text would pass a limit; and as
/// NoMemory where a growth was refused. It is never refused as SelfCheck, since such an edit leaves a valid project.
pub fn inline(alloc: Global, valid: &Valid, key: &str, range: Span) -> Result<Edit, Refusal>
    ensures answer { (result ≡ Err refusal.NoMemory) ⊎ IsInlineAnswer valid.now (record { key = key.now; range = range }) result }
    ensures fits { IfOk result (FitDocuments valid.now) }
    ensures responses { IfOk result (KeepsResponses valid.now) }
    ensures valid { IfOk result (λ edit. ∥ IsValid (after_edit edit valid.now) ∥₁) }
    ensures never_self_check { result ≡ Err refusal.SelfCheck → ⊥ }
{
    inlines_pass();
    documents_are_texts(valid.project());
    reshape(alloc, Reshaping::Inline, valid, key, range)
}

/// The same over what is known of the project and its index.
pub fn inline_by(
    alloc: Global,
    valid: &Valid,
    known: Known<'_>,
    index: &Index,
    key: &str,
    range: Span,
) -> Result<Edit, Refusal>
    requires known { ∥ IsKnown known ∥₁ }
    requires project { known.project.now ≡ valid.now }
    requires index { ∥ IsIndexOfProject valid.now index.now ∥₁ }
    ensures answer { IsKnown known.entry → IsIndexOfProject valid.now index.now →
        (result ≡ Err refusal.NoMemory) ⊎ IsInlineAnswer valid.now (record { key = key.now; range = range }) result }
    ensures fits { IfOk result (FitDocuments valid.now) }
    ensures responses { IsKnown known.entry → IsIndexOfProject valid.now index.now → IfOk result (KeepsResponses valid.now) }
    ensures valid { IfOk result (λ edit. ∥ IsValid (after_edit edit valid.now) ∥₁) }
    ensures never_self_check { result ≡ Err refusal.SelfCheck → ⊥ }
{
    inlines_pass();
    documents_are_texts(valid.project());
    reshape_by(alloc, Reshaping::Inline, valid, known, index, key, range)
}
