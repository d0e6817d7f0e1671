//! The innermost selection set about an offset (GraphQL, October 2021, section 2.4).
ghost use Rattle.std.specs.Prelude.{◌≡◌, ◌&&◌, nat_lt, IfOk};
ghost use Rattle.std.specs.Option.{option_map};
ghost use Rattle.gq_tree.specs.Views.{sel_view, sels_view, document_view};
ghost use Rattle.gq_types.specs.Look.{types_view};
ghost use Rattle.gq_document.specs.SetViews.{set_view, sets_view};
ghost use Rattle.gq_document.specs.Last.{find_last};
ghost use Rattle.gq_completion.specs.Sets.{encloses, innermost, place_in, is_within_one};

use gq_document::{SetIn, sets_in};
use gq_text::{NoMemory, Span};
use gq_tree::{Document, Selection};
use gq_types::Types;
use std::alloc::Global;

/// The last set whose braces enclose the offset.
#[tactic(auto, using(crate::proofs::TokenLemmas::keeps_last, crate::proofs::TokenLemmas::keeps_rest))]
fn last_enclosing<'a>(sets: &[SetIn<'a>], offset: usize) -> Option<SetIn<'a>>
    ensures { option_map set_view result ≡ find_last (encloses offset) (sets_view sets.now) }
{
    let mut last = None;
    for set in sets {
        if set.braces.start < offset && offset < set.braces.end {
            last = Some(*set);
        }
    }
    last
}

/// The innermost set whose braces enclose the offset. All sets are gone over, once.
pub(crate) fn innermost<'a>(
    alloc: Global,
    types: &'a Types,
    document: &'a Document,
    offset: usize,
) -> Result<Option<SetIn<'a>>, NoMemory>
    ensures { IfOk result (λ set. option_map set_view set ≡ innermost (types_view types.now) offset (document_view document.now)) }
{
    let sets = sets_in(alloc, types, document)?;
    Ok(last_enclosing(&sets, offset))
}

#[tactic(auto, using(gq_tree::proofs::Trees::views))]
fn span_of(selection: &Selection) -> Span
    ensures { result ≡ place_in (sel_view selection.now).label }
{
    match selection {
        Selection::Field(field) => field.span,
        Selection::Spread(spread) => spread.span,
        Selection::Inline(inline) => inline.span,
    }
}

/// Whether the place is behind the start and before the end of the selection.
fn is_within(place: usize, selection: &Selection) -> bool
    ensures { result ≡ (nat_lt (place_in (sel_view selection.now).label).start place && nat_lt place (place_in (sel_view selection.now).label).end) }
{
    let span = span_of(selection);
    span.start < place && place < span.end
}

/// Whether the place is so within one of the selections.
pub(crate) fn is_within_one(place: usize, selections: &[Selection]) -> bool
    ensures { result ≡ is_within_one place (sels_view selections.now) }
{
    for selection in selections {
        if is_within(place, selection) {
            return true;
        }
    }
    false
}
