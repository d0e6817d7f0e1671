//! The spread or inline fragment that a range means (GraphQL, October 2021, section 2.8).
ghost use Rattle.std.specs.Prelude.{◌≡◌, None, if◌then◌else◌};
ghost use Rattle.std.specs.Option.{option_map};
ghost use Rattle.gq_tree.specs.Views.{sel_view, sels_view};
ghost use Rattle.gq_types.specs.Look.{text_of};
ghost use Rattle.gq_document.specs.SetViews.{sets_view};
ghost use Rattle.gq_rewritten.specs.Rewrites.{head_place};
ghost use Rattle.gq_select.specs.Meant.{holds, begins_last, is_meant, later, meant, standing_in};
ghost use Rattle.gq_select.specs.Views.{is_of_kind, standing_view};

use gq_document::SetIn;
use gq_text::Span;
use gq_tree::Selection;

/// A kind of selection that has a place of its own in refactorings.
#[derive(Clone, Copy, Debug, PartialEq, Eq)]
pub enum SelectionKind {
    /// FragmentSpread (section 2.8).
    Spread,
    /// InlineFragment (section 2.8.2).
    Inline,
}

/// A selection, and the name of the type of its parent where that is known.
#[derive(Clone, Copy)]
pub struct Standing<'a> {
    pub parent: Option<&'a str>,
    pub selection: &'a Selection,
}

/// The place of all tokens of a selection.
#[tactic(auto, using(gq_tree::proofs::Trees::views))]
pub(crate) fn place_of(selection: &Selection) -> Span
    ensures { result ≡ head_place (sel_view selection.now).label }
{
    match selection {
        Selection::Field(field) => field.span,
        Selection::Spread(spread) => spread.span,
        Selection::Inline(inline) => inline.span,
    }
}

#[tactic(auto, using(gq_tree::proofs::Trees::views))]
fn is_of_kind(kind: SelectionKind, selection: &Selection) -> bool
    ensures { result ≡ is_of_kind kind (sel_view selection.now).label }
{
    match selection {
        Selection::Field(_) => false,
        Selection::Spread(_) => kind == SelectionKind::Spread,
        Selection::Inline(_) => kind == SelectionKind::Inline,
    }
}

fn holds(range: Span, place: Span) -> bool
    ensures { result ≡ holds range place }
{
    place.start <= range.start && range.end <= place.end
}

/// Whether the selection is of that kind and its place holds the range.
fn is_meant(kind: SelectionKind, range: Span, selection: Standing<'_>) -> bool
    ensures { result ≡ is_meant (is_of_kind kind) range (standing_view selection.entry) }
{
    is_of_kind(kind, selection.selection) && holds(range, place_of(selection.selection))
}

/// Of the two, the one that begins later.
fn later<'a>(best: Option<Standing<'a>>, selection: Standing<'a>) -> Option<Standing<'a>>
    ensures { option_map standing_view result ≡ later (option_map standing_view best.entry) (standing_view selection.entry) }
{
    match best {
        None => Some(selection),
        Some(one) => {
            if place_of(one.selection).start < place_of(selection.selection).start {
                Some(selection)
            } else {
                Some(one)
            }
        }
    }
}

/// The best one so far and the selections of a set.
fn meant_in<'a>(
    kind: SelectionKind,
    range: Span,
    set: SetIn<'a>,
    best: Option<Standing<'a>>,
) -> Option<Standing<'a>>
    ensures { option_map standing_view result ≡ begins_last (is_meant (is_of_kind kind) range) (option_map standing_view best.entry)
        (standing_in (text_of set.entry.parent) (sels_view set.entry.selections.now)) }
{
    let mut best = best;
    for selection in set.selections {
        let standing = Standing {
            parent: set.parent,
            selection,
        };
        if is_meant(kind, range, standing) {
            best = later(best, standing);
        }
    }
    best
}

/// Of the selections of that kind in these sets whose place holds the range, in bytes, the one that begins last.
pub fn meant<'a>(kind: SelectionKind, range: Span, sets: &[SetIn<'a>]) -> Option<Standing<'a>>
    ensures { option_map standing_view result ≡ meant (is_of_kind kind) range (sets_view sets.now) }
{
    let mut best = None;
    for set in sets {
        best = meant_in(kind, range, *set, best);
    }
    best
}
