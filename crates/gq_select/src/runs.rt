//! Selections of a set one after the other, between two places (GraphQL, October 2021, section 2.4).
ghost use Rattle.std.specs.Prelude.{◌≡◌, ◌≤◌, length, take};
ghost use Rattle.std.specs.Option.{option_map, ForSome};
ghost use Rattle.gq_tree.specs.Views.{sels_view};
ghost use Rattle.gq_document.specs.SetViews.{set_view, sets_view};
ghost use Rattle.gq_select.specs.Runs.{find_run, innermost, run_in, run_of_set, run_to};
ghost use Rattle.gq_select.specs.Views.{run_view};

use crate::selecting::place_of;
use gq_document::SetIn;
use gq_text::Span;
use gq_tree::Selection;

/// Selections of a set one after the other, and the name of the type of the set's parent where that is known.
#[derive(Clone, Copy)]
pub struct Run<'a> {
    pub parent: Option<&'a str>,
    pub selections: &'a [Selection],
}

/// How many of the first selections there are up to the one that ends there.
fn len_to(selections: &[Selection], end: usize) -> Option<usize>
    ensures run { option_map (λ len. sels_view (take len selections.now)) result ≡ run_to end (sels_view selections.now) }
    ensures within { ForSome result (λ len. len ≤ length selections.now) }
{
    for (index, selection) in selections.iter().enumerate() {
        if place_of(selection).end == end {
            return Some(index + 1);
        }
    }
    None
}

/// From the selection that starts where the place starts to the one that ends where it ends.
fn run_in<'a>(selections: &'a [Selection], place: Span) -> Option<&'a [Selection]>
    ensures { option_map (λ run. sels_view run.now) result ≡ run_in place.start place.end (sels_view selections.now) }
{
    for (index, selection) in selections.iter().enumerate() {
        if place_of(selection).start == place.start {
            let rest = &selections[index..];
            let len = len_to(rest, place.end)?;
            return Some(&rest[..len]);
        }
    }
    None
}

/// The run of the place in a set.
fn run_of_set<'a>(set: &SetIn<'a>, place: Span) -> Option<Run<'a>>
    ensures { option_map run_view result ≡ run_of_set place.start place.end (set_view set.now) }
{
    match run_in(set.selections, place) {
        Some(selections) => Some(Run {
            parent: set.parent,
            selections,
        }),
        None => None,
    }
}

/// Consecutive selections of one of these sets, of which the first starts where the place starts, in bytes, and the last
/// ends where it ends.
pub fn find_run<'a>(sets: &[SetIn<'a>], place: Span) -> Option<Run<'a>>
    ensures { option_map run_view result ≡ find_run place.start place.end (sets_view sets.now) }
{
    for set in sets {
        if let Some(run) = run_of_set(set, place) {
            return Some(run);
        }
    }
    None
}

/// The innermost of these sets, which stand in the order of the text, between whose braces both ends of the place lie.
#[tactic(auto, using(gq_document::proofs::LastLemmas::keeps_last, gq_document::proofs::LastLemmas::keeps_rest))]
pub fn innermost<'a>(sets: &[SetIn<'a>], place: Span) -> Option<SetIn<'a>>
    ensures { option_map set_view result ≡ innermost place.start place.end (sets_view sets.now) }
{
    let mut last = None;
    for set in sets {
        if set.braces.start < place.start && place.end < set.braces.end {
            last = Some(*set);
        }
    }
    last
}
