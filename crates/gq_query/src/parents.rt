//! The type of the parent of a field in a selection (GraphQL, October 2021, section 5.3.1).
ghost use Rattle.std.specs.Prelude.{◌≡◌, IfOk, find, option_and_then};
ghost use Rattle.gq_tree.specs.Views.{sel_view};
ghost use Rattle.gq_types.specs.Look.{types_view, text_of};
ghost use Rattle.gq_document.specs.Views.{selections_view};
ghost use Rattle.gq_query.specs.Parents.{is_field_at, parent_at};
ghost use Rattle.gq_index.specs.Views.{definition_view};

use gq_document::{Selected, selections_of};
use gq_index::Executable;
use gq_text::{NoMemory, Span};
use gq_tree::Selection;
use gq_types::Types;
use std::alloc::Global;

/// The name of the type of the parent of the field whose name token stands there in a definition, where it is known.
pub(crate) fn parent_at<'a>(
    alloc: Global,
    types: &'a Types,
    one: &Executable<'a>,
    at: Span,
) -> Result<Option<&'a str>, NoMemory>
    ensures { IfOk result (λ parent. text_of parent ≡ parent_at (types_view types.now) at (definition_view one.now)) }
{
    let all = selections_of(alloc, types, one.file, one.definition)?;
    Ok(parent_among(&all, at))
}

/// That of the first of these selections that is a field whose name token stands there.
fn parent_among<'a>(all: &[Selected<'a>], at: Span) -> Option<&'a str>
    ensures { text_of result ≡ option_and_then (λ s. s.parent) (find (λ s. is_field_at at s.selection.label) (selections_view all.now)) }
{
    for one in all {
        if is_field_at(one.selection, at) {
            return one.parent;
        }
    }
    None
}

/// Whether it is a field whose name token stands there.
#[tactic(auto, using(gq_tree::proofs::Trees::gathers))]
fn is_field_at(selection: &Selection, at: Span) -> bool
    ensures { result ≡ is_field_at at (sel_view selection.now).label }
{
    match selection {
        Selection::Field(field) => {
            field.name.span.start == at.start && field.name.span.end == at.end
        }
        Selection::Spread(_) => false,
        Selection::Inline(_) => false,
    }
}
