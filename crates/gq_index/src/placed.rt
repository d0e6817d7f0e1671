//! A part of a document, by what is kept of it.
ghost use Rattle.std.specs.Prelude.{◌≡◌};

use crate::part::Part;
use gq_text::Span;
use gq_tree::Name;

/// What is kept of an operation or a fragment, and the document that it stands in.
#[derive(Clone, Copy)]
pub(crate) struct Placed<'a> {
    /// The number of the document in the project, from 0.
    pub(crate) file: usize,
    /// The number of the part in what is kept of that document, from 0.
    pub(crate) offset: usize,
    /// Whether it is an operation, the place of all its tokens, and the names in its spreads: all as in the part, which need
    /// not be looked at for them.
    pub(crate) is_operation: bool,
    pub(crate) place: Span,
    pub(crate) spreads: &'a [Name],
    pub(crate) part: &'a Part,
    ghost is_operation_is: { is_operation ≡ part.now.is_operation },
    ghost place_is: { place ≡ part.now.place },
    ghost spreads_are: { spreads.now ≡ part.now.spreads.items },
}
