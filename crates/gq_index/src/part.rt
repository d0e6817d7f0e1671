//! What an index keeps of an operation or a fragment: neither a tree nor a text.
ghost use Rattle.std.specs.Prelude.{map};
ghost use Rattle.gq_tree.specs.Views.{name_of};
ghost use Rattle.gq_index.specs.Helping.PartVariables.{AreVariablesNamed};

use crate::index::Variables;
use gq_text::Span;
use gq_tree::Name;

/// What an index keeps of an operation or a fragment.
#[derive(Drop)]
pub struct Part {
    pub(crate) is_operation: bool,
    /// The place of all its tokens.
    pub(crate) place: Span,
    /// The name that a fragment is defined under. For an operation there is none.
    pub(crate) own_name: Option<Name>,
    /// The names in its spreads, in the order of the text.
    pub(crate) spreads: Vec<Name>,
    /// The names of the variables that it uses, in the order of the text.
    pub(crate) used: Vec<Name>,
    /// The names of the variables that it defines, in the order of the text.
    pub(crate) defined: Vec<Name>,
    /// The places of both, by their names.
    pub(crate) variables: Variables,
    ghost are_places: { AreVariablesNamed (map name_of used.items) (map name_of defined.items) variables },
}
