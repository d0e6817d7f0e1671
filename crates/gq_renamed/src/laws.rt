//! Laws of renamed texts.
ghost use Rattle.std.specs.Prelude.{◌≡◌, ℕ, List, filter};
ghost use Rattle.std.specs.Str.{bytes_eq};
ghost use Rattle.gq_text.specs.declared.place.Span.{Span};
ghost use Rattle.gq_tree.specs.Plain.{Def};
ghost use Rattle.gq_tree.specs.Names.{fragment_names};
ghost use Rattle.gq_renamed.specs.Changed.{changed_in_document};
ghost use Rattle.gq_renamed.specs.Renamings.{fragment_called};
ghost use Rattle.gq_renamed.specs.Rewritten.{RenamedTextsRead};
ghost use Rattle.gq_renamed.specs.Projects.{RenamedProjectsRead};

/// A text in which names are replaced by a Name reads as the tree with those names changed: the replacements overlap nowhere, cut no character, and keep
/// the limits of tokens and of nesting (GraphQL, October 2021, section 2).
pub fn renamed_texts_read()
    ensures { RenamedTextsRead }
{}

/// The names that the rename of a fragment changes are those of its definitions and spreads: the names of fragments with its text, in the order of the text.
pub fn a_fragment_is_renamed_by_its_name()
    ensures { (old : List ℕ) (k : ℕ) (ds : List (Def Span)) → changed_in_document (λ n. fragment_called old) k ds ≡ filter (λ n. bytes_eq n.text old) (fragment_names ds) }
{}

/// The edit of a rename can be made in the documents of a project, and afterwards each of them has the tree that it had, with the names changed.
pub fn renamed_projects_read()
    ensures { RenamedProjectsRead }
{}
