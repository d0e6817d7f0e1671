//! Laws of rewritten documents.
ghost use Rattle.gq_laws.specs.Rewriting.Edits.{ExtractRestates, InlineRestates, RemoveRestates};
ghost use Rattle.gq_laws.specs.Rewriting.Parts.{TreesCutNoCharacter};
ghost use Rattle.gq_laws.specs.Rewriting.Trees.{TreesAreInPlace};

/// Where a run becomes a spread of a new fragment with these selections, each operation and each fragment asks for what it did.
pub fn extracting_keeps_what_is_asked()
    ensures { ExtractRestates }
{}

/// So it is where a spread becomes an inline fragment with what its fragment selects, and where the fragment goes with its last spread.
pub fn inlining_keeps_what_is_asked()
    ensures { InlineRestates }
{}

/// So it is where the selections of an inline fragment that says nothing stand in its place.
pub fn removing_keeps_what_is_asked()
    ensures { RemoveRestates }
{}

/// In the tree of a text the definitions stand one after the other, and so do the selections of each set, in the place of what holds them.
pub fn trees_of_texts_are_in_place()
    ensures { TreesAreInPlace }
{}

/// The places of definitions, braces, selections and directives in the tree of a text begin and end between its characters.
pub fn trees_of_texts_cut_no_character()
    ensures { TreesCutNoCharacter }
{}
