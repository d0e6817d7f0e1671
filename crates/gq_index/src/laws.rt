//! A law of the index of a project.
ghost use Rattle.std.specs.Prelude.{◌≡◌, List};
ghost use Rattle.gq_project.specs.declared.document.Doc.{Doc};
ghost use Rattle.gq_index.specs.Occurrences.{DefinitionOf, AreExecutables};

use gq_parse::laws::one_tree;

/// Documents have one list of executable definitions, since a text has one tree at most. So an index speaks of that one.
pub fn documents_have_one_list()
    ensures { (documents : List Doc) (xs ys : List DefinitionOf) → AreExecutables documents xs → AreExecutables documents ys → xs ≡ ys }
{
    one_tree();
}
