//! Laws of the type systems of projects.
ghost use Rattle.std.specs.Prelude.{◌≡◌, List};
ghost use Rattle.gq_fault.specs.declared.found.Found.{Found};
ghost use Rattle.gq_project.specs.declared.document.Doc.{Doc};
ghost use Rattle.gq_types.specs.Entries.{EntryOf};
ghost use Rattle.gq_schema.specs.SchemaOf.{IsTypeSystemOf, HasNoFault, IsFaulty};

use gq_parse::laws::one_tree;

/// Documents have one type system, since a text has one tree at most. So `Schema::build` speaks of that one: it answers
/// a schema only where nothing is wrong with it, and faults only where something is.
pub fn documents_have_one_type_system()
    ensures one { (documents : List Doc) (xs ys : List EntryOf) → IsTypeSystemOf documents xs → IsTypeSystemOf documents ys → xs ≡ ys }
    ensures not_both { (documents : List Doc) (es : List EntryOf) (found : List Found) → IsTypeSystemOf documents es → HasNoFault es → IsFaulty documents found → ⊥ }
{
    one_tree();
}
