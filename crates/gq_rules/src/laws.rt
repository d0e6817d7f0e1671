//! Laws of the validation of projects.
ghost use Rattle.std.specs.Prelude.{◌≡◌, List};
ghost use Rattle.std.specs.List.{AllByRecursion};
ghost use Rattle.gq_project.specs.declared.document.Doc.{Doc};
ghost use Rattle.gq_fault.specs.declared.found.Found.{Found};
ghost use Rattle.gq_rules.specs.Trees.{HasTree};
ghost use Rattle.gq_rules.specs.Validity.{IsReportOf, IsValid, IsInvalid};

use crate::valid::Valid;
use gq_parse::laws::documents_have_one_reading;

/// No project is both valid and invalid: a text has one tree at most, so each reading of the documents demands the same.
pub fn no_project_is_valid_and_invalid()
    ensures { (documents : List Doc) → IsValid documents → IsInvalid documents → ⊥ }
{
    documents_have_one_reading();
}

/// A project has one report: what is told of its documents is determined, since a text has one tree, or one fault at one place.
pub fn a_project_has_one_report()
    ensures { (documents : List Doc) (a b : List Found) → IsReportOf documents a → IsReportOf documents b → a ≡ b }
{
    documents_have_one_reading();
}

/// Each document of a valid project has a tree.
pub fn valid_documents_have_trees()
    ensures { (documents : List Doc) → IsValid documents → AllByRecursion (λ document. HasTree document.text) documents }
{}

/// What a `Valid` keeps is a valid project.
pub fn projects_are_valid(valid: &Valid)
    ensures { ∥ IsValid valid.now ∥₁ }
{
    let _project = valid.project();
}
