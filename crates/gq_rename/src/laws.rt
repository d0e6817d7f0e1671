//! Laws of renames.
ghost use Rattle.std.specs.Prelude.{ℕ, List, Err};
ghost use Rattle.gq_project.specs.declared.document.Doc.{Doc};
ghost use Rattle.gq_rules.specs.Validity.{IsInvalid};
ghost use Rattle.gq_rename.specs.declared.refusal.Refusal.TheVariants.{ProjectInvalid};
ghost use Rattle.gq_rename.specs.Determined.{RenamesAreDetermined, RenamesAreThere, PreparedNamesAreDetermined, RenamesNameVersions, RenamesLeadBack};
ghost use Rattle.gq_rename.specs.Rename.{IsRenameAnswer};
ghost use Rattle.gq_rename.specs.Responses.{RenamesKeepResponses};
ghost use Rattle.gq_rename.specs.Standing.{PreparedNamesStandInTexts};
ghost use Rattle.gq_rename.specs.Sound.{RenamesAreSound, RenamesPass, ValidDocumentsAreTrees, OffsetsMeanOneTarget};

use gq_laws::renames::{fragment_renames_keep_responses, variable_renames_keep_responses};
use gq_laws::renames_valid::{fragment_renames_stay_valid, variable_renames_stay_valid};
use gq_parse::laws::{no_tree_past_limits, one_tree};
use gq_renamed::laws::{renamed_projects_read, renamed_texts_read};
use gq_rules::laws::{no_project_is_valid_and_invalid, valid_documents_have_trees};
use gq_text::laws::positions_lead_back;

/// In a project that is not valid every rename is refused as that.
pub fn renames_of_invalid_projects_are_refused()
    ensures { (documents : List Doc) (key : List ℕ) (offset : ℕ) (new : List ℕ) → IsInvalid documents → IsRenameAnswer documents key offset new (Err ProjectInvalid) }
{
    no_project_is_valid_and_invalid();
}

/// The edit of a rename in a valid project can be made there, and the edited texts read as the trees with the names
/// changed.
pub fn renames_are_sound()
    ensures { RenamesAreSound }
{
    valid_documents_are_trees();
    renamed_projects_read();
    renamed_texts_read();
    no_tree_past_limits();
}

/// In a valid project a rename is not refused for what its edit would leave.
pub fn renames_pass()
    ensures { RenamesPass }
{
    valid_documents_are_trees();
    renamed_projects_read();
    fragment_renames_stay_valid();
    variable_renames_stay_valid();
}

/// What is read of the documents of a valid project are their trees.
pub fn valid_documents_are_trees()
    ensures { ValidDocumentsAreTrees }
{
    valid_documents_have_trees();
}

/// However documents are read, an offset in one of them means the same to a rename.
pub fn offsets_mean_one_target()
    ensures { OffsetsMeanOneTarget }
{
    one_tree();
}

/// The edit of a rename in a valid project leaves every response as it was.
pub fn renames_keep_responses()
    ensures { RenamesKeepResponses }
{
    one_tree();
    valid_documents_are_trees();
    fragment_renames_keep_responses();
    variable_renames_keep_responses();
}

/// A rename has one answer: two that meet its definition are equal, however the documents are read.
pub fn renames_are_determined()
    ensures { RenamesAreDetermined }
{
    one_tree();
}

/// So what a rename would be of is one.
pub fn prepared_names_are_determined()
    ensures { PreparedNamesAreDetermined }
{
    one_tree();
}

/// And the name stands in the text of its document: the text can be cut at both of its ends, which come in order.
pub fn prepared_names_stand_in_texts()
    ensures { PreparedNamesStandInTexts }
{}

/// A rename has an answer: documents that are read cannot be without one.
pub fn renames_are_there()
    ensures { RenamesAreThere }
{}

/// Each document that a rename edits is there at the version that the edit names.
pub fn renames_name_versions()
    ensures { RenamesNameVersions }
{}

/// The positions that are written for the edit of a rename lead back to its offsets, in each encoding: it replaces tokens, and no
/// token begins with LF or ends with CR.
pub fn renames_lead_back()
    ensures { RenamesLeadBack }
{
    positions_lead_back();
}
