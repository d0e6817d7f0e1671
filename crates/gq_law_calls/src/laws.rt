//! Laws of the calls of resolvers: an operation makes one list of them, and an edit that is answered keeps it.
ghost use Rattle.gq_law_calls.specs.Laws.{EditsKeepCalls, OneListOfCalls, RenamesKeepCalls};
ghost use Rattle.gq_law_calls.specs.Steps.{FragmentRenamesKeepCalls, RestatedProjectsKeepCalls, VariableRenamesKeepCalls};
ghost use Rattle.gq_reshape.specs.Reshape.{IsExtractAnswer, IsInlineAnswer, IsRemoveAnswer};

use gq_laws::agreement::names_agree_in_valid_projects;
use gq_laws::responses::requests_have_a_response;
use gq_laws::types::objects_have_subtypes;
use gq_laws::uses::uses_are_those_of_the_rules;
use gq_laws::validity::fragments_can_be_ranked;
use gq_parse::laws::one_tree;
use gq_rename::laws::{offsets_mean_one_target, renames_are_determined, valid_documents_are_trees};
use gq_rules::laws::no_project_is_valid_and_invalid;

/// Over every table, and for all values of variables, each operation of a valid project has one list of calls, and no other.
pub fn each_operation_has_one_list_of_calls()
    ensures { OneListOfCalls }
{
    one_tree();
    requests_have_a_response();
}

/// In a valid project the edit of an extract, an inline or a remove leaves each list of calls as it was.
pub fn refactorings_keep_calls()
    ensures extract { EditsKeepCalls IsExtractAnswer }
    ensures inline { EditsKeepCalls IsInlineAnswer }
    ensures remove { EditsKeepCalls IsRemoveAnswer }
{
    one_tree();
    no_project_is_valid_and_invalid();
    restated_projects_keep_calls();
}

/// The edit of a rename in a valid project leaves each list of calls as it was.
pub fn renames_keep_calls()
    ensures { RenamesKeepCalls }
{
    one_tree();
    valid_documents_are_trees();
    offsets_mean_one_target();
    renames_are_determined();
    fragment_renames_keep_calls();
    variable_renames_keep_calls();
}

/// Where the documents of a valid project are written anew, so that they ask for what they did over the same types and are
/// valid, each operation has exactly the lists of calls that it had.
pub fn restated_projects_keep_calls()
    ensures { RestatedProjectsKeepCalls }
{
    fragments_can_be_ranked();
    objects_have_subtypes();
    names_agree_in_valid_projects();
    requests_have_a_response();
}

/// A fragment that is given a new name leaves each list of calls as it is.
pub fn fragment_renames_keep_calls()
    ensures { FragmentRenamesKeepCalls }
{
    one_tree();
    no_project_is_valid_and_invalid();
    requests_have_a_response();
}

/// A variable that is given a new name, and values that are given under it, leave each list of calls as it is.
pub fn variable_renames_keep_calls()
    ensures { VariableRenamesKeepCalls }
{
    one_tree();
    no_project_is_valid_and_invalid();
    uses_are_those_of_the_rules();
    requests_have_a_response();
}
