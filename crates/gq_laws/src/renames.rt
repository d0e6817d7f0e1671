//! Laws of renames.
ghost use Rattle.gq_laws.specs.Renaming.Kept.{FragmentRenamesKeep, VariableRenamesKeep};

use crate::uses::uses_are_those_of_the_rules;
use gq_parse::laws::one_tree;
use gq_rules::laws::no_project_is_valid_and_invalid;

/// A fragment that is given a new name leaves every response as it is.
pub fn fragment_renames_keep_responses()
    ensures { FragmentRenamesKeep }
{
    one_tree();
    no_project_is_valid_and_invalid();
}

/// A variable that is given a new name, and values that are given under it, leave every response as it is.
pub fn variable_renames_keep_responses()
    ensures { VariableRenamesKeep }
{
    one_tree();
    no_project_is_valid_and_invalid();
    uses_are_those_of_the_rules();
}
