//! Laws of renames in valid projects.
ghost use Rattle.gq_fields.specs.FieldFaults.{IsFieldFault};
ghost use Rattle.gq_fragments.specs.FragmentFaults.{IsFragmentFault};
ghost use Rattle.gq_fragments.specs.OperationFaults.{IsOperationFault};
ghost use Rattle.gq_merging.specs.FieldsMerge.{IsMergingFault};
ghost use Rattle.gq_spreads.specs.SpreadFaults.{IsSpreadFault};
ghost use Rattle.gq_variables.specs.VariableFaults.{IsVariableFault};
ghost use Rattle.gq_laws.specs.RenamedValid.Valid.{FragmentRenamesStayValid, VariableRenamesKeepRule, VariableRenamesStayValid};

use crate::places::{
    fragment_renames_keep_all_rules, places_do_not_matter_to_merging_faults,
    places_do_not_matter_to_variable_faults, renames_keep_what_is_faultless,
    variable_renames_keep_what_is_faultless,
};
use crate::uses::uses_are_those_of_the_rules;
use gq_parse::laws::one_tree;
use gq_renamed::laws::renamed_projects_read;
use gq_rules::laws::{no_project_is_valid_and_invalid, valid_documents_have_trees};

/// After a fragment was given a name that no fragment has, a valid project is valid.
pub fn fragment_renames_stay_valid()
    ensures { FragmentRenamesStayValid }
{
    one_tree();
    no_project_is_valid_and_invalid();
    valid_documents_have_trees();
    renamed_projects_read();
    fragment_renames_keep_all_rules();
}

/// After a variable was given a name, in its group, that no operation of the group defines, a valid project has no fault of
/// the rules of executable definitions.
pub fn variable_renames_keep_rules()
    ensures fields { VariableRenamesKeepRule IsFieldFault }
    ensures operations { VariableRenamesKeepRule IsOperationFault }
    ensures fragments { VariableRenamesKeepRule IsFragmentFault }
    ensures spreads { VariableRenamesKeepRule IsSpreadFault }
    ensures variables { VariableRenamesKeepRule IsVariableFault }
    ensures merging { VariableRenamesKeepRule IsMergingFault }
{
    one_tree();
    no_project_is_valid_and_invalid();
    uses_are_those_of_the_rules();
    renames_keep_what_is_faultless();
    variable_renames_keep_what_is_faultless();
    places_do_not_matter_to_variable_faults();
    places_do_not_matter_to_merging_faults();
}

/// So it is valid then.
pub fn variable_renames_stay_valid()
    ensures { VariableRenamesStayValid }
{
    one_tree();
    no_project_is_valid_and_invalid();
    valid_documents_have_trees();
    renamed_projects_read();
    variable_renames_keep_rules();
}
