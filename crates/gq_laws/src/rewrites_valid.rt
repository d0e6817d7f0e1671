//! Laws of valid projects in which selections were moved.
ghost use Rattle.gq_fields.specs.FieldFaults.{IsFieldFault};
ghost use Rattle.gq_fragments.specs.FragmentFaults.{IsFragmentFault};
ghost use Rattle.gq_fragments.specs.OperationFaults.{IsOperationFault};
ghost use Rattle.gq_spreads.specs.SpreadFaults.{IsSpreadFault};
ghost use Rattle.gq_variables.specs.VariableFaults.{IsVariableFault};
ghost use Rattle.gq_merging.specs.FieldsMerge.{IsMergingFault};
ghost use Rattle.gq_laws.specs.RewrittenValid.Removed.{RemovalsKeepAllRules, RemovalsKeepRule};
ghost use Rattle.gq_laws.specs.RewrittenValid.Extracted.{ExtractsKeepAllRules, ExtractsKeepRule};

use crate::merging_kept::fields_out_of_braces_merge;
use crate::places::{fields_that_are_kept_merge, trees_say_what_is_faultless};

/// After an inline fragment that says nothing lost its braces, there is no fault of a rule of which there was none.
pub fn removals_keep_rules()
    ensures fields { RemovalsKeepRule IsFieldFault }
    ensures operations { RemovalsKeepRule IsOperationFault }
    ensures fragments { RemovalsKeepRule IsFragmentFault }
    ensures spreads { RemovalsKeepRule IsSpreadFault }
    ensures variables { RemovalsKeepRule IsVariableFault }
{
    trees_say_what_is_faultless();
}

/// After selections in a row were put into a new fragment, no rule of operations and fragments is broken, if none was before and
/// some object type is possible where they stand.
pub fn extracts_keep_rules()
    ensures fields { ExtractsKeepRule IsFieldFault }
    ensures operations { ExtractsKeepRule IsOperationFault }
    ensures fragments { ExtractsKeepRule IsFragmentFault }
    ensures spreads { ExtractsKeepRule IsSpreadFault }
    ensures variables { ExtractsKeepRule IsVariableFault }
    ensures merging { ExtractsKeepRule IsMergingFault }
{
    trees_say_what_is_faultless();
    fields_that_are_kept_merge();
}

/// After an inline fragment that says nothing lost its braces no rule of executable definitions is broken, if none was before.
pub fn removals_keep_all_rules()
    ensures { RemovalsKeepAllRules }
{
    removals_keep_rules();
    fields_out_of_braces_merge();
}

/// So it is after selections in a row were put into a new fragment, where some object type is possible for them.
pub fn extracts_keep_all_rules()
    ensures { ExtractsKeepAllRules }
{
    extracts_keep_rules();
}
