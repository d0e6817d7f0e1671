//! Laws of valid projects in which a spread became an inline fragment.
ghost use Rattle.gq_fields.specs.FieldFaults.{IsFieldFault};
ghost use Rattle.gq_fragments.specs.FragmentFaults.{IsFragmentFault};
ghost use Rattle.gq_fragments.specs.OperationFaults.{IsOperationFault};
ghost use Rattle.gq_laws.specs.RewrittenValid.Inlined.{InlinesKeepAllRules, InlinesKeepRule};
ghost use Rattle.gq_spreads.specs.SpreadFaults.{IsSpreadFault};
ghost use Rattle.gq_variables.specs.VariableFaults.{IsVariableFault};

use crate::merging_kept::inlined_fields_merge;
use crate::places::trees_say_what_is_faultless;

/// After a spread became an inline fragment with the selections of its fragment, and the fragment went with its last spread if it
/// was that, there is no fault of these rules if there was no fault of any rule.
pub fn inlines_keep_rules()
    ensures fields { InlinesKeepRule IsFieldFault }
    ensures operations { InlinesKeepRule IsOperationFault }
    ensures fragments { InlinesKeepRule IsFragmentFault }
    ensures spreads { InlinesKeepRule IsSpreadFault }
    ensures variables { InlinesKeepRule IsVariableFault }
{
    trees_say_what_is_faultless();
}

/// No rule of executable definitions is broken then, if none was.
pub fn inlines_keep_all_rules()
    ensures { InlinesKeepAllRules }
{
    inlines_keep_rules();
    inlined_fields_merge();
}
